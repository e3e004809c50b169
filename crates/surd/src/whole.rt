// The whole part of b√2.
ghost use Rattle.std.specs.Prelude.{◌≡◌, ◌+◌, ◌*◌, ◌<◌, ◌≤◌};
ghost use Rattle.surd.specs.Surds.{whole_part};

use crate::table::whole_parts;

// The fraction ROOT_TWO / SCALE is so near to √2 that it gives the whole part of b√2 for each b of 32 bits.
const SCALE: u128 = 1 << 66;

// The whole part of SCALE times √2.
const ROOT_TWO: u128 = 104_350_542_602_662_257_698;

// The whole part, computed without the table.
fn scaled(b: u32) -> u64
    ensures { result ≡ whole_part b }
{
    (u128::from(b) * ROOT_TWO / SCALE) as u64
}

// The greatest whole number that is not past b√2: from the table, and computed where the table ends.
pub fn whole_part(b: u32) -> u64
    ensures is { result ≡ whole_part b }
    ensures square { (result * result ≤ 2 * (b * b)) × (2 * (b * b) < (result + 1) * (result + 1)) }
{
    whole_parts()
        .get(b as usize)
        .map_or_else(|| scaled(b), |whole| u64::from(*whole))
}
