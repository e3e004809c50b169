// The rectilinear tariff: straight steps and vias, no diagonals.
#![tactic(auto)]

ghost use Rattle.std.specs.Prelude.{◌≡◌, refl};
ghost use Rattle.rectilinear.specs.Rectilinear.{rectilinear_rates};
ghost use Rattle.rectilinear.specs.RectilinearLaws.{rectilinear_laws};

use grid::Step;
use tariff::Tariff;

// A cost is one number: 1 for each straight step and 8 for each via.
pub struct Rectilinear;

// The largest cost that a step may come to.
const LIMIT: u32 = 16_777_216;

impl Tariff for Rectilinear {
    type Cost = u32;

    const SPAN: u32 = 8;

    ghost SPAN = { 8 };

    ghost rates = { rectilinear_rates };

    ghost laws = { rectilinear_laws };

    ghost span_is = { refl };

    fn nothing() -> u32 {
        0
    }

    // `<` of its own cost, as the octile tariff's.
    fn less(a: u32, b: u32) -> bool {
        a < b
    }

    fn has(step: Step) -> bool {
        step != Step::Diagonal
    }

    fn after(cost: u32, step: Step) -> Option<u32> {
        // The kinds of step differ in nothing but what they add.
        let rise = match step {
            Step::Straight => 1,
            Step::Diagonal => return None,
            Step::Via => 8,
        };
        let sum = cost.saturating_add(rise);
        (sum <= LIMIT).then_some(sum)
    }

    fn level(cost: u32) -> u64 {
        u64::from(cost)
    }
}
