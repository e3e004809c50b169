// The row that comes first. The inner order stands in the contract: it depends on the tariff, which the type does not name.
ghost use Rattle.std.specs.Prelude.{◌≡◌, ◌+◌, ◌%◌, ◌<◌, ◌≤◌, None, slice_index_or};
ghost use Rattle.rows.specs.Waiting.{some_rows};
ghost use Rattle.rows.specs.Rows.{base};
ghost use Rattle.ring.specs.Rings.{FoundIn, Found, InOrder};

use super::Ring;
use tariff::Tariff;

// Whether tariffs of a span are served: they have from 2 to 32 rows.
pub fn has_rows(span: u32) -> bool
    ensures { result ≡ some_rows span }
{
    (1..=31).contains(&span)
}

// How many rows a span needs: one more, so that no two levels of a wave share a row.
pub fn row_count(span: u32) -> u64
    ensures { result ≡ span + 1 }
{
    u64::from(span) + 1
}

// A row, and its first place.
#[derive(Clone, Copy)]
pub struct Bucket {
    pub row: usize,
    pub head: u32,
}

// The first of some rows that is not empty: those with a number from one up to another.
fn first_in(heads: &[Option<u32>; 32], from: usize, to: usize) -> Option<Bucket>
    requires { to ≤ 32 }
    ensures { FoundIn (λ k. slice_index_or heads.now k None) from to result }
{
    (from..to).find_map(|row| heads[row].map(|head| Bucket { row, head }))
}

impl<'a, C: Copy> Ring<'a, C> {
    // The row of a cost.
    pub(super) fn row_of<T: Tariff<Cost = C>>(&self, cost: C) -> usize
        requires { 0 < self.now.rows }
        ensures { result ≡ T.Tariff.rates.level cost % self.now.rows }
    {
        (T::level(cost) % self.rows) as usize
    }

    // The first row that is not empty, from that of the cost taken last, or of nothing, on round the ring.
    pub(super) fn first_row<T: Tariff<Cost = C>>(&self) -> Option<Bucket>
        requires { InOrder T.Tariff.rates self.now }
        ensures { Found (λ k. slice_index_or self.now.heads k None) self.now.rows (base T.Tariff.rates self.now.last % self.now.rows) result }
    {
        let rows = self.rows as usize;
        let from = self.row_of::<T>(self.last.unwrap_or(T::nothing()));
        let heads = &self.heads;
        first_in(heads, from, rows).or_else(|| first_in(heads, 0, from))
    }
}
