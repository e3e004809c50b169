// A front of rows in a ring, for every tariff whose span is 1 to 31.
#![tactic(auto)]

ghost use Rattle.std.specs.Prelude.{◌≡◌, ℕ, ◌-◌, length, nat_lt, None};
ghost use Rattle.tariff.specs.Rates.{Rates};
ghost use Rattle.ring.specs.Rings.{view_of, InOrder};

mod filing;
mod records;
mod turning;

use front::{Front, Taken, cost_offered};
use grid::Step;
pub use rows::RingRecord;
use tariff::Tariff;
use turning::{has_rows, row_count};

// The places that wait, in a list that is lent: a search has no memory of its own. Each is filed in one of span + 1 rows, by the level of its cost modulo their
// number: the levels of all that wait lie between the level taken last and that plus the span, so a row has one level only.
// The list may hold anything at first, and nothing goes over it: a place is in use if its record names a position in use, and
// that position's record names the place.
#[derive(Drop)]
pub struct Ring<'a, C: Copy> {
    // The records: the first is the ring's own, and the next is that of the place and the position 0.
    list: &'a mut [RingRecord<C>],
    // How many positions are in use.
    touched: usize,
    // How many rows are in use.
    rows: u64,
    // The first place of each row; an array of the most rows, since the tariff is known only when it starts.
    heads: [Option<u32>; 32],
    // The cost taken last.
    last: Option<C>,
}

impl<'a, C: Copy> Ring<'a, C> {
    // A front that serves one place fewer than the list has records, and where none waits.
    pub fn new(list: &'a mut [RingRecord<C>]) -> Ring<'a, C>
        ensures none { (k : ℕ) → (view_of result).waiting k ≡ None }
        ensures last { (view_of result).last ≡ None }
        ensures served { (view_of result).served ≡ length list.old - 1 }
        ensures order { (t : Rates C) → InOrder t result }
        ensures list { result.list.now ≡ list.old }
        ensures lent { result.list.ghost_name ≡ list.entry.ghost_name }
    {
        Ring {
            list,
            touched: 0,
            rows: 1,
            heads: [None; 32],
            last: None,
        }
    }

    // How many places are served. This and the next are as the heap's: each reads a list of its own.
    fn capacity(&self) -> usize
        ensures { result ≡ (view_of self.now).served }
    {
        self.list.len().saturating_sub(1)
    }

    // Whether a place is served.
    fn holds(&self, place: u32) -> bool
        ensures { result ≡ nat_lt place (view_of self.now).served }
    {
        (place as usize) < self.capacity()
    }
}

impl<'a, T: Tariff> Front<T> for Ring<'a, T::Cost> {
    ghost view = { view_of };

    ghost ordered = { InOrder T.Tariff.rates };

    fn serves(&self, places: u32) -> bool {
        has_rows(T::max_rise()) && places as usize <= self.capacity()
    }

    fn start(&mut self, place: u32) -> bool {
        let span = T::max_rise();
        if !has_rows(span) || !self.holds(place) {
            return false;
        }
        self.clear(row_count(span));
        self.join::<T>(place, T::nothing());
        true
    }

    // The heap's put reads the same. One for both would need three more calls in the interface: the places served, the cost taken
    // last, and an offer at a cost.
    fn put(&mut self, place: u32, step: Step) -> bool {
        if !self.holds(place) {
            return false;
        }
        let Some(cost) = cost_offered::<T>(self.last, step) else {
            return false;
        };
        self.offer::<T>(place, cost);
        true
    }

    fn take(&mut self) -> Option<Taken<T::Cost>> {
        let first = self.first_row::<T>()?;
        // A head waits, so there is a cost.
        let cost = self.waiting_at(first.head).unwrap();
        self.leave::<T>(first.row, first.head);
        self.last = Some(cost);
        Some(Taken {
            place: first.head,
            cost,
        })
    }
}
