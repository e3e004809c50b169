// A front that is an indexed binary heap.
#![tactic(auto)]

ghost use Rattle.std.specs.Prelude.{◌≡◌, ◌-◌, length, nat_lt};
ghost use Rattle.tariff.specs.Rates.{Rates};
ghost use Rattle.heap.specs.Queues.{view_of, empty_queue, InOrder};

mod records;
mod sifting;
mod waiting;

use front::{Front, Taken, cost_offered};
use grid::Step;
pub use sift::HeapRecord;
use tariff::Tariff;

// The waiting places are at the positions 1 to `count` of a lent list, none at less than its parent. A place waits if its
// record names one of these positions, and that position names the place; so the list may hold anything at first, and start
// does not pass over it. The list is lent: a search has no memory of its own.
#[derive(Drop)]
pub struct Heap<'a, C: Copy> {
    list: &'a mut [HeapRecord<C>],
    count: usize,
    last: Option<C>,
}

impl<'a, C: Copy> Heap<'a, C> {
    // A new front is empty, in order for every tariff, and serves one place fewer than the list has records.
    pub fn new(list: &'a mut [HeapRecord<C>]) -> Heap<'a, C>
        ensures is { view_of result ≡ empty_queue (length list.old - 1) }
        ensures ordered { (t : Rates C) → InOrder t result }
        ensures list { result.list.now ≡ list.old }
        ensures lent { result.list.ghost_name ≡ list.entry.ghost_name }
    {
        Heap {
            list,
            count: 0,
            last: None,
        }
    }

    // How many places are served. This and the next are as the ring's: each reads a list of its own.
    fn capacity(&self) -> usize
        ensures { result ≡ (view_of self.now).served }
    {
        self.list.len().saturating_sub(1)
    }

    // Whether a place is served.
    fn holds(&self, place: u32) -> bool
        ensures { result ≡ nat_lt place (view_of self.now).served }
    {
        (place as usize) < self.capacity()
    }
}

impl<'a, T: Tariff> Front<T> for Heap<'a, T::Cost> {
    ghost view = { view_of };

    ghost ordered = { InOrder T.Tariff.rates };

    fn serves(&self, places: u32) -> bool {
        places as usize <= self.capacity()
    }

    fn start(&mut self, place: u32) -> bool {
        if !self.holds(place) {
            return false;
        }
        self.count = 0;
        self.last = None;
        self.insert::<T>(place, T::nothing());
        true
    }

    // The ring's put reads the same. One for both would need three more calls in the interface: the places served, the cost taken
    // last, and an offer at a cost.
    fn put(&mut self, place: u32, step: Step) -> bool {
        if !self.holds(place) {
            return false;
        }
        let Some(cost) = cost_offered::<T>(self.last, step) else {
            return false;
        };
        self.offer::<T>(place, cost);
        true
    }

    fn take(&mut self) -> Option<Taken<T::Cost>> {
        if self.count == 0 {
            return None;
        }
        let first = self.remove_first::<T>();
        self.last = Some(first.cost);
        Some(first)
    }
}
