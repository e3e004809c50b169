// Places are inserted, wait at a smaller cost, and are removed. A place and its cost are two parameters: a struct of them would
// be a second `Taken`, of what was not taken. The inner order stands in each contract: it depends on the tariff, which the type
// does not name.
ghost use Rattle.std.specs.Prelude.{◌≡◌, ◌+◌, ◌-◌, ◌<◌, ◌≤◌, true, false, length, Some, None};
ghost use Rattle.front.specs.Places.{room, Waits, Offers};
ghost use Rattle.sift.specs.Layouts.{layout, waits, lower, LeastWaits};
ghost use Rattle.heap.specs.Queues.{view_of, InOrder};

use super::Heap;
use super::records::set_cost;
use front::Taken;
use tariff::Tariff;

impl<'a, C: Copy> Heap<'a, C> {
    // Whether a place waits: it names a position in use, which names the place. As the ring's `in_use`: one function for both
    // would need a trait that reads each field of a record.
    fn is_waiting(&self, place: u32) -> bool
        requires few { self.now.count ≤ room (length self.now.list.now) }
        requires inside { place < room (length self.now.list.now) }
        ensures { result ≡ waits (layout self.now.list.now) self.now.count place }
    {
        let position = self.position_of(place);
        position <= self.count && self.slot_at(position) == place
    }

    // Inserts a place that does not wait.
    pub(super) fn insert<T: Tariff<Cost = C>>(&mut self, place: u32, cost: C)
        requires order { InOrder T.Tariff.rates self.old }
        requires inside { place < room (length self.old.list.now) }
        requires absent { waits (layout self.old.list.now) self.old.count place ≡ false }
        ensures order { InOrder T.Tariff.rates self.new }
        ensures change { Waits (view_of self.old) (view_of self.new) place (Some cost) }
    {
        let last = self.count + 1;
        set_cost(self.list, place, cost);
        self.count = last;
        self.sift_up::<T>(last, place, cost);
    }

    // Gives a place that waits a smaller cost.
    fn decrease<T: Tariff<Cost = C>>(&mut self, place: u32, cost: C)
        requires order { InOrder T.Tariff.rates self.old }
        requires inside { place < room (length self.old.list.now) }
        requires present { waits (layout self.old.list.now) self.old.count place ≡ true }
        requires less { lower T.Tariff.rates (Some cost) ((layout self.old.list.now).cost place) ≡ true }
        ensures order { InOrder T.Tariff.rates self.new }
        ensures change { Waits (view_of self.old) (view_of self.new) place (Some cost) }
    {
        let position = self.position_of(place);
        set_cost(self.list, place, cost);
        self.sift_up::<T>(position, place, cost);
    }

    // Lets a place wait at a cost, unless it waits at one that is not greater.
    pub(super) fn offer<T: Tariff<Cost = C>>(&mut self, place: u32, cost: C)
        requires order { InOrder T.Tariff.rates self.old }
        requires inside { place < room (length self.old.list.now) }
        ensures order { InOrder T.Tariff.rates self.new }
        ensures change { Offers T.Tariff.rates (view_of self.old) (view_of self.new) place cost }
    {
        if !self.is_waiting(place) {
            self.insert::<T>(place, cost);
        } else if T::less(cost, self.cost_of(place)) {
            self.decrease::<T>(place, cost);
        }
    }

    // Removes the place at the first position.
    pub(super) fn remove_first<T: Tariff<Cost = C>>(&mut self) -> Taken<C>
        requires order { InOrder T.Tariff.rates self.old }
        requires some { 1 ≤ self.old.count }
        ensures order { InOrder T.Tariff.rates self.new }
        ensures first { LeastWaits T.Tariff.rates (layout self.old.list.now) (room (length self.old.list.now)) self.old.count result.place result.cost }
        ensures change { Waits (view_of self.old) (view_of self.new) result.place None }
    {
        let count = self.count;
        let first = self.at(1);
        let last = self.at(count);
        self.count = count - 1;
        if count > 1 {
            self.sift_down::<T>(last.place, last.cost);
        }
        first
    }
}
