// Places that are sifted up and down. A place is not exchanged with the next one: the others move through the hole that it
// is to fill, one at each level.
ghost use Rattle.std.specs.Prelude.{◌≡◌, ◌+◌, ◌*◌, ◌/◌, ◌<◌, ◌≤◌, length, Some};
ghost use Rattle.sift.specs.Layouts.{layout, key, below_parent, least_child, lower_child};
ghost use Rattle.heap.specs.Queues.{MayRise, MaySink, HasHole, Fills};

use super::Heap;
use super::records::link;
use tariff::Tariff;

impl<'a, C: Copy> Heap<'a, C> {
    // The cost of the place at a position.
    fn key_at(&self, position: usize) -> C
        requires position { position < length self.now.list.now }
        requires place { (layout self.now.list.now).slot position + 1 < length self.now.list.now }
        ensures { key (layout self.now.list.now) position ≡ Some result }
    {
        self.cost_of(self.slot_at(position))
    }

    // Whether a cost is below that of the hole's parent.
    fn is_below_parent<T: Tariff<Cost = C>>(&self, hole: usize, cost: C) -> bool
        requires hole { hole < length self.now.list.now }
        requires parent { 2 ≤ hole → (layout self.now.list.now).slot (hole / 2) + 1 < length self.now.list.now }
        ensures { result ≡ below_parent T.Tariff.rates (layout self.now.list.now) hole cost }
    {
        hole > 1 && T::less(cost, self.key_at(hole / 2))
    }

    // Sifts a place up from a hole, to where its parent's cost is not greater. Each turn halves a position, so there is nothing
    // to go over.
    pub(super) fn sift_up<T: Tariff<Cost = C>>(&mut self, from: usize, place: u32, cost: C)
        requires { MayRise T.Tariff.rates self.old from place cost }
        ensures { Fills T.Tariff.rates self.old self.new from place }
    {
        let mut hole = from;
        while self.is_below_parent::<T>(hole, cost) {
            let parent = self.slot_at(hole / 2);
            link(self.list, hole, parent);
            hole /= 2;
        }
        link(self.list, hole, place);
    }

    // The child of a hole that has the smaller cost.
    fn least_child<T: Tariff<Cost = C>>(&self, hole: usize) -> usize
        requires vacant { HasHole self.now hole }
        requires left { hole * 2 ≤ self.now.count }
        ensures is { result ≡ least_child T.Tariff.rates (layout self.now.list.now) self.now.count hole }
        ensures inside { (hole < result) × (result ≤ self.now.count) }
    {
        let left = hole * 2;
        if left < self.count && T::less(self.key_at(left + 1), self.key_at(left)) {
            left + 1
        } else {
            left
        }
    }

    // The same child, if its cost is below a given one.
    fn lower_child<T: Tariff<Cost = C>>(&self, hole: usize, cost: C) -> Option<usize>
        requires { HasHole self.now hole }
        ensures { result ≡ lower_child T.Tariff.rates (layout self.now.list.now) self.now.count hole cost }
    {
        if hole > self.count / 2 {
            return None;
        }
        let child = self.least_child::<T>(hole);
        T::less(self.key_at(child), cost).then_some(child)
    }

    // Sifts a place down from a hole at the first position, to where no child's cost is less. Each turn goes to a child, so
    // there is nothing to go over.
    pub(super) fn sift_down<T: Tariff<Cost = C>>(&mut self, place: u32, cost: C)
        requires { MaySink T.Tariff.rates self.old 1 place cost }
        ensures { Fills T.Tariff.rates self.old self.new 1 place }
    {
        let mut hole = 1;
        while let Some(child) = self.lower_child::<T>(hole, cost) {
            let other = self.slot_at(child);
            link(self.list, hole, other);
            hole = child;
        }
        link(self.list, hole, place);
    }
}
