// Reads and writes of the heap's list. That a place or a position has a record stands in each contract: a place is any number of
// 32 bits, and the lent list alone says which have records; a struct that held it beside the list would be made for each read.
// Where places come to wait it is `place < room ..`: `room` also keeps within the
// numbers of 32 bits, which the order needs.
ghost use Rattle.std.specs.Prelude.{◌≡◌, ◌+◌, ◌-◌, ◌<◌, ◌≤◌, length, Some};
ghost use Rattle.sift.specs.Layouts.{layout, filled, priced, key};

use super::Heap;
use front::Taken;
use sift::HeapRecord;

impl<'a, C: Copy> Heap<'a, C> {
    // The place at a position.
    pub(super) fn slot_at(&self, position: usize) -> u32
        requires { position < length self.now.list.now }
        ensures { (layout self.now.list.now).slot position ≡ result }
    {
        self.list[position].slot
    }

    // The position that a place names.
    pub(super) fn position_of(&self, place: u32) -> usize
        requires { place + 1 < length self.now.list.now }
        ensures { (layout self.now.list.now).at place ≡ result }
    {
        self.list[place as usize + 1].at as usize + 1
    }

    // The cost of a place.
    pub(super) fn cost_of(&self, place: u32) -> C
        requires { place + 1 < length self.now.list.now }
        ensures { (layout self.now.list.now).cost place ≡ Some result }
    {
        self.list[place as usize + 1].cost
    }

    // The place at a position, and its cost.
    pub(super) fn at(&self, position: usize) -> Taken<C>
        requires position { position < length self.now.list.now }
        requires place { (layout self.now.list.now).slot position + 1 < length self.now.list.now }
        ensures place { (layout self.now.list.now).slot position ≡ result.place }
        ensures cost { key (layout self.now.list.now) position ≡ Some result.cost }
    {
        let place = self.slot_at(position);
        Taken {
            place,
            cost: self.cost_of(place),
        }
    }
}

// Gives a place a cost. The ring has the same for its records: each writes one field. The writes are functions of the list, so that a caller knows that the other fields stay.
pub fn set_cost<C: Copy>(list: &mut [HeapRecord<C>], place: u32, cost: C)
    requires { place + 1 < length list.old }
    ensures { layout list.new ≡ priced (layout list.old) place cost }
{
    list[place as usize + 1].cost = cost;
}

// Puts a place at a position. The ring has the same for its records: one function for both would need a trait with a read and
// a write of each field, and be no plainer.
pub fn link<C: Copy>(list: &mut [HeapRecord<C>], position: usize, place: u32)
    requires first { 1 ≤ position }
    requires small { position ≤ 4294967296 }
    requires position { position < length list.old }
    requires place { place + 1 < length list.old }
    ensures { layout list.new ≡ filled (layout list.old) position place }
{
    list[position].slot = place;
    list[place as usize + 1].at = (position - 1) as u32;
}
