// What a heap's list holds.

// Record i names the place at the position i, counted from 1. Record p + 1 has the cost of the place p, and one less than its
// position. Record 0 is the heap's own. The list is lent: a search has no memory of its own, so positions and places are numbers.
#[derive(Clone, Copy, PartialEq, Eq, Debug)]
pub struct HeapRecord<C: Copy> {
    pub cost: C,
    pub slot: u32,
    pub at: u32,
}
