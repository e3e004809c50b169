// What a ring keeps in its lent list.
#![tactic(auto)]

// Of a place: its cost, its neighbours in its row, and the position it names; of a position: the place it names. The list is
// lent: a search has no memory of its own, so places and positions are numbers.
#[derive(Clone, Copy, PartialEq, Eq, Debug)]
pub struct RingRecord<C: Copy> {
    // The cost at which the place waits; none, where it waits no more.
    pub cost: Option<C>,
    // The next place of the row, or the place itself where it is the last: so the lent records are smaller, since an
    // `Option<u32>` takes 8 bytes where a `u32` takes 4.
    pub next: u32,
    // The place before it in the row, unless it is the first.
    pub back: u32,
    // The place at this position.
    pub slot: u32,
    // The position of this place.
    pub at: u32,
}
