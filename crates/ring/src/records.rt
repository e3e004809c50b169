// What a ring does to its records. That a place has one stands in each contract: a place is any number of 32 bits, and the lent
// list alone says which have records; a struct that held it beside the list would be made for each read.
ghost use Rattle.std.specs.Prelude.{◌≡◌, ℕ, ◌+◌, ◌<◌, ◌≤◌, false, length, Some};
ghost use Rattle.rows.specs.Waiting.{layout, vouched};
ghost use Rattle.front.specs.Places.{room};
ghost use Rattle.rows.specs.Rows.{Vouches, Entered};
ghost use Rattle.rows.specs.Links.{edit, seated, new_cost, new_next, new_back, linked, follower, spliced, is_head, unlinked, new_head};

use rows::RingRecord;

// Whether the position that a place names is in use, and names it. As the heap's `is_waiting`: one function for both would
// need a trait that reads each field of a record.
pub fn in_use<C: Copy>(list: &[RingRecord<C>], touched: usize, place: u32) -> bool
    requires few { touched ≤ room (length list.now) }
    requires inside { place + 1 < length list.now }
    ensures { result ≡ vouched (layout list.now) touched place }
{
    let at = list[place as usize + 1].at as usize;
    at < touched && list[at + 1].slot == place
}

// Gives a place a cost, or none. This function and the next two write one field each. One function for all would take a
// closure, and each call would be longer than the write. The writes are functions of the list, so that a caller knows that the
// other fields stay.
pub fn set_cost<C: Copy>(list: &mut [RingRecord<C>], place: u32, cost: Option<C>)
    requires { place + 1 < length list.old }
    ensures { layout list.new ≡ edit (layout list.old) place (new_cost cost) }
{
    list[place as usize + 1].cost = cost;
}

// Writes the place after another.
fn set_next<C: Copy>(list: &mut [RingRecord<C>], place: u32, next: u32)
    requires { place + 1 < length list.old }
    ensures { layout list.new ≡ edit (layout list.old) place (new_next next) }
{
    list[place as usize + 1].next = next;
}

// Writes the place before another.
fn set_back<C: Copy>(list: &mut [RingRecord<C>], place: u32, back: u32)
    requires { place + 1 < length list.old }
    ensures { layout list.new ≡ edit (layout list.old) place (new_back back) }
{
    list[place as usize + 1].back = back;
}

// Lets a position and a place name each other. The heap has the same for its records: one function for both would need a trait
// with a read and a write of each field, and be no plainer.
fn seat<C: Copy>(list: &mut [RingRecord<C>], position: usize, place: u32)
    requires place { place + 1 < length list.old }
    requires position { position < room (length list.old) }
    ensures { layout list.new ≡ seated (layout list.old) position place }
{
    list[position + 1].slot = place;
    list[place as usize + 1].at = position as u32;
}

// Lets a place wait at a cost, and gives it a position where it has none; answers how many positions are then in use.
pub fn enter<C: Copy>(list: &mut [RingRecord<C>], touched: usize, place: u32, cost: C) -> usize
    requires vouches { Vouches (layout list.old) (room (length list.old)) touched }
    requires inside { place + 1 < length list.old }
    ensures { Entered (layout list.old) (room (length list.old)) touched place cost (layout list.new) result }
{
    let known = in_use(list, touched, place);
    set_cost(list, place, Some(cost));
    if known {
        return touched;
    }
    seat(list, touched, place);
    touched + 1
}

// Puts a place before the head of a row.
pub fn link<C: Copy>(list: &mut [RingRecord<C>], head: Option<u32>, place: u32)
    requires place { place + 1 < length list.old }
    requires head { (p : ℕ) → head ≡ Some p → p + 1 < length list.old }
    ensures { layout list.new ≡ linked (layout list.old) head place }
{
    let next = head.unwrap_or(place);
    set_next(list, place, next);
    set_back(list, next, place);
}

// The place after another in its row; none, where it is the last.
fn next_place<C: Copy>(list: &[RingRecord<C>], place: u32) -> Option<u32>
    requires { place + 1 < length list.now }
    ensures { result ≡ follower (layout list.now) place }
{
    let next = list[place as usize + 1].next;
    (next != place).then_some(next)
}

// Joins the neighbours of a place that is not the head of its row.
fn splice<C: Copy>(list: &mut [RingRecord<C>], place: u32)
    requires place { place + 1 < length list.old }
    requires next { (layout list.old place).next + 1 < length list.old }
    requires back { (layout list.old place).back + 1 < length list.old }
    ensures { layout list.new ≡ spliced (layout list.old) place }
{
    let next = list[place as usize + 1].next;
    let back = list[place as usize + 1].back;
    let after = next_place(list, place).unwrap_or(back);
    set_next(list, back, after);
    set_back(list, next, back);
}

// Takes a place out of its row, and answers the row's new head.
pub fn unlink<C: Copy>(list: &mut [RingRecord<C>], head: Option<u32>, place: u32) -> Option<u32>
    requires place { place + 1 < length list.old }
    requires next { (layout list.old place).next + 1 < length list.old }
    requires back { is_head head place ≡ false → (layout list.old place).back + 1 < length list.old }
    ensures head { result ≡ new_head (layout list.old) head place }
    ensures records { layout list.new ≡ unlinked (layout list.old) head place }
{
    if head == Some(place) {
        return next_place(list, place);
    }
    splice(list, place);
    head
}
