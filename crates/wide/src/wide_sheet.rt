// A sheet over a lent list with one 16-bit number a place.
ghost use Rattle.std.specs.Prelude.{◌≡◌, ℕ, ◌≤◌, List, filter, length, take, is_ok, ◌==◌, nat_le, slice_index, refl};
ghost use Rattle.model.proofs.WideLaws.{wide_sound, wide_tied};
ghost use Rattle.model.specs.Entries.{served};
ghost use Rattle.model.specs.Sheets.{answered, lay_answer, lift_answer, bar_answer, Laid, Lifted, Barred, Wiped};
ghost use Rattle.model.specs.Wide.{wide_ground, wide_metal, wide_sheet, wide_held, written, zeroed, Made, Told};

use super::entries::entries_served;
use grid::{Shape, SheetFault};
use sheet::{BARE, BARRED, Ground, Sheet, check_net, check_open, check_place, is_net};

// A sheet over a lent list of 16-bit numbers, one a place: 0 bare, 1 to 65,534 a net, 65,535 barred. Its limit is the
// number of places. A place is open to a net if it is bare or carries it. On a list that has fewer entries than there are
// places, every place is bare, nothing is open, and the limit is 0.
#[derive(Drop)]
pub struct WideSheet<'a> {
    shape: Shape,
    cells: &'a mut [u16],
}

// Sets so many entries to 0.
fn zero(cells: &mut [u16], count: usize)
    requires { count ≤ length cells.old }
    ensures { cells.new ≡ zeroed count cells.old }
{
    cells[..count].fill(BARE);
}

// The entry at an index, 0 past the end. No entry passes 65,535.
fn entry(cells: &[u16], at: usize) -> u16
    ensures is { result ≡ slice_index cells.now at }
    ensures small { (p : ℕ) → slice_index cells.now p ≤ 65535 }
{
    cells.get(at).copied().unwrap_or(BARE)
}

// Whether so many entries are 0. A chain of `filter`, `take` and `count` was tried: it takes 1.7 times as long.
fn has_bare(cells: &[u16], needed: u32) -> bool
    ensures { result ≡ nat_le needed (length (filter (λ x. x == 0) cells.now)) }
{
    let mut missing = needed;
    for here in cells {
        if missing == 0 {
            return true;
        }
        if *here == BARE {
            missing -= 1;
        }
    }
    missing == 0
}

impl<'a> WideSheet<'a> {
    // The sheet, wiped. Entries past the last place stay as they stood. If the list has fewer entries than there are places,
    // those there are become 0.
    pub fn new(shape: Shape, cells: &'a mut [u16]) -> WideSheet<'a>
        ensures shaped { result.shape ≡ shape }
        ensures made { Made shape cells.old result.cells.now }
        ensures bare { (p : ℕ) → (wide_metal result.shape result.cells.now).copper p ≡ 0 }
        ensures named { result.cells.ghost_name ≡ cells.entry.ghost_name }
        ensures told { (xs : List ℕ) → Told shape xs }
    {
        let count = (shape.places() as usize).min(cells.len());
        zero(cells, count);
        WideSheet { shape, cells }
    }

    // The entries of the places, none on a list that is too short.
    fn entries(&self) -> &[u16]
        ensures { result.now ≡ take (served self.now.shape self.now.cells.now) self.now.cells.now }
    {
        entries_served(self.shape, self.cells)
    }
}

impl<'a> Ground for WideSheet<'a> {
    ghost meaning = { λ s. wide_ground s.shape s.cells.now };

    ghost sound = { λ s. wide_sound s.shape s.cells.now };

    fn shape(&self) -> Shape {
        self.shape
    }

    fn is_open(&self, place: u32, net: u16) -> bool {
        is_net(net)
            && self
                .entries()
                .get(place as usize)
                .is_some_and(|here| *here == BARE || *here == net)
    }
}

// An impl that promises more than the interface says the interface's clauses again.
impl<'a> Sheet for WideSheet<'a> {
    ghost board = { λ s. wide_sheet s.shape s.cells.now };

    ghost held = { λ s. wide_held s.shape s.cells.ghost_name s.cells.now };

    ghost grounded = { λ s. refl };

    ghost tied = { λ s. wide_tied s.shape s.cells.now };

    fn copper(&self, place: u32) -> Option<u16> {
        let here = entry(self.entries(), place as usize);
        (place < self.shape.places()).then_some(here)
    }

    fn spares(&self, needed: u32) -> bool {
        has_bare(self.entries(), needed)
    }

    fn lay(&mut self, place: u32, net: u16) -> Result<(), SheetFault>
        ensures answer { answered result ≡ lay_answer (⟦<WideSheet<'a> as Sheet>⟧.board self.old) place net }
        ensures after { Laid (⟦<WideSheet<'a> as Sheet>⟧.board self.old) (⟦<WideSheet<'a> as Sheet>⟧.board self.new) place net result }
        ensures kept { ⟦<WideSheet<'a> as Sheet>⟧.held self.new ≡ ⟦<WideSheet<'a> as Sheet>⟧.held self.old }
        ensures list { self.new.cells.now ≡ written (is_ok result) self.old.cells.now place net }
    {
        check_place(self.shape, place)?;
        check_net(net)?;
        check_open(self, place, net)?;
        self.cells[place as usize] = net;
        Ok(())
    }

    fn lift(&mut self, place: u32) -> Result<(), SheetFault>
        ensures answer { answered result ≡ lift_answer (⟦<WideSheet<'a> as Sheet>⟧.board self.old) place }
        ensures after { Lifted (⟦<WideSheet<'a> as Sheet>⟧.board self.old) (⟦<WideSheet<'a> as Sheet>⟧.board self.new) place result }
        ensures kept { ⟦<WideSheet<'a> as Sheet>⟧.held self.new ≡ ⟦<WideSheet<'a> as Sheet>⟧.held self.old }
        ensures list { self.new.cells.now ≡ written (is_ok result) self.old.cells.now place 0 }
    {
        let here = self.copper(place).ok_or(SheetFault::OutsideShape(place))?;
        if !is_net(here) {
            return Err(SheetFault::CarriesNone(place));
        }
        self.cells[place as usize] = BARE;
        Ok(())
    }

    fn bar(&mut self, place: u32) -> Result<(), SheetFault>
        ensures answer { answered result ≡ bar_answer (⟦<WideSheet<'a> as Sheet>⟧.board self.old) place }
        ensures after { Barred (⟦<WideSheet<'a> as Sheet>⟧.board self.old) (⟦<WideSheet<'a> as Sheet>⟧.board self.new) place result }
        ensures kept { ⟦<WideSheet<'a> as Sheet>⟧.held self.new ≡ ⟦<WideSheet<'a> as Sheet>⟧.held self.old }
        ensures list { self.new.cells.now ≡ written (is_ok result) self.old.cells.now place 65535 }
    {
        let here = self.copper(place).ok_or(SheetFault::OutsideShape(place))?;
        if here != BARE {
            return Err(SheetFault::NotBare(place));
        }
        // On a list that is too short, no place has an entry.
        if place as usize >= self.entries().len() {
            return Err(SheetFault::NoSpare(1));
        }
        self.cells[place as usize] = BARRED;
        Ok(())
    }

    fn wipe(&mut self)
        ensures after { Wiped (⟦<WideSheet<'a> as Sheet>⟧.board self.old) (⟦<WideSheet<'a> as Sheet>⟧.board self.new) }
        ensures kept { ⟦<WideSheet<'a> as Sheet>⟧.held self.new ≡ ⟦<WideSheet<'a> as Sheet>⟧.held self.old }
        ensures list { self.new.cells.now ≡ zeroed (served self.old.shape self.old.cells.now) self.old.cells.now }
    {
        let count = self.entries().len();
        zero(self.cells, count);
    }
}
