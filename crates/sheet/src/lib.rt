// What can be asked of a board, and laid on it.
#![tactic(auto)]

ghost use Rattle.std.specs.Prelude.{◌≡◌, nat_le};
ghost use Rattle.model.specs.Sheets.{Ground as GroundMeaning, Sheet as Board, Sound, Small, Tied, Held, spare, answered, copper_answer, lay_answer, lift_answer, bar_answer, Laid, Lifted, Barred, Wiped};

use grid::{Shape, SheetFault};

pub mod questions;

pub use questions::{
    BARE, BARRED, check_entries, check_net, check_open, check_place, is_bare, is_net,
};

// A ground has a shape and says of each place and net whether the place is open to the net. Nets are 1 to 65,534.
// Asking changes nothing.
pub trait Ground {
    // The shape, and which places are open to which nets.
    ghost meaning: { Self → GroundMeaning };

    // No place outside the shape is open, and none to a number that is no net's.
    ghost sound: { (s : Self) → Sound (meaning s) };

    fn shape(&self) -> Shape
        ensures { result ≡ (meaning self.now).shape };

    // Whether the place is open to the net.
    fn is_open(&self, place: u32, net: u16) -> bool
        ensures { result ≡ (meaning self.now).opened place net };
}

// A sheet is a ground on which copper can be laid.
pub trait Sheet: Ground {
    // The ground, the copper of each place, 0 bare, 1 to 65,534 a net, 65,535 barred, and the limit on places that are not
    // bare.
    ghost board: { Self → Board };

    // The loans, and what of the caller's list the copper does not tell.
    ghost held: { Self → Held };

    // The copper of a place; absent outside the shape.
    fn copper(&self, place: u32) -> Option<u16>
        ensures is { result ≡ copper_answer (board self.now) place }
        ensures tied { Tied (board self.now) };

    // Whether the spare, the limit less the places that are not bare, covers so many places.
    fn spares(&self, needed: u32) -> bool
        ensures { result ≡ nat_le needed (spare (board self.now)) };

    // Gives a place to a net. Asks whether the place is in the shape (3), the net is one (4), the place is open to it (5),
    // and the spare covers the place if it is bare (6).
    fn lay(&mut self, place: u32, net: u16) -> Result<(), SheetFault>
        ensures answer { answered result ≡ lay_answer (board self.old) place net }
        ensures after { Laid (board self.old) (board self.new) place net result }
        ensures kept { held self.new ≡ held self.old };

    // Makes a place of a net bare. Asks whether the place is in the shape (3) and carries a net (8).
    fn lift(&mut self, place: u32) -> Result<(), SheetFault>
        ensures answer { answered result ≡ lift_answer (board self.old) place }
        ensures after { Lifted (board self.old) (board self.new) place result }
        ensures kept { held self.new ≡ held self.old };

    // Bars a bare place. Asks whether the place is in the shape (3), is bare (7), and the spare covers it (6).
    fn bar(&mut self, place: u32) -> Result<(), SheetFault>
        ensures answer { answered result ≡ bar_answer (board self.old) place }
        ensures after { Barred (board self.old) (board self.new) place result }
        ensures kept { held self.new ≡ held self.old };

    // Makes every place bare.
    fn wipe(&mut self)
        ensures after { Wiped (board self.old) (board self.new) }
        ensures kept { held self.new ≡ held self.old };

    // The board's ground is the sheet's.
    ghost grounded: { (s : Self) → (board s).area ≡ Self.meaning s };

    // What every sheet keeps. That copper is at most 65,535 is known of the code's numbers of 16 bits alone.
    ghost tied: { (s : Self) → Small (board s) → Tied (board s) };
}
