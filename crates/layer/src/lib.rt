// Layers over sheets: what is open above is open below, and what is narrower is the layer's to say.
#![tactic(auto)]

ghost use Rattle.std.specs.Prelude.{◌≡◌, ℕ, Bool, true, ◌↔◌};
ghost use Rattle.std.proofs.Common.{ap};
ghost use Rattle.model.specs.Sheets.{Ground as GroundMeaning, Sound};
ghost use Rattle.model.specs.Layers.{Narrows, narrowed, narrowed_sheet, lent_through};
ghost use Rattle.model.proofs.NarrowLaws.{narrow_sound, narrow_tied};

use grid::{Shape, SheetFault};
use sheet::{Ground, Sheet, check_net, check_open, check_place};

// What a layer opens of the ground below.
pub trait Narrowing {
    // Which places are open above to which nets, by the ground below.
    ghost opened: { Self → GroundMeaning → ℕ → ℕ → Bool };

    // When a place is open above to a net, by the ground below.
    ghost Opens: { Self → GroundMeaning → ℕ → ℕ → Type 0 };

    // What is open above is open below, and stays open above where nothing closes below.
    ghost narrows: { (s : Self) → Narrows (opened s) };

    // Whether the place is open above to the net.
    fn is_open<G: Ground>(&self, below: &G, place: u32, net: u16) -> bool
        ensures { result ≡ opened self.now (G.meaning below.now) place net };

    // The two say the same.
    ghost exact: { (s : Self) (g : GroundMeaning) → Sound g → (p n : ℕ) → (opened s g p n ≡ true) ↔ Opens s g p n };
}

// A layer over a sheet that it borrows. Held by value, a sheet with a lent list would be a type argument that holds a
// `&mut` and a struct with a ghost field, and the borrow checker does not cover a function that puts a layer over one.
#[derive(Drop)]
pub struct Layer<'a, S, N> {
    below: &'a mut S,
    pub narrowing: N,
}

impl<'a, S, N: Narrowing + Default> Layer<'a, S, N> {
    // Puts a layer over a sheet.
    pub fn new(below: &'a mut S) -> Layer<'a, S, N>
        ensures start { N.is_default result.narrowing }
        ensures is { result.below.now ≡ below.old }
        ensures lent { result.below.ghost_name ≡ below.entry.ghost_name }
    {
        Layer {
            below,
            narrowing: N::default(),
        }
    }
}

// An impl that promises more than the interface says the interface's clauses again.
impl<'a, S: Ground, N: Narrowing> Ground for Layer<'a, S, N> {
    ghost meaning = { λ s. narrowed (N.opened s.narrowing) (S.meaning s.below.now) };

    ghost sound = { λ s. narrow_sound (N.opened s.narrowing) (N.narrows s.narrowing) (S.meaning s.below.now) (S.sound s.below.now) };

    fn shape(&self) -> Shape {
        self.below.shape()
    }

    fn is_open(&self, place: u32, net: u16) -> bool
        ensures is { result ≡ N.opened self.now.narrowing (S.meaning self.now.below.now) place net }
        ensures exact { (result ≡ true) ↔ N.Opens self.now.narrowing (S.meaning self.now.below.now) place net }
    {
        self.narrowing.is_open(self.below, place, net)
    }
}

impl<'a, S: Sheet, N: Narrowing> Sheet for Layer<'a, S, N> {
    ghost board = { λ s. narrowed_sheet (N.opened s.narrowing) (S.board s.below.now) };

    ghost held = { λ s. lent_through s.below.ghost_name (S.held s.below.now) };

    ghost grounded = { λ s. ap (narrowed (N.opened s.narrowing)) (S.grounded s.below.now) };

    ghost tied = { λ s small. narrow_tied (N.opened s.narrowing) (N.narrows s.narrowing) (S.board s.below.now) (S.tied s.below.now small) };

    // This and `spares`, `lift`, `bar` and `wipe` pass on one call each.
    fn copper(&self, place: u32) -> Option<u16> {
        self.below.copper(place)
    }

    fn spares(&self, needed: u32) -> bool {
        self.below.spares(needed)
    }

    // The place is asked whether it is open here before the sheet below is asked.
    fn lay(&mut self, place: u32, net: u16) -> Result<(), SheetFault> {
        check_place(self.below.shape(), place)?;
        check_net(net)?;
        check_open(self, place, net)?;
        self.below.lay(place, net)
    }

    fn lift(&mut self, place: u32) -> Result<(), SheetFault> {
        self.below.lift(place)
    }

    fn bar(&mut self, place: u32) -> Result<(), SheetFault> {
        self.below.bar(place)
    }

    fn wipe(&mut self) {
        self.below.wipe();
    }
}
