// The layer: what is open above is open below and lies in no rectangle that is held.
ghost use Rattle.std.specs.Prelude.{◌≡◌, List, refl};
ghost use Rattle.model.specs.Sheets.{answered};
ghost use Rattle.model.proofs.NarrowLaws.{tested, test_narrows};
ghost use Rattle.keep_out.specs.declared.row.Row.{Row as RowMeaning};
ghost use Rattle.keep_out.specs.KeptOut.{held_rows, is_apart, OpenApart, add_answer, after_push};
ghost use Rattle.keep_out.specs.ApartLaws.{apart_exact};

use super::rectangle::Rectangle;
use super::row::Row;
use super::table::Table;
use grid::SheetFault;
use layer::{Layer, Narrowing};
use sheet::Ground;

// The layer over a sheet that it borrows, with the table of its rectangles.
pub type KeepOut<'a, S> = Layer<'a, S, Table>;

impl Narrowing for Table {
    ghost opened = { λ s. tested (is_apart (held_rows s)) };

    ghost Opens = { λ s. OpenApart (held_rows s) };

    ghost narrows = { λ s. test_narrows (is_apart (held_rows s)) };

    ghost exact = { λ s g sound p n. apart_exact (held_rows s) g p n _ refl };

    // Whether the place is open below and lies in no rectangle that is held.
    fn is_open<G: Ground>(&self, below: &G, place: u32, net: u16) -> bool {
        below.is_open(place, net)
            && below
                .shape()
                .coordinates(place)
                .is_some_and(|at| !self.has(at))
    }
}

// A layer to which rectangles can be added. A trait, since KeepOut names a type of another crate, to which no method can be
// added.
pub trait AddRectangle {
    // The rows that are held.
    ghost rows: { Self → List RowMeaning };

    // Holds one more rectangle. Asks whether its numbers are within their limits (1) and fewer than 64 are held (2).
    fn add(&mut self, row: Row) -> Result<(), SheetFault>
        ensures answer { answered result ≡ add_answer (rows self.old) row }
        ensures after { rows self.new ≡ after_push (rows self.old) row result };
}

// An impl that promises more than the interface says the interface's clauses again.
impl<'a, S> AddRectangle for KeepOut<'a, S> {
    ghost rows = { λ s. held_rows s.narrowing };

    fn add(&mut self, row: Row) -> Result<(), SheetFault>
        ensures answer { answered result ≡ add_answer (held_rows self.old.narrowing) row }
        ensures after { held_rows self.new.narrowing ≡ after_push (held_rows self.old.narrowing) row result }
        ensures below { self.new.below.now ≡ self.old.below.now }
        ensures lent { self.new.below.ghost_name ≡ self.old.below.ghost_name }
    {
        let _ = Rectangle::try_from(row)?;
        self.narrowing.push(row)
    }
}
