// Layers piled on any sheet: one layer to a function, each handed on to code for all sheets. Both layers in one function
// were tried: the borrow checker covers it, but five goals then need answers, which the contracts of the functions for one
// layer give at once. Each of the four functions is one pile: their clauses of copper and loans are the same, and the
// answer is that of the pile's own board. Row, path and net are parameters: a struct of them would be taken apart at once.
#![tactic(auto)]

ghost use Rattle.std.specs.Prelude.{◌≡◌, [], ◌∷◌};
ghost use Rattle.grid.specs.Faults.{refusal};
ghost use Rattle.model.specs.Sheets.{answered, ask};
ghost use Rattle.model.specs.Paths.{cover_answer};
ghost use Rattle.keep_out.specs.Rectangles.{is_rectangle};
ghost use Rattle.piles.specs.Piled.{cleared, apart, CopperCovered};

use clearance::Clearance;
use cover::cover;
use grid::SheetFault;
use keep_out::{AddRectangle, KeepOut, Row};
use sheet::Sheet;

// Lays a path with clearance, or changes nothing.
pub fn cover_clear<S: Sheet>(below: &mut S, path: &[u32], net: u16) -> Result<(), SheetFault>
    ensures answer { answered result ≡ cover_answer (cleared (S.board below.old)) path.now net }
    ensures copper { CopperCovered (S.board below.old).metal (S.board below.new).metal path.now net result }
    ensures kept { S.held below.new ≡ S.held below.old }
{
    let mut clear = Clearance::new(below);
    cover(&mut clear, path, net)
}

// Lays a path outside of a rectangle, or changes nothing.
pub fn cover_apart<S: Sheet>(
    below: &mut S,
    row: Row,
    path: &[u32],
    net: u16,
) -> Result<(), SheetFault>
    ensures answer { answered result ≡ ask (is_rectangle row) (refusal 1 0) (cover_answer (apart (row ∷ []) (S.board below.old)) path.now net) }
    ensures copper { CopperCovered (S.board below.old).metal (S.board below.new).metal path.now net result }
    ensures kept { S.held below.new ≡ S.held below.old }
{
    let mut apart = KeepOut::new(below);
    apart.add(row)?;
    cover(&mut apart, path, net)
}

// Keep-out over clearance over any sheet.
pub fn cover_apart_over_clear<S: Sheet>(
    below: &mut S,
    row: Row,
    path: &[u32],
    net: u16,
) -> Result<(), SheetFault>
    ensures answer { answered result ≡ ask (is_rectangle row) (refusal 1 0) (cover_answer (apart (row ∷ []) (cleared (S.board below.old))) path.now net) }
    ensures copper { CopperCovered (S.board below.old).metal (S.board below.new).metal path.now net result }
    ensures kept { S.held below.new ≡ S.held below.old }
{
    let mut layer = Clearance::new(below);
    cover_apart(&mut layer, row, path, net)
}

// Clearance over keep-out over any sheet.
pub fn cover_clear_over_apart<S: Sheet>(
    below: &mut S,
    row: Row,
    path: &[u32],
    net: u16,
) -> Result<(), SheetFault>
    ensures answer { answered result ≡ ask (is_rectangle row) (refusal 1 0) (cover_answer (cleared (apart (row ∷ []) (S.board below.old))) path.now net) }
    ensures copper { CopperCovered (S.board below.old).metal (S.board below.new).metal path.now net result }
    ensures kept { S.held below.new ≡ S.held below.old }
{
    let mut layer = KeepOut::new(below);
    layer.add(row)?;
    cover_clear(&mut layer, path, net)
}
