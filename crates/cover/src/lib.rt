// Laying a whole path for one net, on any sheet. Path and net are two parameters: a struct of the two would be taken apart
// again in each function.
#![tactic(auto)]

ghost use Rattle.std.specs.Prelude.{◌≡◌, Ok};
ghost use Rattle.model.specs.Paths.{cover_answer, Coverable, CoverIsExact, Covered, Covers};
ghost use Rattle.model.specs.Sheets.{answered, bare_at};

use grid::SheetFault;
use sheet::{Ground, Sheet, check_net, check_open, check_place, is_bare};

// How many bare places there are to cover at one place: 1 or none.
fn bare_at<S: Sheet>(sheet: &S, place: u32) -> u32
    ensures { result ≡ bare_at (S.board sheet.now) place }
{
    u32::from(is_bare(sheet, place))
}

// Whether all places of a path can be laid for a net. Asks whether the net is one (4), then of each place in the order of
// the path whether it is in the shape (3) and open to the net (5), and last whether the spare covers the bare ones (6).
fn ask<S: Sheet>(sheet: &S, path: &[u32], net: u16) -> Result<(), SheetFault>
    ensures { answered result ≡ cover_answer (S.board sheet.now) path.now net }
{
    check_net(net)?;
    let shape = sheet.shape();
    let mut bare = 0u32;
    for place in path {
        check_place(shape, *place)?;
        check_open(sheet, *place, net)?;
        bare = bare.saturating_add(bare_at(sheet, *place));
    }
    if !sheet.spares(bare) {
        return Err(SheetFault::NoSpare(bare));
    }
    Ok(())
}

// Lays each place of a path that can be laid: no place is refused.
fn lay_each<S: Sheet>(sheet: &mut S, path: &[u32], net: u16) -> Result<(), SheetFault>
    requires { Coverable (S.board sheet.old) path.now net }
    ensures answer { answered result ≡ Ok tt }
    ensures after { Covered (S.board sheet.old) (S.board sheet.new) path.now net }
    ensures kept { S.held sheet.new ≡ S.held sheet.old }
{
    for place in path {
        sheet.lay(*place, net)?;
    }
    Ok(())
}

// Lays all places of a path for a net, or changes nothing. Asks whether the net is one (4), then of each place in the order
// of the path whether it is in the shape (3) and open to the net (5), and last whether the spare covers the bare ones (6),
// of which a place that stands in the path several times counts each time.
pub fn cover<S: Sheet>(sheet: &mut S, path: &[u32], net: u16) -> Result<(), SheetFault>
    ensures answer { answered result ≡ cover_answer (S.board sheet.old) path.now net }
    ensures exact { CoverIsExact (S.board sheet.old) path.now net }
    ensures after { Covers (S.board sheet.old) (S.board sheet.new) path.now net result }
    ensures kept { S.held sheet.new ≡ S.held sheet.old }
{
    ask(sheet, path, net)?;
    lay_each(sheet, path, net)
}
