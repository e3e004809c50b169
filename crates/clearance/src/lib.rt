// A layer that keeps clear: what is open above has only open places around it below.
#![tactic(auto)]

ghost use Rattle.std.specs.Prelude.{◌≡◌, ◌<◌, ◌≤◌, refl};
ghost use Rattle.grid.specs.Steps.{moved, beyond};
ghost use Rattle.model.specs.Clear.{is_clear, ClearAround};
ghost use Rattle.model.proofs.ClearLaws.{clear_opened, clear_narrows, clear_exact};
ghost use Rattle.clearance.specs.Offsets.{offset_move, offset_way};

use grid::{Coordinates, Site};
use layer::{Layer, Narrowing};
use sheet::Ground;

// A coordinate moved by an offset: 0 is one less, 1 the same and 2 one more. Absent past the edges of the board. Counted
// from 0, so that no signed number stands between the loops and the definition.
fn moved_by(at: u32, offset: u32, bound: u32) -> Option<u32>
    requires inside { at < bound }
    requires most { bound ≤ 512 }
    requires small { offset < 3 }
    ensures { result ≡ moved (offset_move offset) at bound }
{
    (at + offset).checked_sub(1).filter(|next| *next < bound)
}

// The place at the offsets of the row and the column; absent outside the board.
fn beside(site: Site, down: u32, across: u32) -> Option<u32>
    requires rows { down < 3 }
    requires columns { across < 3 }
    ensures { result ≡ beyond site.shape site.at (offset_way down across) }
{
    let Site { shape, at, .. } = site;
    let row = moved_by(at.row, down, shape.rows)?;
    let column = moved_by(at.column, across, shape.columns)?;
    shape.place(Coordinates {
        column,
        row,
        layer: at.layer,
    })
}

// Whether the place at the offsets is open to the net. One outside the board is skipped.
fn is_clear<G: Ground>(area: &G, site: Site, down: u32, across: u32, net: u16) -> bool
    requires rows { down < 3 }
    requires columns { across < 3 }
    ensures { result ≡ is_clear (G.meaning area.now) net (beyond site.shape site.at (offset_way down across)) }
{
    beside(site, down, across).is_none_or(|there| area.is_open(there, net))
}

// What keeps clear.
#[derive(Clone, Copy, Default)]
pub struct Clear;

// The layer over a sheet that it borrows.
pub type Clearance<'a, S> = Layer<'a, S, Clear>;

impl Narrowing for Clear {
    ghost opened = { λ _. clear_opened };

    ghost Opens = { λ _. ClearAround };

    ghost narrows = { λ _. clear_narrows };

    ghost exact = { λ _ g sound p n. clear_exact g p n sound _ refl };

    // Whether the place and its straight and diagonal neighbours are open below. At most nine questions are asked below,
    // none after the first place that is closed. Two nested loops left by a label, as this question is laid down: it ends at
    // the first place that is closed.
    fn is_open<G: Ground>(&self, below: &G, place: u32, net: u16) -> bool {
        let Some(site) = below.shape().site(place) else {
            return false;
        };
        let mut clear = true;
        'around: for down in 0..3 {
            for across in 0..3 {
                if !is_clear(below, site, down, across, net) {
                    clear = false;
                    break 'around;
                }
            }
        }
        clear
    }
}
