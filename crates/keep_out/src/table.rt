// The table in which a layer holds its rectangles.
ghost use Rattle.std.specs.Prelude.{◌≡◌, []};
ghost use Rattle.model.specs.Sheets.{answered};
ghost use Rattle.keep_out.specs.KeptOut.{held_rows, kept_out, push_answer, after_push};

use super::row::Row;
use grid::{Coordinates, SheetFault};

// The first `count` rows are held. The table is a plain struct of 64 plain rows, as it is laid down; a rectangle is made
// from a row after a check.
#[derive(Clone, Copy)]
pub struct Table {
    rows: [Row; 64],
    count: usize,
}

// A table that holds no row.
impl Default for Table {
    ghost is_default = { λ table. held_rows table ≡ [] };

    fn default() -> Table {
        Table {
            rows: [Row::default(); 64],
            count: 0,
        }
    }
}

impl Table {
    // The rows that are held, as a part of the list. By `iter().take(..)` a question of 64 rectangles takes 1.7 times as long.
    fn held(&self) -> &[Row]
        ensures { result.now ≡ held_rows self.now }
    {
        self.rows.get(..self.count).unwrap_or(&self.rows)
    }

    // Whether the coordinates lie in a rectangle that is held.
    pub(super) fn has(&self, at: Coordinates) -> bool
        ensures { result ≡ kept_out (held_rows self.now) at }
    {
        self.held().iter().any(|row| row.has(at))
    }

    // Holds one more row. Asks whether fewer than 64 are held (2).
    pub(super) fn push(&mut self, row: Row) -> Result<(), SheetFault>
        ensures answer { answered result ≡ push_answer (held_rows self.old) }
        ensures after { held_rows self.new ≡ after_push (held_rows self.old) row result }
    {
        if self.count >= self.rows.len() {
            return Err(SheetFault::ShortList(65));
        }
        self.rows[self.count] = row;
        self.count += 1;
        Ok(())
    }
}
