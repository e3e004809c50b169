// Rows of numbers, and the rectangles made from them.
ghost use Rattle.std.specs.Prelude.{◌≡◌, true, ◌↔◌};
ghost use Rattle.keep_out.specs.Rectangles.{row_of, told, rectangle_answer, is_within, has_in, LiesIn};

use super::rectangle::Rectangle;
use grid::{Coordinates, SheetFault};

// Five numbers that may be a rectangle's. The table holds plain rows, as it is laid down; a `Rectangle` is one whose bounds
// its type keeps.
#[derive(Clone, Copy, Default, PartialEq, Eq, Debug)]
pub struct Row {
    pub layer: u32,
    pub left: u32,
    pub top: u32,
    pub right: u32,
    pub bottom: u32,
}

// The rectangle with the numbers of a row, where they are within their limits.
impl TryFrom<Row> for Rectangle {
    type Error = SheetFault;

    ghost try_from_gives = { λ row answer. told answer ≡ rectangle_answer row };

    fn try_from(row: Row) -> Result<Rectangle, SheetFault> {
        let Row {
            layer,
            left,
            top,
            right,
            bottom,
        } = row;
        if layer > 7 || left > right || right > 511 || top > bottom || bottom > 511 {
            return Err(SheetFault::PastLimits);
        }
        Ok(Rectangle {
            layer,
            left,
            top,
            right,
            bottom,
        })
    }
}

impl Rectangle {
    // Whether the coordinates lie in the rectangle.
    pub fn contains(self, at: Coordinates) -> bool
        ensures is { result ≡ is_within (row_of self) at }
        ensures lies { (result ≡ true) ↔ LiesIn self at }
    {
        at.layer == self.layer
            && (self.left..=self.right).contains(&at.column)
            && (self.top..=self.bottom).contains(&at.row)
    }
}

impl Row {
    // Whether the row is a rectangle's and the coordinates lie in it.
    pub(super) fn has(self, at: Coordinates) -> bool
        ensures { result ≡ has_in self at }
    {
        Rectangle::try_from(self).is_ok_and(|rectangle| rectangle.contains(at))
    }
}
