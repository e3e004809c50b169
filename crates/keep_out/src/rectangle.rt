// Rectangles of places of one layer.
ghost use Rattle.std.specs.Prelude.{◌≤◌};

// The columns left to right in the rows top to bottom of a layer. A rectangle may lie partly or wholly beyond a board.
#[derive(Clone, Copy, PartialEq, Eq, Debug)]
pub struct Rectangle {
    pub layer: u32,
    pub left: u32,
    pub top: u32,
    pub right: u32,
    pub bottom: u32,
    ghost deep: { layer ≤ 7 },
    ghost across: { (left ≤ right) × (right ≤ 511) },
    ghost along: { (top ≤ bottom) × (bottom ≤ 511) },
}
