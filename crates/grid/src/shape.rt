// The shape of a board, and the coordinates of its places.
ghost use Rattle.std.specs.Prelude.{◌≤◌};

// How many columns, rows and layers a board has. All three are counted from 0. No shape is past the bounds that the type
// keeps, so no board has more than 2,097,152 places.
#[derive(Clone, Copy, PartialEq, Eq, Debug)]
pub struct Shape {
    pub columns: u32,
    pub rows: u32,
    pub layers: u32,
    ghost wide: { (1 ≤ columns) × (columns ≤ 512) },
    ghost tall: { (1 ≤ rows) × (rows ≤ 512) },
    ghost deep: { (1 ≤ layers) × (layers ≤ 8) },
}

// Where a place lies. Any numbers may stand here; whether they are those of a place depends on the shape.
#[derive(Clone, Copy, PartialEq, Eq, Debug)]
pub struct Coordinates {
    pub column: u32,
    pub row: u32,
    pub layer: u32,
}
