// A place together with its coordinates.
ghost use Rattle.std.specs.Prelude.{◌≡◌, ◌<◌};
ghost use Rattle.grid.specs.Places.{number_of};

use super::shape::{Coordinates, Shape};

// A place of a shape with its coordinates, which are taken once: its ten neighbours then cost no division.
#[derive(Clone, Copy, PartialEq, Eq, Debug)]
pub struct Site {
    pub shape: Shape,
    pub place: u32,
    pub at: Coordinates,
    ghost numbered: { place ≡ number_of shape at },
    ghost inside: { (at.column < shape.columns) × (at.row < shape.rows) × (at.layer < shape.layers) },
}
