// Making a shape, and the numbers of its places.
ghost use Rattle.std.specs.Prelude.{◌≡◌, ◌≤◌};
ghost use Rattle.grid.specs.Places.{count_of, is_inside, number_answer, coordinates_answer, OneToOne};
ghost use Rattle.grid.specs.Shapes.{told, shape_answer};

use super::fault::SheetFault;
use super::shape::{Coordinates, Shape};

impl Shape {
    // The shape with so many columns, rows and layers, where each number is within its limits.
    pub fn new(columns: u32, rows: u32, layers: u32) -> Result<Shape, SheetFault>
        ensures { told result ≡ shape_answer columns rows layers }
    {
        let within = (1..=512).contains(&columns)
            && (1..=512).contains(&rows)
            && (1..=8).contains(&layers);
        if !within {
            return Err(SheetFault::PastLimits);
        }
        Ok(Shape {
            columns,
            rows,
            layers,
        })
    }

    // How many places the shape has: they are numbered from 0, one to one.
    #[tactic(auto, using(crate::proofs::Numbering::count_most, crate::proofs::Numbering::one_to_one))]
    pub fn places(self) -> u32
        ensures is { result ≡ count_of self }
        ensures most { result ≤ 2097152 }
        ensures numbered { OneToOne self }
    {
        self.layers * self.rows * self.columns
    }

    // Whether the coordinates are those of a place.
    fn holds(self, at: Coordinates) -> bool
        ensures { result ≡ is_inside self at }
    {
        at.column < self.columns && at.row < self.rows && at.layer < self.layers
    }

    // The number of the place at the coordinates; absent outside the shape.
    pub fn place(self, at: Coordinates) -> Option<u32>
        ensures { result ≡ number_answer self at }
    {
        self.holds(at).then(|| (at.layer * self.rows + at.row) * self.columns + at.column)
    }

    // The column, the row and the layer of a place; absent outside the shape.
    pub fn coordinates(self, place: u32) -> Option<Coordinates>
        ensures { result ≡ coordinates_answer self place }
    {
        if place >= self.places() {
            return None;
        }
        let line = place / self.columns;
        Some(Coordinates {
            column: place % self.columns,
            row: line % self.rows,
            layer: line / self.rows,
        })
    }
}
