// The neighbours of a place, and the step between two places.
ghost use Rattle.std.specs.Prelude.{◌≡◌, ◌+◌, ◌*◌, ◌<◌, ◌≤◌, ◌↔◌, Some};
ghost use Rattle.grid.specs.Sites.{Sited};
ghost use Rattle.grid.specs.Steps.{order, neighbour_of, step_between, Joins, DirectionsAreExact};
ghost use Rattle.grid.specs.Axes.{IsAxis};

use super::axis::Axis;
use super::shape::Shape;
use super::site::Site;
use super::step::{Direction, Step};

// The ten directions, in the order in which a wire is traced back. They lead to exactly the places that a step joins;
// a constant could not promise that.
#[tactic(auto, using(crate::proofs::Joining::exact))]
pub fn directions() -> [Direction; 10]
    ensures is { result ≡ order }
    ensures exact { DirectionsAreExact }
{
    [
        Direction::West,
        Direction::East,
        Direction::North,
        Direction::South,
        Direction::NorthWest,
        Direction::NorthEast,
        Direction::SouthWest,
        Direction::SouthEast,
        Direction::Up,
        Direction::Down,
    ]
}

impl Shape {
    // A place with its coordinates; absent outside the shape.
    #[tactic(auto, using(crate::proofs::Numbering::located))]
    pub fn site(self, place: u32) -> Option<Site>
        ensures { Sited self place result }
    {
        let at = self.coordinates(place)?;
        Some(Site {
            shape: self,
            place,
            at,
        })
    }

    // The kind of step that joins two places, if one does.
    pub fn step(self, from: u32, to: u32) -> Option<Step>
        ensures is { result ≡ step_between self from to }
        ensures joins { (k : Step) → (result ≡ Some k) ↔ Joins self k from to }
    {
        let x = self.coordinates(from)?;
        let y = self.coordinates(to)?;
        match (
            x.column.abs_diff(y.column),
            x.row.abs_diff(y.row),
            x.layer.abs_diff(y.layer),
        ) {
            (1, 0, 0) | (0, 1, 0) => Some(Step::Straight),
            (1, 1, 0) => Some(Step::Diagonal),
            (0, 0, 1) => Some(Step::Via),
            _ => None,
        }
    }
}

impl Site {
    // The column: the next place of a row has the next number.
    fn across(self) -> Axis
        ensures is { IsAxis result self.at.column self.shape.columns 1 }
        ensures room { self.at.column ≤ self.place }
    {
        Axis {
            at: self.at.column,
            bound: self.shape.columns,
            stride: 1,
        }
    }

    // The row: the next place of a column is as many places further as a row has.
    fn along(self) -> Axis
        ensures is { IsAxis result self.at.row self.shape.rows self.shape.columns }
        ensures room { 0 < self.at.row → self.shape.columns + self.at.column ≤ self.place }
    {
        Axis {
            at: self.at.row,
            bound: self.shape.rows,
            stride: self.shape.columns,
        }
    }

    // The layer: the place at the end of a via is as many places further as a layer has.
    fn through(self) -> Axis
        ensures is { IsAxis result self.at.layer self.shape.layers (self.shape.columns * self.shape.rows) }
        ensures room { 0 < self.at.layer → self.shape.columns * self.shape.rows ≤ self.place }
    {
        Axis {
            at: self.at.layer,
            bound: self.shape.layers,
            stride: self.shape.columns * self.shape.rows,
        }
    }

    // The neighbouring place in a direction; absent outside the shape.
    #[tactic(auto, using(crate::proofs::Striding::neighbour_strides))]
    pub fn neighbour(self, direction: Direction) -> Option<u32>
        ensures { result ≡ neighbour_of self.shape self.place direction }
    {
        // A table of moves for each direction would be no plainer, and would cost three tests where one or two are needed.
        let place = self.place;
        match direction {
            Direction::West => self.across().back(place),
            Direction::East => self.across().forth(place),
            Direction::North => self.along().back(place),
            Direction::South => self.along().forth(place),
            Direction::NorthWest => self.along().back(self.across().back(place)?),
            Direction::NorthEast => self.along().back(self.across().forth(place)?),
            Direction::SouthWest => self.along().forth(self.across().back(place)?),
            Direction::SouthEast => self.along().forth(self.across().forth(place)?),
            Direction::Up => self.through().back(place),
            Direction::Down => self.through().forth(place),
        }
    }
}
