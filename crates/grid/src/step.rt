// The three kinds of step, and the ten directions in which they go.
ghost use Rattle.std.specs.Prelude.{◌≡◌, Some};
ghost use Rattle.grid.specs.Steps.{kind};
ghost use Rattle.grid.specs.Texts.{step_text};

use std::fmt;

// A straight step goes to the next place of a row or a column, a diagonal one changes both by one, and a via goes to the
// next layer.
#[derive(Clone, Copy, PartialEq, Eq, Debug)]
pub enum Step {
    Straight,
    Diagonal,
    Via,
}

// Written as one word.
impl fmt::Display for Step {
    ghost output = { λ step. Some (step_text step) };

    fn fmt<W: fmt::Write>(&self, f: &mut fmt::Formatter<W>) -> fmt::Result {
        f.write_str(match self {
            Step::Straight => "straight",
            Step::Diagonal => "diagonal",
            Step::Via => "via",
        })
    }
}

// West is one column less and east one more, north is one row less and south one more, up is one layer less and down one
// more. The order is that in which a wire is traced back.
#[derive(Clone, Copy, PartialEq, Eq, Debug)]
pub enum Direction {
    West,
    East,
    North,
    South,
    NorthWest,
    NorthEast,
    SouthWest,
    SouthEast,
    Up,
    Down,
}

impl Direction {
    // The kind of step that goes in the direction.
    pub fn step(self) -> Step
        ensures { result ≡ kind self }
    {
        match self {
            Direction::West | Direction::East | Direction::North | Direction::South =>
                Step::Straight,
            Direction::NorthWest
            | Direction::NorthEast
            | Direction::SouthWest
            | Direction::SouthEast => Step::Diagonal,
            Direction::Up | Direction::Down => Step::Via,
        }
    }
}
