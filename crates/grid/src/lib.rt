// Boards as grids of places: shapes, the numbers of places, the steps that join them and the directions in which steps go.
#![tactic(auto)]

mod axis;
pub mod fault;
pub mod neighbour;
pub mod place;
pub mod shape;
pub mod site;
pub mod step;

pub use fault::SheetFault;
pub use neighbour::directions;
pub use shape::{Coordinates, Shape};
pub use site::Site;
pub use step::{Direction, Step};
