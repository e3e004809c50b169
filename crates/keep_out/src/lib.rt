// A layer that keeps out of rectangles.
#![tactic(auto)]

pub mod apart;
pub mod rectangle;
pub mod row;
pub mod table;

pub use apart::{AddRectangle, KeepOut};
pub use rectangle::Rectangle;
pub use row::Row;
pub use table::Table;
