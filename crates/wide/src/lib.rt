// Grounds and sheets over lent lists that have one entry a place.
#![tactic(auto)]

pub mod drawing;
pub mod entries;
pub mod wide_sheet;

pub use drawing::Drawing;
pub use entries::check_entries;
pub use wide_sheet::WideSheet;
