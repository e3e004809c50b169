// The search on a ground, for any tariff and front. The wave gives every place that a net can reach from its start its least
// cost; the search stops at a goal, and leaves labels over which the wire is that of the whole wave. Each asks its questions
// in order, and a question that does not hold leaves all as it was; a search that finds no path (10) leaves the whole wave.
#![tactic(auto)]

pub mod connection;
pub mod fault;
pub mod labels;
mod offer;
pub mod spread;

pub use connection::Connection;
pub use fault::SearchFault;
pub use labels::label_at;
pub use spread::{search, wave};
