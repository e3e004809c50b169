// The wire, traced back from the goal over labels.
#![tactic(auto)]

mod walk;
pub mod wire;

pub use wire::{wire_bare, wire_length, write_wire};
