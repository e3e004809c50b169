// The records of an indexed binary heap, and places that are sifted up and down in it.
#![tactic(auto)]

pub mod record;

pub use record::HeapRecord;
