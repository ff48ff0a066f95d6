// A list of at most N rows, kept in place: no heap.
#![tactic(auto)]

mod keys;
mod tables;

pub use keys::{Keyed, are_apart, find};
pub use tables::{Full, Table};
