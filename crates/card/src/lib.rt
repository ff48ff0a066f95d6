// A record as the octets that a gauge keeps between calls. No heap.
#![tactic(auto)]

mod cards;
mod laws;
mod listed;
mod neighbour_rows;
mod tree_rows;

pub use cards::{read, write};
pub use laws::{cards_are_short, read_is_written, written_is_read};
