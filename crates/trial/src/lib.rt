// Tries lines that were worked out by hand: a row says what it tries, the line, and what it is to be shown as.
#![tactic(auto)]

mod rows;
mod tallies;
mod trying;

pub use tallies::Tally;
pub use trying::try_rows;
