// Captured messages: lines of hexadecimal octets, and what is shown of them.
#![tactic(auto)]

mod faults;
mod hexadecimal;
mod lines;
mod rewriting;

pub use faults::LineFault;
pub use hexadecimal::read_octets;
pub use lines::{Shown, inspect_line, show};
pub use rewriting::compare;
