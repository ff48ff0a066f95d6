// Captured lines of cards and of messages, and what is shown of them.
#![tactic(auto)]

mod lines;
mod rewriting;

pub use lines::inspect;
