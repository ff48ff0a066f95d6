// Records as text: each field by name, then the rows.
#![tactic(auto)]

mod rows;
mod texts;

pub use texts::RecordText;
