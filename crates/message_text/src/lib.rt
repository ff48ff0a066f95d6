// Messages as text: the kind, then each field by name.
#![tactic(auto)]

mod texts;

pub use texts::MessageText;
