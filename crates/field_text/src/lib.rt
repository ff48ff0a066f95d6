// The values of fields as text, and lists of them.
#![tactic(auto)]

mod lists;
mod texts;

pub use lists::write_list;
pub use texts::{ClassText, FlagsText, ParentText, class_name};
