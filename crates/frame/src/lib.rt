// The three messages of the protocol, read from octets and written back without loss. No heap.
#![tactic(auto)]

mod faults;
mod hellos;
mod kept;
mod laws;
mod messages;
mod outputs;
mod stcs;
mod tree_statuses;

pub use faults::{ReadFault, WriteFault};
pub use hellos::{Hello, HelloFields};
pub use laws::{
    first_stc_of_a_root, messages_are_short, messages_keep_rules, read_is_written, written_is_read,
};
pub use messages::{Message, read};
pub use stcs::{Stc, StcFields};
pub use tree_statuses::{TreeStatus, TreeStatusFields};
