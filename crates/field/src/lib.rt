// The values of the fields of messages.
#![tactic(auto)]

mod classes;
mod kinds;
mod links;
mod numbers;
mod tree_flags;

pub use classes::{EnergyClass, UnknownClass};
pub use kinds::{Kind, UnknownKind};
pub use links::LinkCode;
pub use numbers::{
    Address, Cost, NoAddress, TreeSequenceNumber, WaveNumber, four_octets, two_octets,
};
pub use tree_flags::{Flag, Flags};
