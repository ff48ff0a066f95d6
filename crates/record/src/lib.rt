// What a node is set to and what it remembers, brought to a time. No heap.
#![tactic(auto)]

mod faults;
mod laws;
mod limits;
mod records;
mod rows;
mod tuning;

pub use faults::{RecordFault, SettingsFault, TimeFault};
pub use laws::{records_are_lawful, settling_again_changes_nothing};
pub use limits::Settings;
pub use records::Record;
pub use rows::{NeighbourRow, Neighbours, TreeRow, Trees, is_symmetric};
pub use tuning::{LawNumber, SettingsNumbers, UnknownLaw};
