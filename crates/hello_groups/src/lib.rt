// The groups of a Hello: the addresses that its sender hears, under the code of the link to each. No heap.
#![tactic(auto)]

mod addresses;
mod laws;
mod listing;
mod rules;
mod splitting;

pub use addresses::Addresses;
pub use laws::groups_are_lists;
pub use listing::Groups;
