// What a link costs the node that hears over it: the interface of cost laws, and two laws. No heap.
#![tactic(auto)]

mod cost_law;
mod costs;
mod energy;
mod examples;
mod hops;
mod listeners;

pub use cost_law::{CostLaw, offer};
pub use costs::as_cost;
pub use energy::{EnergyLaw, weight_of};
pub use examples::worked_examples;
pub use hops::{HopLaw, power_of};
pub use listeners::Listener;
