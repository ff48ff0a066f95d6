use field::EnergyClass;
use record::{Neighbours, Settings};

// The node that hears over a link: what it is set to, its class, its neighbours and its latest time.
#[derive(Clone, Copy)]
pub struct Listener<'a> {
    pub settings: &'a Settings,
    pub class: EnergyClass,
    pub neighbours: &'a Neighbours,
    pub time: u32,
}
