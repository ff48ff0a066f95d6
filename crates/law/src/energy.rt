ghost use Rattle.std.specs.Prelude.{◌≡◌, ◌+◌, ◌*◌, ◌≤◌};
ghost use Rattle.law.specs.Energy.{weight, weight_around, energy_measure, energy_extended};
ghost use Rattle.record.specs.Tuning.{law_number};
ghost use Rattle.record.specs.declared.tuning.LawNumber.TheVariants.{Energy};
ghost use Rattle.table.specs.Rows.{rows};
ghost use Rattle.std.proofs.Common.{arith, rules};
ghost use Rattle.std.proofs.lemmas.Bool.Decides.{nat_tests};

use crate::cost_law::CostLaw;
use crate::costs::as_cost;
use crate::listeners::Listener;
use field::{Address, Cost, EnergyClass};
use record::LawNumber;

// A link costs what the node that hears over it and its symmetric neighbours weigh.
#[derive(Clone, Copy)]
pub struct EnergyLaw;

impl CostLaw for EnergyLaw {
    type Measure = u16;

    const NUMBER: u8 = LawNumber::Energy as u8;

    ghost NUMBER = { law_number Energy };

    ghost measured = { λ s class near t _. energy_measure s.lambda s.beta class near t };

    ghost occurs = { λ m. 1 ≤ m };

    ghost extended = { energy_extended };

    ghost measures = { Prim.search rules };

    ghost rise = { Prim.search rules };

    ghost order = { λ a b o m some le e. (a + m, Prim.grind (arith, nat_tests), Prim.grind (arith, nat_tests)) };

    #[tactic(auto, using(crate::proofs::Weights::around_table))]
    fn measure(&self, listener: &Listener<'_>, _sender: Address) -> u16 {
        u16::from(listener.settings.lambda) * weight_of(listener.class)
            + u16::from(listener.settings.beta) * listener.weight_around()
    }

    fn extend(&self, cost: Cost, measure: u16) -> Option<Cost> {
        as_cost(u64::from(cost) + u64::from(measure))
    }
}

// The less energy, the more a node weighs.
pub fn weight_of(class: EnergyClass) -> u16
    ensures { result ≡ weight class }
{
    match class {
        EnergyClass::High => 1,
        EnergyClass::Medium => 4,
        EnergyClass::Low => 20,
    }
}

impl Listener<'_> {
    // What the symmetric neighbours weigh together.
    fn weight_around(&self) -> u16
        ensures { result ≡ weight_around (rows self.now.neighbours.now) self.now.time }
    {
        self.neighbours
            .as_slice()
            .iter()
            .filter(|row| row.is_symmetric(self.time))
            .map(|row| weight_of(row.class))
            .sum()
    }
}
