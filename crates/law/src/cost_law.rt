ghost use Rattle.std.specs.Prelude.{◌≡◌, ℕ, ◌<◌, ◌≤◌, List, IfSome, Some, Option};
ghost use Rattle.field.specs.declared.classes.EnergyClass.{EnergyClass};
ghost use Rattle.record.specs.declared.limits.Settings.{Settings};
ghost use Rattle.record.specs.declared.rows.NeighbourRow.{NeighbourRow};
ghost use Rattle.table.specs.Rows.{rows};

use crate::listeners::Listener;
use field::{Address, Cost};

// What a link costs. It is measured at the node that hears over it, and a cost is extended by the measure.
pub trait CostLaw {
    type Measure: Copy;

    const NUMBER: u8;

    ghost NUMBER: { ℕ };

    // by the settings, the node's class, its neighbour rows and its latest time, for the sender's address
    ghost measured: { Settings → EnergyClass → List NeighbourRow → ℕ → ℕ → Self.Measure };

    // the measures that can occur
    ghost occurs: { Self.Measure → Type 0 };

    // a cost by a measure, to a cost or to none
    ghost extended: { ℕ → Self.Measure → Option ℕ };

    fn measure(&self, listener: &Listener<'_>, sender: Address) -> Self::Measure
        ensures { result ≡ measured listener.now.settings.now listener.now.class (rows listener.now.neighbours.now) listener.now.time sender.0 };

    fn extend(&self, cost: Cost, measure: Self::Measure) -> Option<Cost>
        ensures { result ≡ extended cost measure };

    final fn law_number(&self) -> u8
        ensures { result ≡ NUMBER }
    {
        Self::NUMBER
    }

    // what is measured can occur
    ghost measures: { (s : Settings) (class : EnergyClass) (near : List NeighbourRow) (t sender : ℕ) → occurs (measured s class near t sender) };

    // an extension is greater than the cost that it extends
    ghost rise: { (c o : ℕ) (m : Self.Measure) → occurs m → extended c m ≡ Some o → c < o };

    // of two costs the lesser has an extension where the other has one, and it is no greater
    ghost order: { (a b o : ℕ) (m : Self.Measure) → occurs m → a ≤ b → extended b m ≡ Some o → (p : ℕ) × (extended a m ≡ Some p) × (p ≤ o) };
}

// What the sender's cost comes to at the node that hears it: the cost extended by the measure for the sender.
pub fn offer<L: CostLaw>(
    law: &L,
    listener: &Listener<'_>,
    sender: Address,
    cost: Cost,
) -> Option<Cost>
    ensures value { result ≡ L.CostLaw.extended cost (L.CostLaw.measured listener.now.settings.now listener.now.class (rows listener.now.neighbours.now) listener.now.time sender.0) }
    ensures dearer { IfSome result (λ o. cost < o) }
{
    let measure = law.measure(listener, sender);
    law.extend(cost, measure)
}
