// A cost law of a stranger's own, under the interface of `law`: a way costs the sendings that its links make needful. No heap.
#![tactic(auto)]

ghost use Rattle.std.specs.Prelude.{◌≤◌};
ghost use Rattle.attenuation_law.specs.Sendings.{attenuation, attenuated, sendings};
ghost use Rattle.attenuation_law.specs.Rising.{sendings_rise, sendings_order};
ghost use Rattle.law.proofs.Rules.{as_cost_rise, as_cost_order};
ghost use Rattle.std.proofs.Common.{rules};

use field::{Address, Cost};
use law::{CostLaw, Listener, as_cost, power_of};

// Of 256 sendings over a link, this many are lost.
#[derive(Clone, Copy)]
pub struct Attenuation(pub u8);

// A word that is lost on a link is sent again from the root. The cost of a way is how many sendings bring one word along it.
#[derive(Clone, Copy)]
pub struct AttenuationLaw;

impl CostLaw for AttenuationLaw {
    type Measure = Attenuation;

    // no case of `LawNumber`, which has the laws that settings know
    const NUMBER: u8 = 3;

    ghost NUMBER = { 3 };

    ghost measured = { λ _ _ near _ sender. record { 0 = attenuation near sender } };

    ghost occurs = { λ m. m.0 ≤ 255 };

    ghost extended = { λ c m. attenuated c m.0 };

    ghost measures = { Prim.search rules };

    ghost rise = { λ c o m few e. as_cost_rise c (sendings c m.0) o (sendings_rise c m.0 few) e };

    ghost order = { λ a b o m few le e. as_cost_order (sendings a m.0) (sendings b m.0) o (sendings_order a b m.0 few le) e };

    fn measure(&self, listener: &Listener<'_>, sender: Address) -> Attenuation {
        Attenuation(255 - power_of(listener.neighbours, sender))
    }

    fn extend(&self, cost: Cost, lost: Attenuation) -> Option<Cost> {
        as_cost((u64::from(cost) + 1) * 256 / (256 - u64::from(lost.0)))
    }
}
