ghost use Rattle.std.specs.Prelude.{◌≡◌, ◌+◌, ◌-◌, ◌*◌, max};
ghost use Rattle.law.specs.Hops.{power_of, hop_extended, hops, weakness};
ghost use Rattle.record.specs.Tuning.{law_number};
ghost use Rattle.record.specs.declared.tuning.LawNumber.TheVariants.{Hops};
ghost use Rattle.table.specs.Rows.{rows};
ghost use Rattle.std.proofs.Common.{arith, rules};
ghost use Rattle.std.proofs.lemmas.Bool.Decides.{nat_tests};

use crate::cost_law::CostLaw;
use crate::listeners::Listener;
use field::{Address, Cost};
use record::{LawNumber, Neighbours};
use table::find;

const MOST_HOPS: Cost = 255;

// Fewer hops cost less; of as many hops, the way whose weakest link is stronger does.
#[derive(Clone, Copy)]
pub struct HopLaw;

impl CostLaw for HopLaw {
    type Measure = u8;

    const NUMBER: u8 = LawNumber::Hops as u8;

    ghost NUMBER = { law_number Hops };

    ghost measured = { λ _ _ near _ sender. power_of near sender };

    ghost occurs = { λ _. Unit {0} };

    ghost extended = { hop_extended };

    ghost measures = { Prim.search rules };

    ghost rise = { Prim.search rules };

    ghost order = { λ a b o power any le e. ((hops a + 1) * 256 + max (weakness a) (255 - power), Prim.grind (arith, nat_tests), Prim.grind (arith, nat_tests)) };

    fn measure(&self, listener: &Listener<'_>, sender: Address) -> u8 {
        power_of(listener.neighbours, sender)
    }

    fn extend(&self, cost: Cost, power: u8) -> Option<Cost> {
        let hops = cost / 256;
        if hops >= MOST_HOPS {
            return None;
        }
        let weakness = (cost % 256).max(Cost::from(255 - power));
        Some((hops + 1) * 256 + weakness)
    }
}

// The power in the sender's row, and 0 if it has none.
pub fn power_of(neighbours: &Neighbours, sender: Address) -> u8
    ensures { result ≡ power_of (rows neighbours.now) sender.0 }
{
    find(neighbours.as_slice(), sender.0).map_or(0, |row| row.power)
}
