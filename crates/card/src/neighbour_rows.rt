ghost use Rattle.std.specs.Prelude.{true};
ghost use Rattle.card.specs.Octets.{neighbour_octets};
ghost use Rattle.std.proofs.Common.{rules};

use crate::listed::CardRow;
use field::{Address, EnergyClass, four_octets, two_octets};
use record::NeighbourRow;

pub const NEIGHBOUR_OCTETS: usize = 12;

impl CardRow<NEIGHBOUR_OCTETS> for NeighbourRow {
    ghost written = { neighbour_octets };

    ghost plain = { λ _. true };

    ghost sized = { Prim.search rules };

    ghost fits = { Prim.search rules };

    // Octet by octet, as `read` takes them: what writes field by field has a place to count.
    fn octets(&self) -> [u8; NEIGHBOUR_OCTETS] {
        let [a1, a0] = two_octets(self.address.0);
        let [s3, s2, s1, s0] = four_octets(self.sym_until);
        let [h3, h2, h1, h0] = four_octets(self.heard_until);
        let class = self.class.into();
        [a1, a0, s3, s2, s1, s0, h3, h2, h1, h0, class, self.power]
    }

    fn read(octets: &[u8; NEIGHBOUR_OCTETS]) -> Option<NeighbourRow> {
        let [a1, a0, s3, s2, s1, s0, h3, h2, h1, h0, class, power] = *octets;
        let class = EnergyClass::try_from(class).ok()?;
        Some(NeighbourRow {
            address: Address(u16::from_be_bytes([a1, a0])),
            sym_until: u32::from_be_bytes([s3, s2, s1, s0]),
            heard_until: u32::from_be_bytes([h3, h2, h1, h0]),
            class,
            power,
        })
    }
}
