ghost use Rattle.std.specs.Prelude.{◌≡◌, MatchOption, ◌≢◌};
ghost use Rattle.card.specs.Octets.{bit, tree_octets};
ghost use Rattle.record.specs.Lawful.{named};
ghost use Rattle.std.proofs.Common.{rules};

use crate::listed::CardRow;
use field::{Address, Flags, TreeSequenceNumber, WaveNumber, four_octets, two_octets};
use record::TreeRow;

pub const TREE_OCTETS: usize = 17;

fn read_bit(octet: u8) -> Option<bool>
    ensures { MatchOption result ((b : _) → bit b ≢ octet) (λ b. bit b ≡ octet) }
{
    match octet {
        0 => Some(false),
        1 => Some(true),
        _ => None,
    }
}

impl CardRow<TREE_OCTETS> for TreeRow {
    ghost written = { tree_octets };

    ghost plain = { λ row. named row.parent };

    ghost sized = { Prim.search rules };

    ghost fits = { Prim.search rules };

    // Octet by octet, as `read` takes them: what writes field by field has a place to count.
    fn octets(&self) -> [u8; TREE_OCTETS] {
        let [r1, r0] = two_octets(self.root.0);
        let [w1, w0] = two_octets(self.wave.0);
        let [c1, c0] = two_octets(self.cost);
        let [p1, p0] = two_octets(Address::number_or_0(self.parent));
        let [v3, v2, v1, v0] = four_octets(self.valid_until);
        let [t1, t0] = two_octets(self.tree.0);
        [
            r1,
            r0,
            w1,
            w0,
            c1,
            c0,
            p1,
            p0,
            v3,
            v2,
            v1,
            v0,
            self.ttl,
            self.flags.0,
            t1,
            t0,
            u8::from(self.owed),
        ]
    }

    fn read(octets: &[u8; TREE_OCTETS]) -> Option<TreeRow> {
        let [
            r1,
            r0,
            w1,
            w0,
            c1,
            c0,
            p1,
            p0,
            v3,
            v2,
            v1,
            v0,
            life,
            bits,
            t1,
            t0,
            owed,
        ] = *octets;
        Some(TreeRow {
            root: Address(u16::from_be_bytes([r1, r0])),
            wave: WaveNumber(u16::from_be_bytes([w1, w0])),
            cost: u16::from_be_bytes([c1, c0]),
            parent: Address::try_from(u16::from_be_bytes([p1, p0])).ok(),
            valid_until: u32::from_be_bytes([v3, v2, v1, v0]),
            ttl: life,
            flags: Flags(bits),
            tree: TreeSequenceNumber(u16::from_be_bytes([t1, t0])),
            owed: read_bit(owed)?,
        })
    }
}
