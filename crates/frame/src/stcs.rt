ghost use Rattle.std.specs.Prelude.{◌≡◌};
ghost use Rattle.std.proofs.Props.{props};
ghost use Rattle.frame.specs.Faults.{BreaksField};
ghost use Rattle.frame.specs.Rules.{StcRules};
ghost use Rattle.frame.specs.Values.{stc_values};

use super::faults::ReadFault;
use super::kept::{Fields, Kept};
use field::{Address, Cost, Flags, Kind, TreeSequenceNumber, WaveNumber, two_octets};

// An offer of a way to the root of a tree.
#[derive(Clone, Copy)]
pub struct StcFields {
    pub sender: Address,
    pub wave: WaveNumber,
    pub root: Address,
    pub cost: Cost,
    pub parent: Option<Address>,
    pub vtime: u8,
    pub ttl: u8,
    pub flags: Flags,
    pub tree: TreeSequenceNumber,
}

pub type Stc = Kept<StcFields>;

impl Fields for StcFields {
    ghost kept = { λ fields. StcRules (stc_values fields) };

    ghost kept_once = { λ _. Prim.hlevel props };

    ghost breaks = { λ fields. BreaksField (StcRules (stc_values fields)) };

    fn judge(self) -> Result<(), ReadFault> {
        if self.sender.0 != 0
            && self.wave.0 != 0
            && self.root.0 != 0
            && (1..=32).contains(&self.ttl)
            && self.flags.suit(self.tree)
        {
            Ok(())
        } else {
            Err(ReadFault::BadField)
        }
    }
}

impl Kept<StcFields> {
    ghost use Rattle.frame.specs.Octets.{octets};
    ghost use Rattle.frame.specs.Reading.{ReadsStc};
    ghost use Rattle.frame.specs.Values.{stc};

    // The STC whose fields follow type and size.
    pub(crate) fn read(fields: &[u8]) -> Result<Stc, ReadFault>
        ensures { ReadsStc fields.now result }
    {
        let [
            s1,
            s0,
            w1,
            w0,
            r1,
            r0,
            c1,
            c0,
            p1,
            p0,
            vtime,
            ttl,
            flags,
            t1,
            t0,
        ] = fields
        else {
            return Err(ReadFault::WrongSize);
        };
        Stc::new(StcFields {
            sender: Address(u16::from_be_bytes([*s1, *s0])),
            wave: WaveNumber(u16::from_be_bytes([*w1, *w0])),
            root: Address(u16::from_be_bytes([*r1, *r0])),
            cost: u16::from_be_bytes([*c1, *c0]),
            parent: Address::try_from(u16::from_be_bytes([*p1, *p0])).ok(),
            vtime: *vtime,
            ttl: *ttl,
            flags: Flags(*flags),
            tree: TreeSequenceNumber(u16::from_be_bytes([*t1, *t0])),
        })
    }

    // Octet by octet, as `read` takes them: what writes field by field has a place to count.
    pub(crate) fn octets(self) -> [u8; 17]
        ensures { result ≡ octets (stc (stc_values self.fields)) }
    {
        let fields = self.fields();
        let [s1, s0] = two_octets(fields.sender.0);
        let [w1, w0] = two_octets(fields.wave.0);
        let [r1, r0] = two_octets(fields.root.0);
        let [c1, c0] = two_octets(fields.cost);
        let [p1, p0] = two_octets(Address::number_or_0(fields.parent));
        let [t1, t0] = two_octets(fields.tree.0);
        [
            Kind::Stc.into(),
            17,
            s1,
            s0,
            w1,
            w0,
            r1,
            r0,
            c1,
            c0,
            p1,
            p0,
            fields.vtime,
            fields.ttl,
            fields.flags.0,
            t1,
            t0,
        ]
    }
}
