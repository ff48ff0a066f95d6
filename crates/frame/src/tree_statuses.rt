ghost use Rattle.std.specs.Prelude.{◌≡◌};
ghost use Rattle.std.proofs.Props.{props};
ghost use Rattle.frame.specs.Faults.{BreaksField};
ghost use Rattle.frame.specs.Rules.{TreeStatusRules};
ghost use Rattle.frame.specs.Values.{tree_status_values};

use super::faults::ReadFault;
use super::kept::{Fields, Kept};
use field::{Address, Flags, Kind, TreeSequenceNumber, WaveNumber, two_octets};

// Whether a coloured tree is at rest below the sender.
#[derive(Clone, Copy)]
pub struct TreeStatusFields {
    pub sender: Address,
    pub wave: WaveNumber,
    pub root: Address,
    pub tree: TreeSequenceNumber,
    pub descendants: u16,
    pub flags: Flags,
}

pub type TreeStatus = Kept<TreeStatusFields>;

impl Fields for TreeStatusFields {
    ghost kept = { λ fields. TreeStatusRules (tree_status_values fields) };

    ghost kept_once = { λ _. Prim.hlevel props };

    ghost breaks = { λ fields. BreaksField (TreeStatusRules (tree_status_values fields)) };

    fn judge(self) -> Result<(), ReadFault> {
        if self.sender.0 != 0 && self.wave.0 != 0 && self.root.0 != 0 && self.flags.are_known() {
            Ok(())
        } else {
            Err(ReadFault::BadField)
        }
    }
}

impl Kept<TreeStatusFields> {
    ghost use Rattle.frame.specs.Octets.{octets};
    ghost use Rattle.frame.specs.Reading.{ReadsTreeStatus};
    ghost use Rattle.frame.specs.Values.{tree_status};

    // The Tree Status whose fields follow type and size.
    pub(crate) fn read(fields: &[u8]) -> Result<TreeStatus, ReadFault>
        ensures { ReadsTreeStatus fields.now result }
    {
        let [s1, s0, w1, w0, r1, r0, t1, t0, d1, d0, flags] = fields else {
            return Err(ReadFault::WrongSize);
        };
        TreeStatus::new(TreeStatusFields {
            sender: Address(u16::from_be_bytes([*s1, *s0])),
            wave: WaveNumber(u16::from_be_bytes([*w1, *w0])),
            root: Address(u16::from_be_bytes([*r1, *r0])),
            tree: TreeSequenceNumber(u16::from_be_bytes([*t1, *t0])),
            descendants: u16::from_be_bytes([*d1, *d0]),
            flags: Flags(*flags),
        })
    }

    // Octet by octet, as `read` takes them: what writes field by field has a place to count.
    pub(crate) fn octets(self) -> [u8; 13]
        ensures { result ≡ octets (tree_status (tree_status_values self.fields)) }
    {
        let fields = self.fields();
        let [s1, s0] = two_octets(fields.sender.0);
        let [w1, w0] = two_octets(fields.wave.0);
        let [r1, r0] = two_octets(fields.root.0);
        let [t1, t0] = two_octets(fields.tree.0);
        let [d1, d0] = two_octets(fields.descendants);
        [
            Kind::TreeStatus.into(),
            13,
            s1,
            s0,
            w1,
            w0,
            r1,
            r0,
            t1,
            t0,
            d1,
            d0,
            fields.flags.0,
        ]
    }
}
