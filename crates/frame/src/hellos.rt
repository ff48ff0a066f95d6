ghost use Rattle.std.proofs.Props.{props};
ghost use Rattle.hello_groups.proofs.Grouping.{grouped_prop};
ghost use Rattle.frame.specs.Faults.{BreaksHello};
ghost use Rattle.frame.specs.Rules.{HelloRules};
ghost use Rattle.frame.specs.Values.{hello_values};

use super::faults::{ReadFault, WriteFault};
use super::kept::{Fields, Kept};
use field::{Address, EnergyClass, Kind, two_octets};
use hello_groups::Groups;

// The octets before the groups.
const FIXED_OCTETS: usize = 7;

// Who the sender is and whom it hears.
#[derive(Clone, Copy)]
pub struct HelloFields<'a> {
    pub sender: Address,
    pub number: u8,
    pub vtime: u8,
    pub class: EnergyClass,
    // as they were received
    pub groups: Groups<'a>,
}

pub type Hello<'a> = Kept<HelloFields<'a>>;

impl Fields for HelloFields<'_> {
    ghost kept = { λ fields. HelloRules (hello_values fields) };

    ghost kept_once = { λ _. Prim.hlevel (props, grouped_prop) };

    ghost breaks = { λ fields. BreaksHello (hello_values fields) };

    fn judge(self) -> Result<(), ReadFault> {
        if self.sender.0 == 0 {
            Err(ReadFault::BadField)
        } else if !self.groups.keep_rules() {
            Err(ReadFault::BadGroup)
        } else {
            Ok(())
        }
    }
}

impl<'a> Kept<HelloFields<'a>> {
    ghost use Rattle.frame.specs.Octets.{octets};
    ghost use Rattle.frame.specs.Reading.{ReadsHello};
    ghost use Rattle.frame.specs.Values.{hello};
    ghost use Rattle.frame.specs.Writing.{Writes};

    // The Hello that the octets are, once its type and size octet are known.
    pub(crate) fn read(octets: &'a [u8]) -> Result<Hello<'a>, ReadFault>
        ensures { ReadsHello octets.now result }
    {
        let [_, _, s1, s0, number, vtime, class, groups @ ..] = octets else {
            return Err(ReadFault::WrongSize);
        };
        Hello::new(HelloFields {
            sender: Address(u16::from_be_bytes([*s1, *s0])),
            number: *number,
            vtime: *vtime,
            class: EnergyClass::try_from(*class)?,
            groups: Groups(groups),
        })
    }

    // Fills the front of the output.
    pub(crate) fn write(self, out: &mut [u8]) -> Result<usize, WriteFault>
        ensures { Writes (octets (hello (hello_values self.entry.fields))) out.old out.new result }
    {
        let fields = self.fields();
        let Groups(groups) = fields.groups;
        // at most 43, by the rules
        let len = FIXED_OCTETS + groups.len();
        if out.len() < len {
            return Err(WriteFault::OutputTooShort);
        }
        let [s1, s0] = two_octets(fields.sender.0);
        let head = [
            Kind::Hello.into(),
            len as u8,
            s1,
            s0,
            fields.number,
            fields.vtime,
            fields.class.into(),
        ];
        out[0..FIXED_OCTETS].copy_from_slice(&head);
        out[FIXED_OCTETS..len].copy_from_slice(groups);
        Ok(len)
    }
}
