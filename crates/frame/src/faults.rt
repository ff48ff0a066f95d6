ghost use Rattle.std.specs.Prelude.{◌≡◌};
ghost use Rattle.frame.specs.Faults.{read_fault_number, write_fault_number};
ghost use Rattle.frame.specs.declared.faults.ReadFault.TheVariants.{UnknownKind, BadField};

use field::{UnknownClass, UnknownKind};

// Why octets are no message: the first rule that they break.
#[derive(Clone, Copy, PartialEq, Eq, Debug)]
pub enum ReadFault {
    // fewer than two octets
    Short = 1,
    // a type that is none of the three
    UnknownKind = 2,
    // a size that is not the number of octets, or not the kind's
    WrongSize = 3,
    BadField = 4,
    BadGroup = 5,
}

// Why octets are not written.
#[derive(Clone, Copy, PartialEq, Eq, Debug)]
pub enum WriteFault {
    OutputTooShort = 14,
}

impl From<UnknownKind> for ReadFault {
    ghost from_gives = { λ _ fault. fault ≡ UnknownKind };

    fn from(_: UnknownKind) -> ReadFault {
        ReadFault::UnknownKind
    }
}

impl From<UnknownClass> for ReadFault {
    ghost from_gives = { λ _ fault. fault ≡ BadField };

    fn from(_: UnknownClass) -> ReadFault {
        ReadFault::BadField
    }
}

// One impl a fault: `u8` takes none for every fault, and an impl by a macro of one's own cannot say `from_gives`.
impl From<ReadFault> for u8 {
    ghost from_gives = { λ fault number. number ≡ read_fault_number fault };

    fn from(fault: ReadFault) -> u8 {
        fault as u8
    }
}

impl From<WriteFault> for u8 {
    ghost from_gives = { λ fault number. number ≡ write_fault_number fault };

    fn from(fault: WriteFault) -> u8 {
        fault as u8
    }
}
