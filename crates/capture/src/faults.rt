ghost use Rattle.std.specs.Prelude.{◌≡◌, Some};
ghost use Rattle.capture.specs.declared.faults.LineFault.TheVariants.{NoMemory, NoMessage, NoRecord};
ghost use Rattle.std.specs.Result.{result_ok};
ghost use Rattle.capture.specs.Refusals.{refusal_number, fault_text};

use frame::ReadFault;
use record::RecordFault;
use std::alloc::AllocError;
use std::fmt;

// Why a line is not shown: one enum for lines of messages and of cards, so that `?` serves both.
#[derive(Clone, Copy, PartialEq, Eq)]
pub enum LineFault {
    NoMemory(AllocError),
    // no list of octets
    NoOctets,
    NoMessage(ReadFault),
    NoRecord(RecordFault),
}

impl From<AllocError> for LineFault {
    ghost from_gives = { λ e fault. fault ≡ NoMemory e };

    fn from(error: AllocError) -> LineFault {
        LineFault::NoMemory(error)
    }
}

impl From<ReadFault> for LineFault {
    ghost from_gives = { λ e fault. fault ≡ NoMessage e };

    fn from(fault: ReadFault) -> LineFault {
        LineFault::NoMessage(fault)
    }
}

impl From<RecordFault> for LineFault {
    ghost from_gives = { λ e fault. fault ≡ NoRecord e };

    fn from(fault: RecordFault) -> LineFault {
        LineFault::NoRecord(fault)
    }
}

// The number of a refusal; want of memory is none.
impl TryFrom<LineFault> for u8 {
    type Error = AllocError;

    ghost try_from_gives = { λ fault r. result_ok r ≡ refusal_number fault };

    fn try_from(fault: LineFault) -> Result<u8, AllocError> {
        match fault {
            LineFault::NoMemory(want) => Err(want),
            LineFault::NoOctets => Ok(0),
            LineFault::NoMessage(read) => Ok(read.into()),
            LineFault::NoRecord(unlawful) => Ok(unlawful.into()),
        }
    }
}

impl fmt::Display for LineFault {
    ghost output = { λ fault. Some (fault_text fault) };

    fn fmt<W: fmt::Write>(&self, f: &mut fmt::Formatter<W>) -> fmt::Result {
        match u8::try_from(*self) {
            Ok(number) => write!(f, "? {number}"),
            Err(_) => f.write_str("no memory"),
        }
    }
}
