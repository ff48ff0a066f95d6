ghost use Rattle.std.specs.Prelude.{◌≡◌};
ghost use Rattle.record.specs.declared.faults.SettingsFault.TheVariants.{OutOfRange};
ghost use Rattle.record.specs.Faults.{record_fault_number, settings_fault_number, time_fault_number};

use crate::tuning::UnknownLaw;

// Why fields make no record.
#[derive(Clone, Copy, PartialEq, Eq, Debug)]
pub enum RecordFault {
    Unlawful = 6,
}

// Why numbers make no settings.
#[derive(Clone, Copy, PartialEq, Eq, Debug)]
pub enum SettingsFault {
    OutOfRange = 7,
}

// Why a record is not brought to a time.
#[derive(Clone, Copy, PartialEq, Eq, Debug)]
pub enum TimeFault {
    OutOfRange = 8,
}

// One impl a fault: `u8` takes none for every fault, and an impl by a macro of one's own cannot say `from_gives`.
impl From<RecordFault> for u8 {
    ghost from_gives = { λ fault number. number ≡ record_fault_number fault };

    fn from(fault: RecordFault) -> u8 {
        fault as u8
    }
}

impl From<SettingsFault> for u8 {
    ghost from_gives = { λ fault number. number ≡ settings_fault_number fault };

    fn from(fault: SettingsFault) -> u8 {
        fault as u8
    }
}

impl From<UnknownLaw> for SettingsFault {
    ghost from_gives = { λ _ fault. fault ≡ OutOfRange };

    fn from(_: UnknownLaw) -> SettingsFault {
        SettingsFault::OutOfRange
    }
}

impl From<TimeFault> for u8 {
    ghost from_gives = { λ fault number. number ≡ time_fault_number fault };

    fn from(fault: TimeFault) -> u8 {
        fault as u8
    }
}
