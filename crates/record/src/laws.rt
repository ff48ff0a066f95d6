// Each function here stands for the theorem in its contract, and does nothing.
ghost use Rattle.record.specs.Records.{RecordsAreLawful};
ghost use Rattle.record.specs.Settling.{SettlingAgain};

pub fn records_are_lawful()
    ensures { RecordsAreLawful }
{}

#[tactic(auto, using(crate::proofs::Settled::settling_again))]
pub fn settling_again_changes_nothing()
    ensures { SettlingAgain }
{}
