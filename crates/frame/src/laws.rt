// Each function here stands for the theorem in its contract, and does nothing.
ghost use Rattle.frame.specs.RoundTrip.{WrittenIsRead, ReadIsWritten, MessagesKeepRules, MessagesAreShort, FirstStc};

#[tactic(auto, using(crate::proofs::RoundTrips::written_is_read))]
pub fn written_is_read()
    ensures { WrittenIsRead }
{}

#[tactic(auto, using(crate::proofs::RoundTrips::read_is_written))]
pub fn read_is_written()
    ensures { ReadIsWritten }
{}

pub fn messages_keep_rules()
    ensures { MessagesKeepRules }
{}

#[tactic(auto, using(crate::proofs::RoundTrips::messages_are_short))]
pub fn messages_are_short()
    ensures { MessagesAreShort }
{}

pub fn first_stc_of_a_root()
    ensures { FirstStc }
{}
