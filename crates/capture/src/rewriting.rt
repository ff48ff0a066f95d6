ghost use Rattle.std.specs.Prelude.{◌≡◌, ◌≢◌, codes};
ghost use Rattle.frame.specs.Messages.{values};
ghost use Rattle.frame.specs.Octets.{octets as octets_of};

use frame::Message;

// The longest message.
const MOST_OCTETS: usize = 43;

// How the octets of the message compare with those that it was read from.
pub fn rewrite(message: Message<'_>, octets: &[u8]) -> &'static str
    ensures same { octets_of (values message.entry) ≡ octets.now → result.now ≡ codes "same" }
    ensures different { octets_of (values message.entry) ≢ octets.now → result.now ≡ codes "different" }
{
    // `write` fills memory that it is handed, as on a gauge
    let mut out = [0; MOST_OCTETS];
    let len = message.write(&mut out).unwrap_or(0);
    compare(&out[..len], octets)
}

// The word of a comparison: two, which a type with a `Display` of its own would only surround.
pub fn compare(written: &[u8], read: &[u8]) -> &'static str
    ensures same { written.now ≡ read.now → result.now ≡ codes "same" }
    ensures different { written.now ≢ read.now → result.now ≡ codes "different" }
{
    if written == read { "same" } else { "different" }
}
