ghost use Rattle.std.specs.Prelude.{◌≡◌, ◌≢◌, codes};
ghost use Rattle.card.specs.Octets.{card};
ghost use Rattle.record.specs.Records.{state};

use capture::compare;
use record::Record;

// The longest card.
const MOST_OCTETS: usize = 270;

// How the record's card compares with the octets that the record was read from. Beside `rewrite` of `capture`: one for both
// would take `write` as a closure, and what it writes as a relation.
pub fn rewrite_card(held: &Record, octets: &[u8]) -> &'static str
    ensures same { card (state held.now) ≡ octets.now → result.now ≡ codes "same" }
    ensures different { card (state held.now) ≢ octets.now → result.now ≡ codes "different" }
{
    // `write` fills memory that it is handed, as on a gauge
    let mut out = [0; MOST_OCTETS];
    let len = card::write(held, &mut out).unwrap_or(0);
    compare(&out[..len], octets)
}
