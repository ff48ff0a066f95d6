ghost use Rattle.std.specs.Prelude.{◌≡◌, ◌++◌, length, nat_le, MatchBool};
ghost use Rattle.hello_groups.specs.Groups.{Grouped};
ghost use Rattle.hello_groups.specs.Listed.{addresses};

use super::addresses::Addresses;
use super::splitting::{Parts, split};

const MOST_ADDRESSES: usize = 16;

// Whether the octets are groups that keep the rules, and nothing else.
#[tactic(auto, using(crate::proofs::Grouping::decides), unfolding(crate::proofs::Grouping::tests))]
pub fn are_groups(octets: &[u8]) -> bool
    ensures { MatchBool result (Grouped octets.now) (Grouped octets.now → ⊥) }
{
    let Parts { sym, asym, rest } = split(octets);
    rest.is_empty()
        && are_few(sym, asym)
        && sym.are_new(asym)
        && asym.are_new(Addresses { octets: &[] })
}

// Whether a Hello may list so many addresses.
fn are_few(sym: Addresses<'_>, asym: Addresses<'_>) -> bool
    ensures { result ≡ nat_le (length (addresses sym.entry ++ addresses asym.entry)) 16 }
{
    sym.len() + asym.len() <= MOST_ADDRESSES
}
