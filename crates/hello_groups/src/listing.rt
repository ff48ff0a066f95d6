ghost use Rattle.std.specs.Prelude.{◌≡◌, ◌++◌, MatchBool};
ghost use Rattle.hello_groups.specs.Listed.{listed_as, addresses};
ghost use Rattle.hello_groups.specs.Groups.{Grouped};
ghost use Rattle.hello_groups.specs.Splitting.{stands_in, sym_in, asym_in};

use super::addresses::Addresses;
use super::rules::are_groups;
use super::splitting::{Parts, split};
use field::{Address, LinkCode};

// Octets that are to be groups; whether they are is asked where a Hello is made of them.
#[derive(Clone, Copy)]
pub struct Groups<'a>(pub &'a [u8]);

impl<'a> Groups<'a> {
    // Whether the octets are groups that keep the rules, and nothing else.
    pub fn keep_rules(self) -> bool
        ensures { MatchBool result (Grouped self.entry.0.now) (Grouped self.entry.0.now → ⊥) }
    {
        are_groups(self.0)
    }

    // Whether the address stands under either code.
    #[tactic(auto, using(crate::proofs::Distinct::stands_append))]
    pub fn list(self, address: Address) -> bool
        ensures { result ≡ stands_in address.0 (sym_in self.entry.0.now ++ asym_in self.entry.0.now) }
    {
        let Parts { sym, asym, .. } = split(self.0);
        sym.contains(address) || asym.contains(address)
    }

    pub fn addresses(self, code: LinkCode) -> Addresses<'a>
        ensures { addresses result ≡ listed_as code self.entry.0.now }
    {
        let Parts { sym, asym, .. } = split(self.0);
        match code {
            LinkCode::Sym => sym,
            LinkCode::Asym => asym,
        }
    }
}
