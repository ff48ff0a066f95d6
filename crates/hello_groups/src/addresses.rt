ghost use Rattle.std.specs.Prelude.{◌≡◌, ◌<◌, ◌^◌, length};
ghost use Rattle.hello_groups.specs.Listed.{addresses};
ghost use Rattle.hello_groups.specs.Splitting.{stands_in, all_new};
ghost use Rattle.std.specs.Iterator.{YieldsFirstBy, at_most};

use field::Address;

// Addresses of two octets each, in order.
#[derive(Clone, Copy)]
pub struct Addresses<'a> {
    pub(crate) octets: &'a [u8],
}

impl<'a> Iterator for Addresses<'a> {
    type Item = Address;

    ghost next_gives = { YieldsFirstBy (λ a. a.0) addresses };

    ghost remaining = { λ s. at_most (length s.octets.now) };

    fn next(&mut self) -> Option<Address> {
        let [high, low, rest @ ..] = self.octets else {
            return None;
        };
        self.octets = rest;
        Some(Address(u16::from_be_bytes([*high, *low])))
    }
}

impl Addresses<'_> {
    // How many they are, by the octets: `count` would take one after the other.
    #[tactic(auto, using(crate::proofs::Grouping::length_halved))]
    pub(crate) fn len(&self) -> usize
        ensures all { result ≡ length (addresses self.now) }
        ensures fits { result < 2 ^ 63 }
    {
        self.octets.len() / 2
    }

    // Whether the address is one of them.
    pub(crate) fn contains(mut self, address: Address) -> bool
        ensures { result ≡ stands_in address.0 (addresses self.entry) }
    {
        self.any(|other| other == address)
    }

    // Whether none of them is 0, stands again further on, or stands among the others.
    pub(crate) fn are_new(mut self, others: Addresses<'_>) -> bool
        ensures { result ≡ all_new (addresses self.entry) (addresses others.entry) }
    {
        while let Some(address) = self.next() {
            if address.0 == 0 || self.contains(address) || others.contains(address) {
                return false;
            }
        }
        true
    }
}
