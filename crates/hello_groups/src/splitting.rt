// Octets taken apart into the groups of a Hello.
ghost use Rattle.std.specs.Prelude.{◌≡◌};
ghost use Rattle.field.specs.Codes.{link_code};
ghost use Rattle.hello_groups.specs.Listed.{addresses};
ghost use Rattle.hello_groups.specs.Splitting.{is_size, front, after, left_over, sym_in, asym_in};

use super::addresses::Addresses;
use field::LinkCode;

// The addresses under each code, and the octets behind both groups.
#[derive(Clone, Copy)]
pub struct Parts<'a> {
    pub sym: Addresses<'a>,
    pub asym: Addresses<'a>,
    pub rest: &'a [u8],
}

// Whether a group may have this size: whole addresses, one or more, within the octets at hand.
fn is_size(size: usize, most: usize) -> bool
    ensures { result ≡ is_size size most }
{
    size >= 4 && size % 2 == 0 && size <= most
}

// The addresses of the group of this code at the front, and the octets behind it.
fn split_group(octets: &[u8], code: LinkCode) -> (Addresses<'_>, &[u8])
    ensures front { result.0.octets.now ≡ front (link_code code) octets.now }
    ensures behind { result.1.now ≡ after (link_code code) octets.now }
{
    match octets {
        [first, size, ..] if *first == u8::from(code) && is_size(*size as usize, octets.len()) => {
            let (group, rest) = octets.split_at(*size as usize);
            let octets = &group[2..];
            (Addresses { octets }, rest)
        }
        _ => (Addresses { octets: &[] }, octets),
    }
}

#[tactic(auto, unfolding(crate::specs::Splitting::sym_in, crate::specs::Splitting::asym_in))]
pub fn split(octets: &[u8]) -> Parts<'_>
    ensures sym { addresses result.sym ≡ sym_in octets.now }
    ensures asym { addresses result.asym ≡ asym_in octets.now }
    ensures rest { result.rest.now ≡ left_over octets.now }
{
    let (sym, rest) = split_group(octets, LinkCode::Sym);
    let (asym, rest) = split_group(rest, LinkCode::Asym);
    Parts { sym, asym, rest }
}
