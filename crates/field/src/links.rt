ghost use Rattle.std.specs.Prelude.{◌≡◌};
ghost use Rattle.field.specs.Codes.{link_code};

// What a Hello says of the links to the addresses of a group: heard both ways, or one way only.
#[derive(Clone, Copy, PartialEq, Eq, Debug)]
pub enum LinkCode {
    Sym = 1,
    Asym = 2,
}

// By hand, as for `EnergyClass`.
impl From<LinkCode> for u8 {
    ghost from_gives = { λ link code. code ≡ link_code link };

    fn from(link: LinkCode) -> u8 {
        link as u8
    }
}
