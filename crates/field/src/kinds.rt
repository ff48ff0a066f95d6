ghost use Rattle.std.specs.Prelude.{◌≡◌, MatchResult};
ghost use Rattle.field.specs.Codes.{kind_code, IsKind};

// What a message is, by its first octet.
#[derive(Clone, Copy, PartialEq, Eq, Debug)]
pub enum Kind {
    Hello = 1,
    Stc = 2,
    TreeStatus = 3,
}

// An octet that no message begins with.
#[derive(Clone, Copy, PartialEq, Eq, Debug)]
pub struct UnknownKind(pub u8);

// By hand, as for `EnergyClass`.
impl From<Kind> for u8 {
    ghost from_gives = { λ kind code. code ≡ kind_code kind };

    fn from(kind: Kind) -> u8 {
        kind as u8
    }
}

impl TryFrom<u8> for Kind {
    type Error = UnknownKind;

    ghost try_from_gives = { λ code r. MatchResult r (λ kind. kind_code kind ≡ code) (λ e. (e.0 ≡ code) × (IsKind code → ⊥)) };

    fn try_from(code: u8) -> Result<Kind, UnknownKind> {
        match code {
            1 => Ok(Kind::Hello),
            2 => Ok(Kind::Stc),
            3 => Ok(Kind::TreeStatus),
            _ => Err(UnknownKind(code)),
        }
    }
}
