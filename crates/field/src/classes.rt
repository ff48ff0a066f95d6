ghost use Rattle.std.specs.Prelude.{◌≡◌, MatchResult};
ghost use Rattle.field.specs.Codes.{class_code, IsClass};

// How much energy a node has, by the code that stands for it.
#[derive(Clone, Copy, PartialEq, Eq, Debug)]
pub enum EnergyClass {
    High = 1,
    Medium = 2,
    Low = 3,
}

// A code that stands for no class.
#[derive(Clone, Copy, PartialEq, Eq, Debug)]
pub struct UnknownClass(pub u8);

// By hand, as for `Kind` and `LinkCode`: no derive gives or reads a code, and an impl by a macro of one's own cannot say
// `from_gives`.
impl From<EnergyClass> for u8 {
    ghost from_gives = { λ class code. code ≡ class_code class };

    fn from(class: EnergyClass) -> u8 {
        class as u8
    }
}

impl TryFrom<u8> for EnergyClass {
    type Error = UnknownClass;

    ghost try_from_gives = { λ code r. MatchResult r (λ class. class_code class ≡ code) (λ e. (e.0 ≡ code) × (IsClass code → ⊥)) };

    fn try_from(code: u8) -> Result<EnergyClass, UnknownClass> {
        match code {
            1 => Ok(EnergyClass::High),
            2 => Ok(EnergyClass::Medium),
            3 => Ok(EnergyClass::Low),
            _ => Err(UnknownClass(code)),
        }
    }
}
