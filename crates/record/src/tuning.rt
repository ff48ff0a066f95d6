ghost use Rattle.std.specs.Prelude.{◌≡◌, MatchResult};
ghost use Rattle.record.specs.Tuning.{law_number, IsLaw};

// The cost law that a node goes by.
#[derive(Clone, Copy, PartialEq, Eq, Debug)]
pub enum LawNumber {
    Energy = 1,
    Hops = 2,
}

// A number that is no law's.
#[derive(Clone, Copy, PartialEq, Eq, Debug)]
pub struct UnknownLaw(pub u16);

// By hand, as for the codes of `field`: no derive reads a number.
impl TryFrom<u16> for LawNumber {
    type Error = UnknownLaw;

    ghost try_from_gives = { λ number result. MatchResult result (λ law. law_number law ≡ number) (λ unknown. (unknown.0 ≡ number) × (IsLaw number → ⊥)) };

    fn try_from(number: u16) -> Result<LawNumber, UnknownLaw> {
        match number {
            1 => Ok(LawNumber::Energy),
            2 => Ok(LawNumber::Hops),
            _ => Err(UnknownLaw(number)),
        }
    }
}

impl From<LawNumber> for u8 {
    ghost from_gives = { λ law number. number ≡ law_number law };

    fn from(law: LawNumber) -> u8 {
        law as u8
    }
}

// The numbers that a node is set to, before they are held to their limits.
#[derive(Clone, Copy, PartialEq, Eq, Debug)]
pub struct SettingsNumbers {
    pub law: u16,
    pub lambda: u16,
    pub beta: u16,
    // a neighbour is given up below this power
    pub low: u16,
    // and taken in at this one
    pub high: u16,
    pub neigh_hold: u16,
    pub tree_hold: u16,
    // in thousandths of a full battery
    pub energy_low: u16,
    pub energy_high: u16,
}
