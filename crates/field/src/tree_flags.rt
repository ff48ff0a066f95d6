ghost use Rattle.std.specs.Prelude.{◌≡◌, MatchBool};
ghost use Rattle.field.specs.Bits.{UnusedClear, stands, suits};

use super::numbers::TreeSequenceNumber;

// What an STC or a Tree Status says of its tree, a bit for each flag.
#[derive(Clone, Copy, PartialEq, Eq, Debug)]
pub struct Flags(pub u8);

// By the weight of its bit.
#[derive(Clone, Copy, PartialEq, Eq, Debug)]
pub enum Flag {
    Inconsistent = 1,
    Stable = 2,
    Unstable = 4,
    TreeChange = 8,
    NewNeighbour = 16,
    Coloured = 128,
}

impl Flags {
    pub fn has(self, flag: Flag) -> bool
        ensures { result ≡ stands flag self.0 }
    {
        self.0 / flag as u8 % 2 == 1
    }

    // Whether bits 5 and 6, which are no flag's, are 0.
    pub fn are_known(self) -> bool
        ensures { MatchBool result (UnusedClear self.0) (UnusedClear self.0 → ⊥) }
    {
        self.0 % 128 < 32
    }

    // Whether an STC may have these flags with the number: a tree that is not coloured has neither.
    pub fn suit(self, tree: TreeSequenceNumber) -> bool
        ensures { result ≡ suits self.0 tree.0 }
    {
        self.are_known() && (self.has(Flag::Coloured) || (self.0 == 0 && tree.0 == 0))
    }
}
