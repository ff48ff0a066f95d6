ghost use Rattle.std.specs.Prelude.{◌≡◌, Some};
ghost use Rattle.field_text.specs.Texts.{flag_text, flags_text, class_text, parent_text};

use crate::lists::write_list;
use field::{Address, EnergyClass, Flag, Flags};
use std::fmt;

// An energy class, as its name.
#[derive(Clone, Copy)]
pub struct ClassText(pub EnergyClass);

impl fmt::Display for ClassText {
    ghost output = { λ x. Some (class_text x.0) };

    fn fmt<W: fmt::Write>(&self, f: &mut fmt::Formatter<W>) -> fmt::Result {
        f.write_str(class_name(self.0))
    }
}

// Cannot fail, which `fmt` can.
pub fn class_name(class: EnergyClass) -> &'static str
    ensures { result.now ≡ class_text class }
{
    match class {
        EnergyClass::High => "high",
        EnergyClass::Medium => "medium",
        EnergyClass::Low => "low",
    }
}

// A parent, as its address or `none`.
#[derive(Clone, Copy)]
pub struct ParentText(pub Option<Address>);

impl fmt::Display for ParentText {
    ghost output = { λ x. Some (parent_text x.0) };

    fn fmt<W: fmt::Write>(&self, f: &mut fmt::Formatter<W>) -> fmt::Result {
        match self.0 {
            Some(Address(number)) => write!(f, "{number}"),
            None => f.write_str("none"),
        }
    }
}

// Flags, as the list of those that stand.
#[derive(Clone, Copy)]
pub struct FlagsText(pub Flags);

// In the order of a list.
const FLAGS: [Flag; 6] = [
    Flag::Coloured,
    Flag::Inconsistent,
    Flag::Stable,
    Flag::Unstable,
    Flag::TreeChange,
    Flag::NewNeighbour,
];

impl fmt::Display for FlagsText {
    ghost output = { λ x. Some (flags_text x.0.0) };

    fn fmt<W: fmt::Write>(&self, f: &mut fmt::Formatter<W>) -> fmt::Result {
        let FlagsText(flags) = *self;
        let standing = FLAGS.into_iter().filter(|flag| flags.has(*flag));
        write_list(standing.map(FlagText), ",", f)
    }
}

#[derive(Clone, Copy)]
struct FlagText(Flag);

impl fmt::Display for FlagText {
    ghost output = { λ x. Some (flag_text x.0) };

    fn fmt<W: fmt::Write>(&self, f: &mut fmt::Formatter<W>) -> fmt::Result {
        f.write_str(match self.0 {
            Flag::Coloured => "coloured",
            Flag::Inconsistent => "inconsistent",
            Flag::Stable => "stable",
            Flag::Unstable => "unstable",
            Flag::TreeChange => "tree-change",
            Flag::NewNeighbour => "new-neighbour",
        })
    }
}
