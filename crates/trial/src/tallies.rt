ghost use Rattle.std.specs.Prelude.{◌≡◌, ◌+◌, ◌-◌, ◌^◌, ◌≤◌, min, if◌then◌else◌, Some};

use std::fmt;

// How many rows were tried, and how many of their lines were shown as expected.
#[derive(Clone, Copy)]
pub struct Tally {
    rows: u64,
    right: u64,
    ghost within: { right ≤ rows },
}

impl Tally {
    pub(crate) fn new() -> Tally
        ensures none { result.rows ≡ 0 }
        ensures right { result.right ≡ 0 }
    {
        Tally { rows: 0, right: 0 }
    }

    // One row more.
    pub(crate) fn count(self, right: bool) -> Tally
        ensures rows { result.rows ≡ min (self.rows + 1) (2 ^ 64 - 1) }
        ensures right { result.right ≡ (if right then min (self.right + 1) (2 ^ 64 - 1) else self.right) }
    {
        Tally {
            rows: self.rows.saturating_add(1),
            right: self.right.saturating_add(u64::from(right)),
        }
    }
}

impl fmt::Display for Tally {
    ghost use Rattle.trial.specs.Texts.{tally_text};

    ghost output = { λ t. Some (tally_text t) };

    fn fmt<W: fmt::Write>(&self, f: &mut fmt::Formatter<W>) -> fmt::Result {
        write!(
            f,
            "{} of {} lines are shown as expected",
            self.right, self.rows
        )
    }
}
