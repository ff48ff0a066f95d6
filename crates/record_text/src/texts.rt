ghost use Rattle.std.specs.Prelude.{Some};
ghost use Rattle.record.specs.Records.{state};
ghost use Rattle.record_text.specs.Texts.{record_text};

use crate::rows::{NeighbourText, TreeText};
use field_text::{ClassText, write_list};
use record::Record;
use std::fmt;

// A record, as each field by name and then the rows.
#[derive(Clone, Copy)]
pub struct RecordText<'a>(pub &'a Record);

impl fmt::Display for RecordText<'_> {
    ghost output = { λ x. Some (record_text (state x.0.now)) };

    fn fmt<W: fmt::Write>(&self, f: &mut fmt::Formatter<W>) -> fmt::Result {
        let held = self.0;
        write!(
            f,
            "Record address={} class={} number={} latest={} neighbours=",
            held.address.0,
            ClassText(held.class),
            held.number,
            held.latest,
        )?;
        let neighbours = held.neighbours.as_slice().iter();
        write_list(neighbours.map(NeighbourText), "", f)?;
        f.write_str(" trees=")?;
        let trees = held.trees.as_slice().iter();
        write_list(trees.map(TreeText), "", f)
    }
}
