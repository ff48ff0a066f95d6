ghost use Rattle.std.specs.Prelude.{List, ℕ, map, IsOk};
ghost use Rattle.std.specs.Iterator.{Drains, IsFinite};
ghost use Rattle.std.specs.Fmt.{WritesOnOk};
ghost use Rattle.field_text.specs.Texts.{WrittenAs, list_text};

use std::fmt;

// Writes the items with the separator between, or that there is none.
pub fn write_list<I: Iterator, W: fmt::Write>(
    mut items: I,
    separator: &str,
    f: &mut fmt::Formatter<W>,
) -> fmt::Result
where
    I::Item: fmt::Display + Drop,
    requires can { I.can_next items }
    requires ends { IsFinite (I.remaining items) }
    ensures { IsOk result → (xs : List I.Item) × Drains I.next_gives items xs
        × ((show : I.Item → List ℕ) → WrittenAs I.Item.output show
        → WritesOnOk W.write_str_gives f.old result (list_text separator.now (map show xs)) f.new) }
{
    // no `?`: an empty list is written too
    let Some(first) = items.next() else {
        return f.write_str("none");
    };
    write!(f, "{first}")?;
    for item in items {
        write!(f, "{separator}{item}")?;
    }
    Ok(())
}
