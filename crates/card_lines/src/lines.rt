ghost use Rattle.card_lines.specs.Inspecting.{InspectsAny, InspectsCard};

use super::rewriting::rewrite_card;
use capture::{LineFault, inspect_line, read_octets};
use record_text::RecordText;
use std::alloc::Global;

// A line that begins with `card` is a card, any other a message.
pub fn inspect(heap: Global, line: &[u8]) -> Result<String, LineFault>
    ensures { InspectsAny line.now result }
{
    match line.strip_prefix(b"card") {
        Some(card) => inspect_card(heap, card),
        None => inspect_line(heap, line),
    }
}

// The record whose card the line spells, with its fields, and whether it is written again as it was read. Beside
// `inspect_line`: each line calls what is of records alone, and one trait for both would have a method for each line.
fn inspect_card(heap: Global, line: &[u8]) -> Result<String, LineFault>
    ensures { InspectsCard line.now result }
{
    let octets = read_octets(heap, line)?.ok_or(LineFault::NoOctets)?;
    let octets = octets.as_slice();
    let held = card::read(octets)?;
    let rewritten = rewrite_card(&held, octets);
    Ok(format!(in heap; "{} rewritten={rewritten}", RecordText(&held))?)
}
