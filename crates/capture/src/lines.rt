ghost use Rattle.capture.specs.Inspecting.{Inspects, Shows, shown_text};
ghost use Rattle.std.specs.Prelude.{IfOk, Some, string_bytes};

use super::faults::LineFault;
use super::hexadecimal::read_octets;
use super::rewriting::rewrite;
use message_text::MessageText;
use std::alloc::{AllocError, Global};
use std::fmt;

// The message that the line spells, with its fields, and whether it is written again as it was read.
pub fn inspect_line(heap: Global, line: &[u8]) -> Result<String, LineFault>
    ensures { Inspects line.now result }
{
    let octets = read_octets(heap, line)?.ok_or(LineFault::NoOctets)?;
    let octets = octets.as_slice();
    let message = frame::read(octets)?;
    let rewritten = rewrite(message, octets);
    Ok(format!(in heap; "{} rewritten={rewritten}", MessageText(message))?)
}

// What is printed of an inspected line.
pub fn show(heap: Global, inspected: Result<String, LineFault>) -> Result<String, AllocError>
    ensures { IfOk result (λ t. Shows inspected (string_bytes t)) }
{
    match inspected {
        Ok(text) => Ok(text),
        Err(LineFault::NoMemory(error)) => Err(error),
        Err(refusal) => refusal.to_string(heap),
    }
}

// What is printed of an inspected line, without memory for it.
#[derive(Clone, Copy)]
pub struct Shown<'a>(pub &'a Result<String, LineFault>);

impl fmt::Display for Shown<'_> {
    ghost output = { λ x. Some (shown_text x.0.now) };

    fn fmt<W: fmt::Write>(&self, f: &mut fmt::Formatter<W>) -> fmt::Result {
        match self.0 {
            Ok(text) => f.write_str(text.as_str()),
            Err(refusal) => refusal.fmt(f),
        }
    }
}
