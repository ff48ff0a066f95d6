// Tries lines of captured messages that were worked out by hand.
#![tactic(auto)]

use capture::{inspect_line, show};
use std::io;
use trial::try_rows;

#[cfg(test)]
mod tests;

fn main(rt: HostRuntime) -> io::Result<()> {
    let tally = try_rows(&rt, |heap, line| show(heap, inspect_line(heap, line)))?;
    println!(rt; "{tally}")
}
