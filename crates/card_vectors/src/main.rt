// Tries lines of cards that were worked out by hand.
#![tactic(auto)]

use capture::show;
use card_lines::inspect;
use std::io;
use trial::try_rows;

fn main(rt: HostRuntime) -> io::Result<()> {
    let tally = try_rows(&rt, |heap, line| show(heap, inspect(heap, line)))?;
    println!(rt; "{tally}")
}
