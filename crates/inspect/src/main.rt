// Shows captured messages, a line of hexadecimal octets each.
#![tactic(auto)]

use capture::{LineFault, Shown, inspect_line};
use std::io;
use std::io::{BufRead, BufReader};

fn main(rt: HostRuntime) -> io::Result<()> {
    let mut messages = 0u64;
    let mut refusals = 0u64;
    for line in BufReader::new(rt.alloc(), rt.stdin())?.split(rt.alloc(), b'\n') {
        let inspected = inspect_line(rt.alloc(), line?.as_slice());
        if let Err(LineFault::NoMemory(error)) = inspected {
            return Err(error.into());
        }
        println!(rt; "{}", Shown(&inspected))?;
        if inspected.is_ok() {
            messages = messages.saturating_add(1);
        } else {
            refusals = refusals.saturating_add(1);
        }
    }
    println!(rt; "messages read: {messages}, lines refused: {refusals}")
}
