use crate::rows::Row;
use crate::tallies::Tally;
use std::alloc::{AllocError, Global};
use std::io;
use std::io::{BufRead, BufReader};

// Tries each row of the input, and prints those whose line is not shown as expected.
pub fn try_rows<R, F>(rt: &R, show: F) -> io::Result<Tally>
where
    R: Input + Print + AllocGlobal,
    F: Fn(Global, &[u8]) -> Result<String, AllocError>,
    requires { F.IsAlwaysCallable show }
{
    let mut tally = Tally::new();
    for text in BufReader::new(rt.alloc(), rt.reader())?.lines(rt.alloc()) {
        let text = text?;
        // no `?`: what is no row is told, and the next row is tried
        let Some(Row { about, line, shown }) = Row::read(text.as_str()) else {
            println!(rt; "no row: {text}")?;
            tally = tally.count(false);
            continue;
        };
        let found = show(rt.alloc(), line.as_bytes())?;
        let right = found.as_str() == shown;
        if !right {
            println!(rt; "{about}: {found}")?;
        }
        tally = tally.count(right);
    }
    Ok(tally)
}
