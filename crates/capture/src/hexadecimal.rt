ghost use Rattle.std.specs.Prelude.{◌≡◌, ◌<◌, IfSome, IfOk, vec_items};
ghost use Rattle.capture.specs.Hexadecimal.{blank, digit, octet, spelt};
ghost use Rattle.std.specs.Option.{option_map};

use std::alloc::{AllocError, Global};

fn is_blank(c: u8) -> bool
    ensures { result ≡ blank c }
{
    matches!(c, b' ' | b'\t' | b'\r')
}

fn digit_of(c: u8) -> Option<u32>
    ensures value { result ≡ digit c }
    ensures bound { IfSome result (λ d. d < 16) }
{
    char::from(c).to_digit(16)
}

fn octet_of(first: u8, second: u8) -> Option<u8>
    ensures { result ≡ octet (digit first) (digit second) }
{
    let high = digit_of(first)?;
    let low = digit_of(second)?;
    Some((high * 16 + low) as u8)
}

// The octets that a line spells, or none where it is no list of octets.
pub fn read_octets(heap: Global, line: &[u8]) -> Result<Option<Vec<u8>>, AllocError>
    ensures { IfOk result (λ o. option_map vec_items o ≡ spelt line.now) }
{
    let mut octets = Vec::new(heap);
    let mut left = line;
    while let [first, rest @ ..] = left {
        if is_blank(*first) {
            left = rest;
            continue;
        }
        let [_, second, rest @ ..] = left else {
            return Ok(None);
        };
        // no `?`: a line that is no list of octets is an answer, and want of memory the error
        let Some(octet) = octet_of(*first, *second) else {
            return Ok(None);
        };
        octets.push(octet)?;
        left = rest;
    }
    Ok(Some(octets))
}
