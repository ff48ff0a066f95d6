ghost use Rattle.frame.specs.Writing.{Writes};

use super::faults::WriteFault;

// Fills the front of the output with the octets; the rest remains.
pub fn put(octets: &[u8], out: &mut [u8]) -> Result<usize, WriteFault>
    ensures { Writes octets.now out.old out.new result }
{
    let len = octets.len();
    if out.len() < len {
        return Err(WriteFault::OutputTooShort);
    }
    out[0..len].copy_from_slice(octets);
    Ok(len)
}
