ghost use Rattle.frame.specs.Octets.{octets};
ghost use Rattle.frame.specs.Reading.{Reads};
ghost use Rattle.frame.specs.Messages.{values};
ghost use Rattle.frame.specs.Writing.{Writes};

use super::faults::{ReadFault, WriteFault};
use super::hellos::Hello;
use super::outputs::put;
use super::stcs::Stc;
use super::tree_statuses::TreeStatus;
use field::Kind;

#[derive(Clone, Copy)]
pub enum Message<'a> {
    Hello(Hello<'a>),
    Stc(Stc),
    TreeStatus(TreeStatus),
}

// The message that the octets are, or the first rule that they break.
pub fn read(octets: &[u8]) -> Result<Message<'_>, ReadFault>
    ensures { Reads octets.now result }
{
    let [code, size, rest @ ..] = octets else {
        return Err(ReadFault::Short);
    };
    let kind = Kind::try_from(*code)?;
    if *size as usize != octets.len() {
        return Err(ReadFault::WrongSize);
    }
    Ok(match kind {
        Kind::Hello => Message::Hello(Hello::read(octets)?),
        Kind::Stc => Message::Stc(Stc::read(rest)?),
        Kind::TreeStatus => Message::TreeStatus(TreeStatus::read(rest)?),
    })
}

impl Message<'_> {
    // Fills the front of the output with the message; the rest remains.
    pub fn write(self, out: &mut [u8]) -> Result<usize, WriteFault>
        ensures { Writes (octets (values self.entry)) out.old out.new result }
    {
        match self {
            Message::Hello(message) => message.write(out),
            Message::Stc(message) => put(&message.octets(), out),
            Message::TreeStatus(message) => put(&message.octets(), out),
        }
    }
}
