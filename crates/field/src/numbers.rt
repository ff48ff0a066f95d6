ghost use Rattle.std.specs.Prelude.{◌≡◌, []};
ghost use Rattle.std.specs.Result.{result_ok};
ghost use Rattle.field.specs.Addresses.{address_of, number_or_0};
ghost use Rattle.field.specs.Wide.{wide, long};

// A node's address. 0 is no node's.
#[derive(Clone, Copy, PartialEq, Eq, Debug)]
pub struct Address(pub u16);

// The number 0, in a field that holds it for none.
#[derive(Clone, Copy, PartialEq, Eq, Debug)]
pub struct NoAddress;

// The cost of a way to a root.
pub type Cost = u16;

// Counts the waves of one root. A type of its own beside the next, since no step compares the two.
#[derive(Clone, Copy, PartialEq, Eq, Debug)]
pub struct WaveNumber(pub u16);

// Counts the changes of one coloured tree.
#[derive(Clone, Copy, PartialEq, Eq, Debug)]
pub struct TreeSequenceNumber(pub u16);

impl TryFrom<u16> for Address {
    type Error = NoAddress;

    ghost try_from_gives = { λ number r. result_ok r ≡ address_of number };

    fn try_from(number: u16) -> Result<Address, NoAddress> {
        if number == 0 {
            Err(NoAddress)
        } else {
            Ok(Address(number))
        }
    }
}

impl Address {
    // The number for a field that holds 0 for none. No `From`: both ends are types of other crates.
    pub fn number_or_0(address: Option<Address>) -> u16
        ensures { result ≡ number_or_0 address }
    {
        address.map_or(0, |Address(number)| number)
    }
}

// A number in two octets, the high one first. One function for both widths would have an array for its result whose
// length is computed, which Rattle has not.
pub fn two_octets(number: u16) -> [u8; 2]
    ensures { result ≡ wide number [] }
{
    number.to_be_bytes()
}

// A number in four octets, the high one first.
pub fn four_octets(value: u32) -> [u8; 4]
    ensures { result ≡ long value [] }
{
    value.to_be_bytes()
}
