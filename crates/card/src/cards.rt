ghost use Rattle.std.specs.Prelude.{◌≡◌, []};
ghost use Rattle.card.specs.Cards.{ReadsCard};
ghost use Rattle.card.specs.Octets.{card, headed};
ghost use Rattle.frame.specs.Writing.{Writes};
ghost use Rattle.record.specs.Records.{state};

use crate::listed::{put_rows, read_rows};
use crate::neighbour_rows::NEIGHBOUR_OCTETS;
use crate::tree_rows::TREE_OCTETS;
use field::{Address, EnergyClass, four_octets, two_octets};
use frame::WriteFault;
use record::{NeighbourRow, Record, RecordFault, TreeRow};
use table::Table;

const HEAD_OCTETS: usize = 10;

// The record whose card the octets are.
pub fn read(octets: &[u8]) -> Result<Record, RecordFault>
    ensures { ReadsCard octets.now result }
{
    let (head, rows) = octets
        .split_first_chunk::<HEAD_OCTETS>()
        .ok_or(RecordFault::Unlawful)?;
    let [a1, a0, class, number, l3, l2, l1, l0, near, far] = *head;
    let class = EnergyClass::try_from(class)
        .ok()
        .ok_or(RecordFault::Unlawful)?;
    let behind = usize::from(near) * NEIGHBOUR_OCTETS;
    if rows.len() != behind + usize::from(far) * TREE_OCTETS {
        return Err(RecordFault::Unlawful);
    }
    let mut neighbours = Table::new(NeighbourRow::FILLER);
    let left = read_rows(near, rows, &mut neighbours).ok_or(RecordFault::Unlawful)?;
    let mut trees = Table::new(TreeRow::FILLER);
    read_rows(far, left, &mut trees).ok_or(RecordFault::Unlawful)?;
    Record::new(
        Address(u16::from_be_bytes([a1, a0])),
        class,
        number,
        u32::from_be_bytes([l3, l2, l1, l0]),
        neighbours,
        trees,
    )
}

// Octet by octet, as `read` takes them.
fn head_of(held: &Record) -> [u8; HEAD_OCTETS]
    ensures { result ≡ headed (state held.now) [] }
{
    let [a1, a0] = two_octets(held.address.0);
    let class = held.class.into();
    let [l3, l2, l1, l0] = four_octets(held.latest);
    let neighbours = held.neighbours.len() as u8;
    let trees = held.trees.len() as u8;
    [
        a1,
        a0,
        class,
        held.number,
        l3,
        l2,
        l1,
        l0,
        neighbours,
        trees,
    ]
}

// Fills the front of the output with the record's card; the rest remains.
#[tactic(auto, using(crate::proofs::OneCard::card_length, crate::proofs::OneCard::neighbours_length, crate::proofs::OneCard::trees_length))]
pub fn write(held: &Record, out: &mut [u8]) -> Result<usize, WriteFault>
    ensures { Writes (card (state held.now)) out.old out.new result }
{
    let neighbours = held.neighbours.as_slice();
    let trees = held.trees.as_slice();
    let behind = neighbours.len() * NEIGHBOUR_OCTETS;
    let len = HEAD_OCTETS + behind + trees.len() * TREE_OCTETS;
    if out.len() < len {
        return Err(WriteFault::OutputTooShort);
    }
    let (head, rows) = out.split_at_mut(HEAD_OCTETS);
    let (near, far) = rows.split_at_mut(behind);
    head.copy_from_slice(&head_of(held));
    put_rows(neighbours, near);
    put_rows(trees, far);
    Ok(len)
}
