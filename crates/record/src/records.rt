ghost use Rattle.std.specs.Prelude.{◌≡◌, ◌≤◌, true};
ghost use Rattle.table.specs.Rows.{rows};
ghost use Rattle.record.specs.Lawful.{lawful_neighbours, lawful_trees};

use crate::faults::{RecordFault, TimeFault};
use crate::rows::{NeighbourRow, Neighbours, TreeRow, Trees};
use field::{Address, EnergyClass};
use table::are_apart;

// The last second that a call may come at.
const LAST_TIME: u32 = 4_000_000_000;

// What a node remembers, each list the oldest first. The ghost fields say that it is lawful.
#[derive(Clone, Copy)]
pub struct Record {
    pub address: Address,
    pub class: EnergyClass,
    // of the last Hello
    pub number: u8,
    pub latest: u32,
    pub neighbours: Neighbours,
    pub trees: Trees,
    ghost address_from: { 1 ≤ address.0 },
    ghost latest_to: { latest ≤ 4000000000 },
    ghost neighbours_lawful: { lawful_neighbours address.0 (rows neighbours) ≡ true },
    ghost trees_lawful: { lawful_trees (rows trees) ≡ true },
}

impl Record {
    ghost use Rattle.record.specs.Records.{MakesRecord, state};
    ghost use Rattle.record.specs.Settling.{Settles, timely};

    // The record of these fields, if it is lawful.
    pub fn new(
        address: Address,
        class: EnergyClass,
        number: u8,
        latest: u32,
        neighbours: Neighbours,
        trees: Trees,
    ) -> Result<Record, RecordFault>
        ensures { MakesRecord (record { address = address.0; class = class; number = number; latest = latest; neighbours = rows neighbours; trees = rows trees }) result }
    {
        if address.0 == 0
            || latest > LAST_TIME
            || !are_lawful_neighbours(neighbours.as_slice(), address)
            || !are_lawful_trees(trees.as_slice())
        {
            return Err(RecordFault::Unlawful);
        }
        Ok(Record {
            address,
            class,
            number,
            latest,
            neighbours,
            trees,
        })
    }

    // Brings the record to the time, which becomes the latest; a refusal changes nothing.
    pub fn settle(&mut self, time: u32) -> Result<(), TimeFault>
        ensures { Settles time (state self.old) (state self.new) result }
    {
        if !self.is_timely(time) {
            return Err(TimeFault::OutOfRange);
        }
        self.latest = time;
        self.neighbours.retain(|row| row.is_heard(time));
        let own = self.address;
        let near = self.neighbours.as_slice();
        self.trees.update(|row| row.lapse(own, near, time));
        Ok(())
    }

    // Whether the record may be brought to the time.
    fn is_timely(&self, time: u32) -> bool
        ensures { result ≡ timely time self.now.latest }
    {
        (1..=LAST_TIME).contains(&time) && self.latest <= time
    }
}

// Beside `are_lawful_trees`: one function that takes the test as a closure would be longer than both.
fn are_lawful_neighbours(rows: &[NeighbourRow], own: Address) -> bool
    ensures { result ≡ lawful_neighbours own.0 rows.now }
{
    rows.iter().all(|row| row.is_lawful(own)) && are_apart(rows)
}

fn are_lawful_trees(rows: &[TreeRow]) -> bool
    ensures { result ≡ lawful_trees rows.now }
{
    rows.iter().all(|row| row.is_lawful()) && are_apart(rows)
}
