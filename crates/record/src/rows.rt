ghost use Rattle.std.specs.Prelude.{◌≡◌};
ghost use Rattle.record.specs.Lawful.{lawful_neighbour, lawful_tree};
ghost use Rattle.record.specs.Settling.{heard, held, lapses, lapsed};
ghost use Rattle.record.specs.Symmetry.{symmetric, linked};

use field::{Address, Cost, EnergyClass, Flags, TreeSequenceNumber, WaveNumber};
use table::{Keyed, Table, find};

// The longest hold after the last time.
const LAST_UNTIL: u32 = 4_000_000_255;

// A neighbour, as it was last heard. Times are in seconds.
#[derive(Clone, Copy, PartialEq, Eq, Debug)]
pub struct NeighbourRow {
    pub address: Address,
    pub sym_until: u32,
    pub heard_until: u32,
    pub class: EnergyClass,
    pub power: u8,
}

// What is held of the tree of one root.
#[derive(Clone, Copy, PartialEq, Eq, Debug)]
pub struct TreeRow {
    pub root: Address,
    pub wave: WaveNumber,
    pub cost: Cost,
    pub parent: Option<Address>,
    pub valid_until: u32,
    pub ttl: u8,
    pub flags: Flags,
    pub tree: TreeSequenceNumber,
    // an STC is still to be sent
    pub owed: bool,
}

pub type Neighbours = Table<NeighbourRow, 16>;

pub type Trees = Table<TreeRow, 4>;

impl Keyed for NeighbourRow {
    ghost keyed = { λ row. row.address.0 };

    fn key(&self) -> u16 {
        self.address.0
    }
}

impl Keyed for TreeRow {
    ghost keyed = { λ row. row.root.0 };

    fn key(&self) -> u16 {
        self.root.0
    }
}

impl NeighbourRow {
    // Fills a table where it has no rows.
    pub const FILLER: NeighbourRow = NeighbourRow {
        address: Address(0),
        sym_until: 0,
        heard_until: 0,
        class: EnergyClass::High,
        power: 0,
    };

    pub fn is_symmetric(&self, time: u32) -> bool
        ensures { result ≡ symmetric time self.now }
    {
        time <= self.sym_until
    }

    pub(crate) fn is_heard(&self, time: u32) -> bool
        ensures { result ≡ heard time self.now }
    {
        time <= self.heard_until
    }

    // Whether a node of this address may hold the row.
    pub(crate) fn is_lawful(&self, own: Address) -> bool
        ensures { result ≡ lawful_neighbour own.0 self.now }
    {
        self.address.0 > 0
            && self.address != own
            && self.sym_until <= LAST_UNTIL
            && self.heard_until <= LAST_UNTIL
    }
}

impl TreeRow {
    // Fills a table where it has no rows.
    pub const FILLER: TreeRow = TreeRow {
        root: Address(0),
        wave: WaveNumber(0),
        cost: 0,
        parent: None,
        valid_until: 0,
        ttl: 0,
        flags: Flags(0),
        tree: TreeSequenceNumber(0),
        owed: false,
    };

    // Whether a node may hold the row.
    pub(crate) fn is_lawful(&self) -> bool
        ensures { result ≡ lawful_tree self.now }
    {
        self.root.0 > 0
            && self.wave.0 > 0
            && self.parent.is_none_or(|parent| parent.0 > 0)
            && self.valid_until <= LAST_UNTIL
            && self.ttl <= 32
            && self.flags.suit(self.tree)
            && (!self.owed || self.ttl > 0)
    }

    // Whether there is a parent, and it is a symmetric neighbour. Neighbours and time go on through three short methods, each of
    // which would take a struct of the two apart again.
    fn is_held(&self, near: &[NeighbourRow], time: u32) -> bool
        ensures { result ≡ held near.now time self.now.parent }
    {
        self.parent
            .is_some_and(|parent| is_symmetric(near, time, parent))
    }

    // Whether the row is of another root, and past or without a symmetric parent.
    fn is_lapsed(&self, own: Address, near: &[NeighbourRow], time: u32) -> bool
        ensures { result ≡ lapses own.0 near.now time self.now }
    {
        self.root != own && (self.valid_until < time || !self.is_held(near, time))
    }

    // Such a row loses its parent, and owes nothing.
    pub(crate) fn lapse(&mut self, own: Address, near: &[NeighbourRow], time: u32)
        ensures { self.new ≡ lapsed own.0 near.now time self.old }
    {
        if self.is_lapsed(own, near, time) {
            self.parent = None;
            self.owed = false;
        }
    }
}

// Whether the address is that of a symmetric neighbour.
pub fn is_symmetric(rows: &[NeighbourRow], time: u32, address: Address) -> bool
    ensures { result ≡ linked rows.now time address.0 }
{
    find(rows, address.0).is_some_and(|row| row.is_symmetric(time))
}
