ghost use Rattle.std.specs.Prelude.{◌≡◌, ℕ, ◌<◌, ◌≤◌, ◌^◌, Bool, true, [], List, length, MatchOption, ◌≢◌};
ghost use Rattle.card.specs.Octets.{joined, BeginsWith};
ghost use Rattle.card.specs.Placing.{placed};
ghost use Rattle.std.specs.List.{list_all};
ghost use Rattle.table.specs.Rows.{rows};

use table::Table;

// A row that takes W octets.
pub trait CardRow<const W: usize>: Copy {
    ghost written: { Self → List ℕ };

    // no parent is written as 0, so an address of 0 for a parent is not plain
    ghost plain: { Self → Bool };

    fn octets(&self) -> [u8; W]
        ensures { result ≡ written self.now };

    fn read(octets: &[u8; W]) -> Option<Self>
        ensures { MatchOption result ((x : Self) → written x ≢ octets.now) (λ x. (written x ≡ octets.now) × (plain x ≡ true)) };

    ghost sized: { (x : Self) → length (written x) ≡ W };

    // no array is longer
    ghost fits: { W < 2 ^ 63 };
}

// So many rows from the front of the octets into a table of none, at most N of them; answers the octets behind them.
pub fn read_rows<'a, R: CardRow<W>, const W: usize, const N: usize>(
    count: u8,
    octets: &'a [u8],
    all: &mut Table<R, N>,
) -> Option<&'a [u8]>
    requires { rows all.old ≡ [] }
    ensures { MatchOption result ((xs : List R) (behind : _) → length xs ≤ N → BeginsWith R.CardRow.written octets.now count xs behind → ⊥) (λ left. BeginsWith R.CardRow.written octets.now count (rows all.new) left.now × (list_all R.CardRow.plain (rows all.new) ≡ true)) }
{
    let mut left = octets;
    for _ in 0..count {
        let (row, rest) = left.split_first_chunk::<W>()?;
        all.push(R::read(row)?).ok()?;
        left = rest;
    }
    Some(left)
}

// Fills the front of the output with the rows; the rest remains. By places, since no proof knows what is left by a write
// through `chunks_exact_mut`, or through a `&mut` that is moved on from row to row.
#[tactic(auto, using(crate::proofs::Joined::joined_part))]
pub fn put_rows<R: CardRow<W>, const W: usize>(all: &[R], out: &mut [u8])
    requires { length (joined R.CardRow.written all.now) ≤ length out.old }
    ensures { out.new ≡ placed out.old 0 (joined R.CardRow.written all.now) }
{
    for (i, row) in all.iter().enumerate() {
        let at = i * W;
        out[at..at + W].copy_from_slice(&row.octets());
    }
}
