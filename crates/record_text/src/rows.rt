ghost use Rattle.std.specs.Prelude.{◌≡◌, Some};
ghost use Rattle.record_text.specs.Texts.{neighbour_text, offer_text, tree_text, owed_text};

use field::{Address, TreeSequenceNumber, WaveNumber};
use field_text::{ClassText, FlagsText, ParentText};
use record::{NeighbourRow, TreeRow};
use std::fmt;

// A row of neighbours, in brackets.
#[derive(Clone, Copy)]
pub struct NeighbourText<'a>(pub &'a NeighbourRow);

impl fmt::Display for NeighbourText<'_> {
    ghost output = { λ x. Some (neighbour_text x.0.now) };

    #[tactic(auto, unfolding(crate::specs::Texts::neighbour_text))]
    fn fmt<W: fmt::Write>(&self, f: &mut fmt::Formatter<W>) -> fmt::Result {
        let NeighbourRow {
            address: Address(address),
            sym_until,
            heard_until,
            class,
            power,
        } = *self.0;
        write!(
            f,
            "[address={address} sym={sym_until} heard={heard_until} class={} power={power}]",
            ClassText(class),
        )
    }
}

// A row of trees, in brackets.
#[derive(Clone, Copy)]
pub struct TreeText<'a>(pub &'a TreeRow);

impl fmt::Display for TreeText<'_> {
    ghost output = { λ x. Some (tree_text x.0.now) };

    #[tactic(auto, unfolding(crate::specs::Texts::tree_text))]
    fn fmt<W: fmt::Write>(&self, f: &mut fmt::Formatter<W>) -> fmt::Result {
        let TreeRow {
            valid_until,
            ttl,
            flags,
            tree: TreeSequenceNumber(tree),
            owed,
            ..
        } = *self.0;
        write!(
            f,
            "{} valid={valid_until} ttl={ttl} flags={} tree={tree} owed={}]",
            OfferText(self.0),
            FlagsText(flags),
            owed_name(owed),
        )
    }
}

// The front of a row of trees: the way to the root.
// A type of its own, since no proof is found of one format with so many holes.
#[derive(Clone, Copy)]
struct OfferText<'a>(&'a TreeRow);

impl fmt::Display for OfferText<'_> {
    ghost output = { λ x. Some (offer_text x.0.now) };

    #[tactic(auto, unfolding(crate::specs::Texts::offer_text))]
    fn fmt<W: fmt::Write>(&self, f: &mut fmt::Formatter<W>) -> fmt::Result {
        let TreeRow {
            root: Address(root),
            wave: WaveNumber(wave),
            cost,
            parent,
            ..
        } = *self.0;
        write!(
            f,
            "[root={root} wave={wave} cost={cost} parent={}",
            ParentText(parent),
        )
    }
}

// Two words, which a type with a `Display` of its own would only surround.
fn owed_name(owed: bool) -> &'static str
    ensures { result.now ≡ owed_text owed }
{
    if owed { "yes" } else { "no" }
}
