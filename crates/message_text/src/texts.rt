ghost use Rattle.std.specs.Prelude.{Some};
ghost use Rattle.message_text.specs.Texts.{addresses_text, hello_text, offer_text, stc_text, tree_status_text, message_text};
ghost use Rattle.hello_groups.specs.Listed.{addresses};

use field::{Address, LinkCode, TreeSequenceNumber, WaveNumber};
use field_text::{ClassText, FlagsText, ParentText, write_list};
use frame::{HelloFields, Message, StcFields, TreeStatusFields};
use hello_groups::Addresses;
use std::fmt;

// A message, as its kind and then each field by name.
#[derive(Clone, Copy)]
pub struct MessageText<'a>(pub Message<'a>);

impl fmt::Display for MessageText<'_> {
    ghost output = { λ x. Some (message_text x.0) };

    fn fmt<W: fmt::Write>(&self, f: &mut fmt::Formatter<W>) -> fmt::Result {
        match self.0 {
            Message::Hello(message) => HelloText(message.fields()).fmt(f),
            Message::Stc(message) => StcText(message.fields()).fmt(f),
            Message::TreeStatus(message) => TreeStatusText(message.fields()).fmt(f),
        }
    }
}

#[derive(Clone, Copy)]
struct HelloText<'a>(HelloFields<'a>);

impl fmt::Display for HelloText<'_> {
    ghost output = { λ x. Some (hello_text x.0) };

    #[tactic(auto, unfolding(crate::specs::Texts::hello_text))]
    fn fmt<W: fmt::Write>(&self, f: &mut fmt::Formatter<W>) -> fmt::Result {
        let HelloFields {
            sender: Address(sender),
            number,
            vtime,
            class,
            groups,
        } = self.0;
        write!(
            f,
            "Hello sender={sender} number={number} vtime={vtime} class={} sym={} asym={}",
            ClassText(class),
            AddressesText(groups.addresses(LinkCode::Sym)),
            AddressesText(groups.addresses(LinkCode::Asym)),
        )
    }
}

#[derive(Clone, Copy)]
struct StcText(StcFields);

impl fmt::Display for StcText {
    ghost output = { λ x. Some (stc_text x.0) };

    #[tactic(auto, unfolding(crate::specs::Texts::stc_text))]
    fn fmt<W: fmt::Write>(&self, f: &mut fmt::Formatter<W>) -> fmt::Result {
        let StcFields {
            vtime,
            ttl,
            flags,
            tree: TreeSequenceNumber(tree),
            ..
        } = self.0;
        write!(
            f,
            "{} vtime={vtime} ttl={ttl} flags={} tree={tree}",
            OfferText(self.0),
            FlagsText(flags),
        )
    }
}

// The front of an STC: the way to the root that it offers.
// A type of its own, since no proof is found of one format with so many holes.
#[derive(Clone, Copy)]
struct OfferText(StcFields);

impl fmt::Display for OfferText {
    ghost output = { λ x. Some (offer_text x.0) };

    #[tactic(auto, unfolding(crate::specs::Texts::offer_text))]
    fn fmt<W: fmt::Write>(&self, f: &mut fmt::Formatter<W>) -> fmt::Result {
        let StcFields {
            sender: Address(sender),
            wave: WaveNumber(wave),
            root: Address(root),
            cost,
            parent,
            ..
        } = self.0;
        write!(
            f,
            "STC sender={sender} wave={wave} root={root} cost={cost} parent={}",
            ParentText(parent),
        )
    }
}

#[derive(Clone, Copy)]
struct TreeStatusText(TreeStatusFields);

impl fmt::Display for TreeStatusText {
    ghost output = { λ x. Some (tree_status_text x.0) };

    #[tactic(auto, unfolding(crate::specs::Texts::tree_status_text))]
    fn fmt<W: fmt::Write>(&self, f: &mut fmt::Formatter<W>) -> fmt::Result {
        let TreeStatusFields {
            sender: Address(sender),
            wave: WaveNumber(wave),
            root: Address(root),
            tree: TreeSequenceNumber(tree),
            descendants,
            flags,
        } = self.0;
        write!(
            f,
            "TreeStatus sender={sender} wave={wave} root={root} tree={tree} descendants={descendants} flags={}",
            FlagsText(flags),
        )
    }
}

#[derive(Clone, Copy)]
struct AddressesText<'a>(Addresses<'a>);

impl fmt::Display for AddressesText<'_> {
    ghost output = { λ x. Some (addresses_text (addresses x.0)) };

    fn fmt<W: fmt::Write>(&self, f: &mut fmt::Formatter<W>) -> fmt::Result {
        write_list(self.0.map(|address| address.0), ",", f)
    }
}
