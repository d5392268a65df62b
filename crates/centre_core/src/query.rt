ghost use Rattle.std.specs.Prelude.{◌≡◌};

use group_attach::Attachment;
use identity::{Gtsi, Itsi, Prefix};
use mailbox::Item;
use registration::{Radio, Rule};
use std::alloc::Allocator;
use std::marker::Model;

/// A question, which changes nothing.
#[derive(Clone, Copy, Debug, PartialEq, Eq)]
pub enum Query {
    /// Where a radio is.
    Whereabouts(Itsi),
    /// Which rule serves an identity: a radio's, or a group's of the same number.
    Look(Itsi),
    /// Which groups a radio is attached to.
    GroupsOf(Itsi),
    /// Which radios that are present are attached to a group.
    MembersOf(Gtsi),
    /// The items that wait for a radio.
    Waiting(Itsi),
    /// How many commands were accepted.
    Total,
}

/// The answer to a query.
#[derive(Drop)]
pub enum QueryAnswer<A: Allocator> {
    /// The radio, if the register has it.
    Whereabouts {
        itsi: Itsi,
        radio: Option<Radio>,
    },
    /// The rule that serves the identity, if there is one, and its prefix.
    Look {
        itsi: Itsi,
        rule: Option<(Prefix, Rule)>,
    },
    /// The attachments of a radio, in order of their groups.
    Groups {
        itsi: Itsi,
        groups: Attachments<A>,
    },
    /// The attachments to a group, in order of their radios, which are present.
    Members {
        gtsi: Gtsi,
        members: Attachments<A>,
    },
    /// The items that wait for a radio, in order of number, then of key.
    Waiting {
        itsi: Itsi,
        items: Items<A>,
    },
    /// The number of accepted commands.
    Total(u64),
}

/// Attachments in order.
///
/// Clauses model the list alone.
#[derive(Drop)]
pub struct Attachments<A: Allocator> {
    pub(crate) items: Vec<Attachment, A>,
}

impl<A: Allocator> Model for Attachments<A> {
    ghost use Rattle.std.specs.Prelude.{List};
    ghost use Rattle.group_attach.specs.declared.attachment.Attachment.{Attachment};

    ghost Value = { List Attachment };

    ghost view = { λ a. a.items.items };
}

impl<A: Allocator> Attachments<A> {
    /// All of them.
    pub fn as_slice(&self) -> &[Attachment]
        ensures { result.now ≡ self.now }
    {
        self.items.as_slice()
    }
}

/// Copies of waiting items, in order.
///
/// Clauses model the list alone.
#[derive(Drop)]
pub struct Items<A: Allocator> {
    pub(crate) items: Vec<Item<A>, A>,
}

impl<A: Allocator> Model for Items<A> {
    ghost use Rattle.std.specs.Prelude.{List};
    ghost use Rattle.mailbox.specs.Values.{Item};

    ghost Value = { List Item };

    ghost view = { λ i. i.items.items };
}

impl<A: Allocator> Items<A> {
    /// All of them.
    pub fn as_slice(&self) -> &[Item<A>]
        ensures { result.now ≡ self.now }
    {
        self.items.as_slice()
    }
}
