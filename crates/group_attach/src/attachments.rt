//! Attachments as one list in order of radio and group.

ghost use Rattle.std.specs.Prelude.{◌≡◌, ◌==◌, Some, OnOk, OnErr, IfOk, IsOk, IsSome};
ghost use Rattle.std.specs.Option.{option_copied};
ghost use Rattle.std.specs.FinMap as finite;
ghost use Rattle.group_attach.specs.Attached.{no_groups, listed, attachment_at, pair_of, attached};
ghost use Rattle.group_attach.specs.Applied.{applied};
ghost use Rattle.group_attach.specs.InOrder.{IsInOrder};
ghost use Rattle.group_attach.specs.Inside.ListedMap.{map_of};
ghost use Rattle.group_attach.specs.Inside.Filed.{ended, unless_empty, held};

use crate::Attachment;
use crate::edit::{attach, change_all, drop_ended, leave};
use crate::ending::Ending;
use base::TryCopy;
use identity::Itsi;
use mm_pdus::{GroupMode, GroupUp};
use registration::Registry;
use std::alloc::{AllocError, Allocator};
use std::marker::Model;

/// Attachments in one list, at most one of each radio to each group.
#[derive(Drop)]
pub(crate) struct AttachmentList<A: Allocator> {
    entries: Vec<Attachment, A>,
}

impl<A: Allocator> Model for AttachmentList<A> {
    ghost use Rattle.group_attach.specs.Attached.{Attached, coded_attached};
    ghost use Rattle.group_attach.specs.InOrder.{IsInOrder};
    ghost use Rattle.group_attach.specs.Inside.ListedMap.{map_of};

    ghost Value = { Attached };

    ghost coded = { coded_attached };

    ghost view = { λ l. map_of l.entries.items };

    ghost invariant = { λ l. IsInOrder l.entries.items };
}

impl<A: Allocator> AttachmentList<A> {
    /// No attachments. It takes no memory until the first one.
    pub(crate) fn new(alloc: A) -> Self
        ensures { result ≡ no_groups }
    {
        AttachmentList {
            entries: Vec::new(alloc),
        }
    }

    /// This attachment alone.
    pub(crate) fn one(alloc: A, attachment: Attachment) -> Result<Self, AllocError>
        ensures { IfOk result (λ list. list ≡ attached no_groups attachment) }
    {
        let mut list = AttachmentList::new(alloc);
        list.attach(attachment)?;
        Ok(list)
    }

    /// A list of these attachments, which must be in order.
    pub(crate) fn from_slice(alloc: A, attachments: &[Attachment]) -> Result<Self, AllocError>
        requires { IsInOrder attachments.now }
        ensures { IfOk result (λ list. list ≡ map_of attachments.now) }
    {
        Ok(AttachmentList {
            entries: Vec::from_slice(alloc, attachments)?,
        })
    }

    /// Its attachments in order.
    pub(crate) fn as_slice(&self) -> &[Attachment]
        ensures items { result.now ≡ listed self.now }
        ensures in_order { IsInOrder result.now }
    {
        &self.entries
    }

    /// Whether it has none.
    pub(crate) fn is_empty(&self) -> bool
        ensures { result ≡ (finite.len self.now == 0) }
    {
        self.as_slice().is_empty()
    }

    /// Adds the attachment, or replaces the one of the same radio and group and returns that one. Replacing takes no
    /// memory.
    pub(crate) fn attach(
        &mut self,
        attachment: Attachment,
    ) -> Result<Option<Attachment>, AllocError>
        ensures before { IfOk result (λ before. before ≡ attachment_at self.old (pair_of attachment)) }
        ensures ok { OnOk result (self.new ≡ attached self.old attachment) }
        ensures err { OnErr result (self.new ≡ self.old) }
        ensures overwrites { IsSome (finite.get self.old (pair_of attachment)) → IsOk result }
    {
        attach(&mut self.entries, attachment)
    }

    /// What `attach` returns, and the list after it. The list is as it was when memory runs out.
    pub(crate) fn with(
        mut self,
        attachment: Attachment,
    ) -> (Result<Option<Attachment>, AllocError>, Option<Self>)
        ensures before { IfOk result.0 (λ before. before ≡ attachment_at self (pair_of attachment)) }
        ensures ok { OnOk result.0 (result.1 ≡ Some (attached self attachment)) }
        ensures err { OnErr result.0 (result.1 ≡ Some self) }
        ensures overwrites { IsSome (finite.get self (pair_of attachment)) → IsOk result.0 }
    {
        let attached = self.attach(attachment);
        (attached, Some(self))
    }

    /// The list without what this ends, or `None` if it is then empty. It takes no memory.
    pub(crate) fn without_ended(mut self, itsi: Itsi, ending: Ending) -> Option<Self>
        ensures { result ≡ unless_empty (ended self itsi ending) }
    {
        match ending {
            Ending::Leave(gtsi) => leave(&mut self.entries, itsi, gtsi),
            Ending::Update(update) => drop_ended(&mut self.entries, itsi, update),
        }
        if self.is_empty() { None } else { Some(self) }
    }

    /// Changes the list as a PDU of the radio asks.
    pub(crate) fn change_all<R: Allocator + Clone>(
        &mut self,
        registry: &Registry<R>,
        itsi: Itsi,
        mode: GroupMode,
        items: &[GroupUp],
    ) -> Result<(), AllocError>
        ensures { OnOk result (self.new ≡ applied registry.now self.old itsi mode items.now) }
    {
        self.entries.reserve(items.len())?;
        change_all(&mut self.entries, registry, itsi, mode, items);
        Ok(())
    }
}

/// The attachments of a list in order; none where there is no list.
pub(crate) fn slice_of<A: Allocator>(list: Option<&AttachmentList<A>>) -> &[Attachment]
    ensures items { result.now ≡ listed (held (option_copied list.entry)) }
    ensures in_order { IsInOrder result.now }
{
    match list {
        Some(list) => list.as_slice(),
        None => &[],
    }
}

impl<A: Allocator + Clone> TryCopy for AttachmentList<A> {
    fn try_copy(&self) -> Result<Self, AllocError> {
        Ok(AttachmentList {
            entries: Vec::from_slice(self.entries.allocator().clone()?, &self.entries)?,
        })
    }
}
