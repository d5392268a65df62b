//! Attachments by one of their two sides, the radio or the group.

ghost use Rattle.std.specs.Prelude.{◌≡◌, ◌<◌, ◌^◌, length, OnOk, OnErr, IfOk, IsOk, IsSome};
ghost use Rattle.std.specs.FinMap as finite;
ghost use Rattle.group_attach.specs.Attached.{Attached, no_groups, listed, attachment_at, of_radio, pair_of, attached, all_attached};
ghost use Rattle.group_attach.specs.Applied.{after_update};
ghost use Rattle.group_attach.specs.InOrder.{IsInOrder};
ghost use Rattle.group_attach.specs.Inside.ListedMap.{map_of};
ghost use Rattle.group_attach.specs.Inside.Filed.{part_of, all_left, set_back, held, left_unless, left_if_ended, all_ended, AllHave, IsReplaced};

use crate::Attachment;
use crate::attachments::{AttachmentList, slice_of};
use crate::edit::is_dropped;
use crate::ending::Ending;
use crate::list::has;
use crate::lists::Lists;
use crate::side::{ByRadio, Side};
use base::TryCopy;
use identity::{Gtsi, Itsi, Prefix};
use mm_pdus::LocationUpdateType;
use std::alloc::{AllocError, Allocator};
use std::marker::{Model, PhantomData};

/// Attachments, with one list for each number of the side.
#[derive(Drop)]
pub(crate) struct Index<S: Side, A: Allocator> {
    lists: Lists<A>,
    side: PhantomData<S>,
}

impl<S: Side, A: Allocator> Model for Index<S, A> {
    ghost use Rattle.group_attach.specs.Attached.{Attached, coded_attached};
    ghost use Rattle.group_attach.specs.Inside.Filed.{gathered, IsFiled};

    ghost Value = { Attached };

    ghost coded = { coded_attached };

    ghost view = { λ i. gathered S.key i.lists };

    ghost invariant = { λ i. IsFiled S.key i.lists };
}

impl<S: Side, A: Allocator> Index<S, A> {
    /// No attachments. It takes no memory until the first one.
    pub(crate) fn new() -> Self
        ensures { result ≡ no_groups }
    {
        Index {
            lists: Lists::new(),
            side: PhantomData,
        }
    }

    /// The attachments with this number, in order.
    pub(crate) fn part(&self, number: u64) -> &[Attachment]
        requires { number < 2 ^ 48 }
        ensures items { result.now ≡ listed (part_of S.key self.now number) }
        ensures in_order { IsInOrder result.now }
    {
        slice_of(self.lists.find(&Prefix::whole(number)))
    }

    /// Removes the radio's attachment to the group. It takes no memory.
    pub(crate) fn leave(&mut self, itsi: Itsi, gtsi: Gtsi)
        ensures { self.new ≡ finite.remove self.old (itsi, gtsi) }
    {
        let path = S::path(itsi, gtsi);
        self.lists.end(&path, itsi, Ending::Leave(gtsi));
    }

    /// Removes the old attachments whose radio and group are not in the list. It takes no memory.
    pub(crate) fn leave_absent(&mut self, old: &[Attachment], list: &[Attachment])
        requires { IsInOrder list.now }
        ensures { self.new ≡ all_left self.old old.now list.now }
    {
        for attachment in old {
            self.leave_unless(list, attachment);
        }
    }

    /// Removes the listed attachments that the update ends. It takes no memory.
    pub(crate) fn leave_ended(&mut self, list: &[Attachment], update: LocationUpdateType)
        ensures { self.new ≡ all_ended update self.old list.now }
    {
        for attachment in list {
            self.leave_if_ended(attachment, update);
        }
    }

    // Removes the attachment, if the update ends it.
    fn leave_if_ended(&mut self, attachment: &Attachment, update: LocationUpdateType)
        ensures { self.new ≡ left_if_ended update self.old attachment.now }
    {
        if is_dropped(update, attachment.lifetime) {
            self.leave(attachment.itsi, attachment.gtsi);
        }
    }

    // Removes the attachment, unless the list has its radio and group.
    fn leave_unless(&mut self, list: &[Attachment], attachment: &Attachment)
        requires { IsInOrder list.now }
        ensures { self.new ≡ left_unless list.now self.old attachment.now }
    {
        if !has(list, attachment.itsi, attachment.gtsi) {
            self.leave(attachment.itsi, attachment.gtsi);
        }
    }
}

impl<S: Side, A: Allocator + Clone> Index<S, A> {
    /// Adds the attachment, or replaces the one of the same radio and group and returns that one. Replacing takes no
    /// memory.
    pub(crate) fn attach(
        &mut self,
        alloc: &A,
        attachment: Attachment,
    ) -> Result<Option<Attachment>, AllocError>
        ensures before { IfOk result (λ before. before ≡ attachment_at self.old (pair_of attachment)) }
        ensures ok { OnOk result (self.new ≡ attached self.old attachment) }
        ensures err { OnErr result (self.new ≡ self.old) }
        ensures overwrites { IsSome (finite.get self.old (pair_of attachment)) → IsOk result }
    {
        let path = S::path(attachment.itsi, attachment.gtsi);
        self.lists.attach(alloc, path, attachment)
    }

    /// Adds or replaces all these attachments, or none of them when memory runs out.
    pub(crate) fn attach_all(&mut self, alloc: &A, list: &[Attachment]) -> Result<(), AllocError>
        ensures ok { OnOk result (self.new ≡ all_attached self.old list.now) }
        ensures err { OnErr result (self.new ≡ self.old) }
        ensures some { OnErr result (0 < length list.now) }
    {
        let Some((first, rest)) = list.split_first() else {
            return Ok(());
        };
        let before = self.attach(alloc, *first)?;
        match self.attach_all(alloc, rest) {
            Ok(()) => Ok(()),
            Err(error) => {
                self.set_back(alloc, first, before);
                Err(error)
            }
        }
    }

    // Undoes `attach`: sets the attachment back to the one before. It takes no memory.
    fn set_back(&mut self, alloc: &A, attachment: &Attachment, before: Option<Attachment>)
        requires { IsSome (finite.get self.old (pair_of attachment.now)) }
        ensures { (m : Attached) → before ≡ attachment_at m (pair_of attachment.now)
            → self.new ≡ set_back self.old (pair_of attachment.now) (finite.get m (pair_of attachment.now)) }
    {
        match before {
            Some(before) => {
                let _ = self.attach(alloc, before);
            }
            None => self.leave(attachment.itsi, attachment.gtsi),
        }
    }
}

impl<A: Allocator> Index<ByRadio, A> {
    /// Removes the radio's attachments that its location update ends. It takes no memory.
    pub(crate) fn drop_ended(&mut self, itsi: Itsi, update: LocationUpdateType)
        ensures { self.new ≡ after_update self.old itsi update }
    {
        let path = Prefix::whole(itsi.number());
        self.lists.end(&path, itsi, Ending::Update(update));
    }
}

impl<A: Allocator + Clone> Index<ByRadio, A> {
    /// A copy of the radio's attachments.
    pub(crate) fn copy_of(&self, alloc: &A, itsi: Itsi) -> Result<AttachmentList<A>, AllocError>
        ensures { IfOk result (λ list. list ≡ of_radio self.now itsi) }
    {
        match self.lists.find(&Prefix::whole(itsi.number())) {
            Some(list) => list.try_copy(),
            None => Ok(AttachmentList::new(alloc.clone()?)),
        }
    }

    /// Replaces the radio's attachments by this list, and returns the list before. It takes memory only
    /// where the radio had none.
    pub(crate) fn set(
        &mut self,
        alloc: &A,
        itsi: Itsi,
        list: AttachmentList<A>,
    ) -> Result<Option<AttachmentList<A>>, AllocError>
        requires { AllHave (λ pair. pair.0) itsi list }
        ensures before { IfOk result (λ before. held before ≡ of_radio self.old itsi) }
        ensures ok { OnOk result (IsReplaced self.old itsi list self.new) }
        ensures err { OnErr result (self.new ≡ self.old) }
        ensures overwrites { 0 < finite.len (of_radio self.old itsi) → IsOk result }
    {
        self.lists.set(alloc, Prefix::whole(itsi.number()), list)
    }

    // Removes all the radio's attachments.
    fn clear(&mut self, itsi: Itsi)
        ensures { IsReplaced self.old itsi no_groups self.new }
    {
        self.lists.clear(&Prefix::whole(itsi.number()));
    }

    /// Undoes `set`: sets the radio's attachments back to those before. It must have some. It takes no memory.
    pub(crate) fn restore(&mut self, alloc: &A, itsi: Itsi, before: Option<AttachmentList<A>>)
        requires own { AllHave (λ pair. pair.0) itsi (held before) }
        requires some { 0 < finite.len (of_radio self.old itsi) }
        ensures { IsReplaced self.old itsi (held before) self.new }
    {
        match before {
            Some(list) => {
                let _ = self.set(alloc, itsi, list);
            }
            None => self.clear(itsi),
        }
    }
}

impl<S: Side, A: Allocator + Clone> TryCopy for Index<S, A> {
    fn try_copy(&self) -> Result<Self, AllocError> {
        Ok(Index {
            lists: self.lists.try_copy()?,
            side: PhantomData,
        })
    }
}
