//! The attachments of all radios, and the calls that change them.

ghost use Rattle.std.specs.Prelude.{◌≡◌, None, OnOk, OnErr, IfOk, IfErr, unwrap_or};
ghost use Rattle.std.specs.List.{All};
ghost use Rattle.std.specs.Ordering.{nat_cmp};
ghost use Rattle.std.specs.FinMap as finite;
ghost use Rattle.prefix_tree.specs.Following.{next_of};
ghost use Rattle.group_attach.specs.Attached.{no_groups, of_radio, groups_of, members_of};
ghost use Rattle.group_attach.specs.Applied.{after_update, applied, answers, apply_refusal, restore_refusal, restored};
ghost use Rattle.group_attach.specs.Inside.Filed.{AllHave, IsReplaced};
ghost use Rattle.group_attach.specs.InOrder.{IsInOrder};
ghost use Rattle.group_attach.specs.Inside.ListedMap.{map_of};
ghost use Rattle.group_attach.specs.declared.fault.GroupFault.TheVariants.{NoMemory};

use crate::answer::answers;
use crate::attachments::{AttachmentList, slice_of};
use crate::count::count_after;
use crate::index::Index;
use crate::list::{any_ends, first_after};
use crate::side::{ByGroup, ByRadio};
use crate::{Attachment, GroupFault};
use base::TryCopy;
use identity::{Gtsi, Itsi};
use mm_pdus::{GroupDown, GroupItems, GroupMode, GroupUp, LocationUpdateType};
use registration::Registry;
use std::alloc::{AllocError, Allocator};
use std::marker::Model;

/// How many groups a radio may be attached to.
pub const MOST_OF_RADIO: usize = 32;

/// Which groups each radio is attached to, at most once to each.
#[derive(Drop)]
pub struct Groups<A: Allocator> {
    alloc: A,
    by_radio: Index<ByRadio, A>,
    by_group: Index<ByGroup, A>,
}

impl<A: Allocator> Model for Groups<A> {
    ghost use Rattle.group_attach.specs.Attached.{Attached, coded_attached};
    ghost use Rattle.std.specs.Prelude.{◌≡◌};

    ghost Value = { Attached };

    ghost coded = { coded_attached };

    ghost view = { λ g. g.by_radio };

    ghost invariant = { λ g. g.by_group ≡ g.by_radio };
}

impl<A: Allocator> Groups<A> {
    /// No attachments. It takes no memory until the first one.
    pub fn new(alloc: A) -> Self
        ensures { result ≡ no_groups }
    {
        Groups {
            alloc,
            by_radio: Index::new(),
            by_group: Index::new(),
        }
    }

    /// A radio's attachments in order of their groups.
    pub fn groups_of<C: Allocator>(
        &self,
        alloc: C,
        itsi: Itsi,
    ) -> Result<Vec<Attachment, C>, AllocError>
        ensures { IfOk result (λ list. list.items ≡ groups_of self.now itsi) }
    {
        Vec::from_slice(alloc, self.attachments(itsi))
    }

    /// A radio's attachments in order of their groups, borrowed.
    pub fn attachments(&self, itsi: Itsi) -> &[Attachment]
        ensures { result.now ≡ groups_of self.now itsi }
    {
        self.by_radio.part(itsi.number())
    }

    /// The radio's first attachment after this group in order of the groups, or its first of all for `None`. The radio
    /// need not be attached to this group. It takes no memory.
    pub fn next_of(&self, itsi: Itsi, after: Option<Gtsi>) -> Option<Attachment>
        ensures { result ≡ next_of nat_cmp (λ a. a.gtsi) (groups_of self.now itsi) after }
    {
        first_after(self.attachments(itsi), after).copied()
    }

    /// The attachments to a group in order of their radios, present or not.
    pub fn members_of<C: Allocator>(
        &self,
        alloc: C,
        gtsi: Gtsi,
    ) -> Result<Vec<Attachment, C>, AllocError>
        ensures { IfOk result (λ list. list.items ≡ members_of self.now gtsi) }
    {
        Vec::from_slice(alloc, self.by_group.part(gtsi.number()))
    }

    /// Ends attachments of the radio, by their lifetime, at its accepted location update (clause 16.4).
    /// An ITSI attach ends all but those of `NotNeeded`. A periodic update ends none. Any other accepted
    /// update ends those of `NextLocationUpdate`. It takes no memory.
    pub fn on_update(&mut self, itsi: Itsi, update: LocationUpdateType)
        ensures { self.new ≡ after_update self.old itsi update }
    {
        let own = self.by_radio.part(itsi.number());
        if any_ends(own, update) {
            self.by_group.leave_ended(own, update);
            self.by_radio.drop_ended(itsi, update);
        }
    }

    /// Why `apply` would refuse this PDU if there were memory: `NotAttached` or `TooManyGroups`, the
    /// first that applies. It takes no memory.
    pub fn apply_refusal<R: Allocator + Clone, B: Allocator>(
        &self,
        registry: &Registry<R>,
        itsi: Itsi,
        mode: GroupMode,
        items: &GroupItems<GroupUp, B>,
    ) -> Option<GroupFault>
        ensures { result ≡ apply_refusal registry.now self.now itsi mode items.now }
    {
        if !registry.is_present(itsi) {
            return Some(GroupFault::NotAttached);
        }
        if self.count_after(registry, itsi, mode, items) > MOST_OF_RADIO {
            Some(GroupFault::TooManyGroups)
        } else {
            None
        }
    }

    // How many groups the radio has after such a PDU.
    fn count_after<R: Allocator + Clone, B: Allocator>(
        &self,
        registry: &Registry<R>,
        itsi: Itsi,
        mode: GroupMode,
        items: &GroupItems<GroupUp, B>,
    ) -> usize
        ensures { result ≡ finite.len (of_radio (applied registry.now self.now itsi mode items.now) itsi) }
    {
        let own = self.by_radio.part(itsi.number());
        count_after(own, registry, itsi, mode, items.as_slice())
    }
}

impl<A: Allocator + Clone> Groups<A> {
    /// Changes the radio's groups as its PDU asks (clause 16.8, attachment and detachment of group
    /// identities), and returns the acknowledgement: `change` and `answers` in one.
    pub fn apply<R: Allocator + Clone, B: Allocator, C: Allocator>(
        &mut self,
        alloc: C,
        registry: &Registry<R>,
        itsi: Itsi,
        mode: GroupMode,
        items: &GroupItems<GroupUp, B>,
    ) -> Result<GroupItems<GroupDown, C>, GroupFault>
        ensures answered { IfOk result (λ list. list ≡ answers registry.now itsi items.now) }
        ensures ok { OnOk result ((apply_refusal registry.now self.old itsi mode items.now ≡ None)
            × (self.new ≡ applied registry.now self.old itsi mode items.now)) }
        ensures err { IfErr result (λ e. (e ≡ unwrap_or (apply_refusal registry.now self.old itsi mode items.now) NoMemory) × (self.new ≡ self.old)) }
    {
        if let Some(fault) = self.apply_refusal(registry, itsi, mode, items) {
            return Err(fault);
        }
        let Ok(answered) = answers(alloc, registry, itsi, items) else {
            return Err(GroupFault::NoMemory);
        };
        self.enact(registry, itsi, mode, items)?;
        Ok(answered)
    }

    /// Changes the radio's groups as its PDU asks, without the acknowledgement. `DetachAllFirst` ends
    /// all its attachments first. Then the items apply in order. An attach to a group without a rule does
    /// nothing. Any other one adds or replaces the attachment, with its class and the rule's lifetime. A
    /// leave ends the attachment. It is `NotAttached` where the radio is not present, and `TooManyGroups`
    /// where it would have more than 32 groups after all items. A refusal changes nothing.
    pub fn change<R: Allocator + Clone, B: Allocator>(
        &mut self,
        registry: &Registry<R>,
        itsi: Itsi,
        mode: GroupMode,
        items: &GroupItems<GroupUp, B>,
    ) -> Result<(), GroupFault>
        ensures ok { OnOk result ((apply_refusal registry.now self.old itsi mode items.now ≡ None)
            × (self.new ≡ applied registry.now self.old itsi mode items.now)) }
        ensures err { IfErr result (λ e. (e ≡ unwrap_or (apply_refusal registry.now self.old itsi mode items.now) NoMemory) × (self.new ≡ self.old)) }
    {
        if let Some(fault) = self.apply_refusal(registry, itsi, mode, items) {
            return Err(fault);
        }
        self.enact(registry, itsi, mode, items)
    }

    /// Gives the radio these attachments as they were stored, and no others; rules do not matter. All must
    /// be the radio's own, in order of their groups. More than 32 are `TooManyGroups`. Otherwise it fails
    /// only when memory runs out. A refusal changes nothing.
    pub fn restore(&mut self, itsi: Itsi, attachments: &[Attachment]) -> Result<(), GroupFault>
        requires own { All (λ a. a.itsi ≡ itsi) attachments.now }
        requires in_order { IsInOrder attachments.now }
        ensures ok { OnOk result ((restore_refusal attachments.now ≡ None) × (self.new ≡ restored self.old itsi attachments.now)) }
        ensures err { IfErr result (λ e. (e ≡ unwrap_or (restore_refusal attachments.now) NoMemory) × (self.new ≡ self.old)) }
    {
        if attachments.len() > MOST_OF_RADIO {
            return Err(GroupFault::TooManyGroups);
        }
        let Ok(list) = self.list_of(attachments) else {
            return Err(GroupFault::NoMemory);
        };
        self.replace(itsi, list).or(Err(GroupFault::NoMemory))
    }

    // A list of these attachments, in memory of its own.
    fn list_of(&self, attachments: &[Attachment]) -> Result<AttachmentList<A>, AllocError>
        requires { IsInOrder attachments.now }
        ensures { IfOk result (λ list. list ≡ map_of attachments.now) }
    {
        AttachmentList::from_slice(self.alloc.clone()?, attachments)
    }

    // Changes the radio's groups as a PDU asks that is not refused.
    fn enact<R: Allocator + Clone, B: Allocator>(
        &mut self,
        registry: &Registry<R>,
        itsi: Itsi,
        mode: GroupMode,
        items: &GroupItems<GroupUp, B>,
    ) -> Result<(), GroupFault>
        ensures ok { OnOk result (self.new ≡ applied registry.now self.old itsi mode items.now) }
        ensures err { IfErr result (λ e. (e ≡ NoMemory) × (self.new ≡ self.old)) }
    {
        let Ok(list) = self.changed(registry, itsi, mode, items) else {
            return Err(GroupFault::NoMemory);
        };
        self.replace(itsi, list).or(Err(GroupFault::NoMemory))
    }

    // The radio's attachments after the PDU.
    fn changed<R: Allocator + Clone, B: Allocator>(
        &self,
        registry: &Registry<R>,
        itsi: Itsi,
        mode: GroupMode,
        items: &GroupItems<GroupUp, B>,
    ) -> Result<AttachmentList<A>, AllocError>
        ensures { IfOk result (λ list. list ≡ of_radio (applied registry.now self.now itsi mode items.now) itsi) }
    {
        let mut list = self.by_radio.copy_of(&self.alloc, itsi)?;
        list.change_all(registry, itsi, mode, items.as_slice())?;
        Ok(list)
    }

    // Replaces the radio's attachments by this list, in both indexes. What takes memory comes first, and
    // is undone when memory runs out.
    fn replace(&mut self, itsi: Itsi, list: AttachmentList<A>) -> Result<(), AllocError>
        requires { AllHave (λ pair. pair.0) itsi list }
        ensures ok { OnOk result (IsReplaced self.old itsi list self.new) }
        ensures err { OnErr result (self.new ≡ self.old) }
    {
        let before = self.by_radio.set(&self.alloc, itsi, list)?;
        let own = self.by_radio.part(itsi.number());
        match self.by_group.attach_all(&self.alloc, own) {
            Ok(()) => {
                self.by_group.leave_absent(slice_of(before.as_ref()), own);
                Ok(())
            }
            Err(error) => {
                self.by_radio.restore(&self.alloc, itsi, before);
                Err(error)
            }
        }
    }
}

impl<A: Allocator + Clone> TryCopy for Groups<A> {
    fn try_copy(&self) -> Result<Self, AllocError> {
        Ok(Groups {
            alloc: self.alloc.clone()?,
            by_radio: self.by_radio.try_copy()?,
            by_group: self.by_group.try_copy()?,
        })
    }
}
