//! The changes of the list of attachments.

ghost use Rattle.std.specs.Prelude.{◌≡◌, ◌==◌, ◌<◌, ◌≤◌, ◌+◌, ◌&&◌, not, length, vec_len, vec_capacity, IsSome, IsOk, IfOk, OnOk, OnErr};
ghost use Rattle.std.specs.List.{filter};
ghost use Rattle.std.specs.FinMap as finite;
ghost use Rattle.group_attach.specs.Attached.{attachment_at, attached, pair_of};
ghost use Rattle.group_attach.specs.Applied.{ends_at_attach, ends_at_update, is_dropped, after_update, without_radio, changed_by, at_start, applied};
ghost use Rattle.group_attach.specs.InOrder.{IsInOrder};
ghost use Rattle.group_attach.specs.Inside.ListedMap.{map_of};

use crate::Attachment;
use crate::list::place;
use identity::{Gtsi, Itsi};
use mm_pdus::{GroupMode, GroupUp, Lifetime, LocationUpdateType};
use registration::Registry;
use std::alloc::{AllocError, Allocator};

// Changes the attachments as a group PDU asks. There must be room for its items.
pub(crate) fn change_all<A: Allocator, R: Allocator + Clone>(
    entries: &mut Vec<Attachment, A>,
    registry: &Registry<R>,
    itsi: Itsi,
    mode: GroupMode,
    items: &[GroupUp],
)
    requires in_order { IsInOrder entries.old.items }
    requires room { vec_len entries.old + length items.now ≤ vec_capacity entries.old }
    ensures in_order { IsInOrder entries.new.items }
    ensures changed { map_of entries.new.items ≡ applied registry.now (map_of entries.old.items) itsi mode items.now }
{
    start(entries, itsi, mode);
    for item in items {
        change(entries, registry, itsi, item);
    }
}

// Changes them as the mode asks, before the first item.
fn start<A: Allocator>(entries: &mut Vec<Attachment, A>, itsi: Itsi, mode: GroupMode)
    requires in_order { IsInOrder entries.old.items }
    ensures in_order { IsInOrder entries.new.items }
    ensures changed { map_of entries.new.items ≡ at_start (map_of entries.old.items) itsi mode }
    ensures shorter { vec_len entries.new ≤ vec_len entries.old }
    ensures capacity { vec_capacity entries.new ≡ vec_capacity entries.old }
{
    match mode {
        GroupMode::Amendment => {}
        GroupMode::DetachAllFirst => leave_all(entries, itsi),
    }
}

// Changes them as one item asks. There must be room for it.
fn change<A: Allocator, R: Allocator + Clone>(
    entries: &mut Vec<Attachment, A>,
    registry: &Registry<R>,
    itsi: Itsi,
    item: &GroupUp,
)
    requires in_order { IsInOrder entries.old.items }
    requires room { vec_len entries.old < vec_capacity entries.old }
    ensures in_order { IsInOrder entries.new.items }
    ensures changed { map_of entries.new.items ≡ changed_by registry.now itsi (map_of entries.old.items) item.now }
    ensures one_more { vec_len entries.new ≤ vec_len entries.old + 1 }
    ensures capacity { vec_capacity entries.old ≤ vec_capacity entries.new }
{
    match item {
        GroupUp::Attach { class, address } => {
            let gtsi = address.gtsi(itsi);
            if let Some(rule) = registry.rule_of(gtsi.number()) {
                let lifetime = rule.lifetime();
                let attachment = Attachment {
                    itsi,
                    gtsi,
                    class: *class,
                    lifetime,
                };
                let _ = attach(entries, attachment);
            }
        }
        GroupUp::Leave { address, .. } => leave(entries, itsi, address.gtsi(itsi)),
    }
}

// Puts the attachment in its place, and returns the one that was there. It takes memory only where its pair is new
// and there is no room.
pub(crate) fn attach<A: Allocator>(
    entries: &mut Vec<Attachment, A>,
    attachment: Attachment,
) -> Result<Option<Attachment>, AllocError>
    requires in_order { IsInOrder entries.old.items }
    ensures in_order { IsInOrder entries.new.items }
    ensures before { IfOk result (λ before. before ≡ attachment_at (map_of entries.old.items) (pair_of attachment)) }
    ensures ok { OnOk result (map_of entries.new.items ≡ attached (map_of entries.old.items) attachment) }
    ensures err { OnErr result (map_of entries.new.items ≡ map_of entries.old.items) }
    ensures overwrites { IsSome (finite.get (map_of entries.old.items) (pair_of attachment)) → IsOk result }
    ensures room { vec_len entries.old < vec_capacity entries.old → IsOk result }
    ensures one_more { vec_len entries.new ≤ vec_len entries.old + 1 }
    ensures capacity { vec_capacity entries.old ≤ vec_capacity entries.new }
{
    match place(entries, attachment.itsi, attachment.gtsi) {
        Ok(at) => {
            let before = entries[at];
            entries[at] = attachment;
            Ok(Some(before))
        }
        Err(at) => match entries.insert(at, attachment) {
            Ok(()) => Ok(None),
            Err(_) => Err(AllocError),
        },
    }
}

// Removes the radio's attachment to the group.
pub(crate) fn leave<A: Allocator>(entries: &mut Vec<Attachment, A>, itsi: Itsi, gtsi: Gtsi)
    requires in_order { IsInOrder entries.old.items }
    ensures in_order { IsInOrder entries.new.items }
    ensures changed { map_of entries.new.items ≡ finite.remove (map_of entries.old.items) (itsi, gtsi) }
    ensures shorter { vec_len entries.new ≤ vec_len entries.old }
    ensures capacity { vec_capacity entries.new ≡ vec_capacity entries.old }
{
    entries.retain(|attachment| !(attachment.itsi == itsi && attachment.gtsi == gtsi));
}

fn leave_all<A: Allocator>(entries: &mut Vec<Attachment, A>, itsi: Itsi)
    requires in_order { IsInOrder entries.old.items }
    ensures in_order { IsInOrder entries.new.items }
    ensures changed { map_of entries.new.items ≡ without_radio (map_of entries.old.items) itsi }
    ensures shorter { vec_len entries.new ≤ vec_len entries.old }
    ensures capacity { vec_capacity entries.new ≡ vec_capacity entries.old }
{
    entries.retain(|attachment| attachment.itsi != itsi);
}

// Removes those that an accepted location update of the radio ends.
pub(crate) fn drop_ended<A: Allocator>(
    entries: &mut Vec<Attachment, A>,
    itsi: Itsi,
    update: LocationUpdateType,
)
    requires in_order { IsInOrder entries.old.items }
    ensures in_order { IsInOrder entries.new.items }
    ensures changed { map_of entries.new.items ≡ after_update (map_of entries.old.items) itsi update }
{
    entries.retain(|attachment| {
        !(attachment.itsi == itsi && is_dropped(update, attachment.lifetime))
    });
}

pub(crate) fn is_dropped(update: LocationUpdateType, lifetime: Lifetime) -> bool
    ensures { result ≡ is_dropped update lifetime }
{
    match update {
        LocationUpdateType::ItsiAttach => ends_at_attach(lifetime),
        LocationUpdateType::Roaming
        | LocationUpdateType::ServiceRestorationRoaming
        | LocationUpdateType::Demand => ends_at_update(lifetime),
        LocationUpdateType::Periodic
        | LocationUpdateType::Migrating
        | LocationUpdateType::ServiceRestorationMigrating
        | LocationUpdateType::DisabledMs => false,
    }
}

fn ends_at_attach(lifetime: Lifetime) -> bool
    ensures { result ≡ ends_at_attach lifetime }
{
    match lifetime {
        Lifetime::NotNeeded => false,
        Lifetime::NextItsiAttach
        | Lifetime::NotAllowedAtNextItsiAttach
        | Lifetime::NextLocationUpdate => true,
    }
}

fn ends_at_update(lifetime: Lifetime) -> bool
    ensures { result ≡ ends_at_update lifetime }
{
    match lifetime {
        Lifetime::NextLocationUpdate => true,
        Lifetime::NotNeeded | Lifetime::NextItsiAttach | Lifetime::NotAllowedAtNextItsiAttach => {
            false
        }
    }
}
