//! How many groups a radio will have, counted without a change and without memory.

ghost use Rattle.std.specs.Prelude.{◌≡◌, ◌==◌, ◌<◌, ◌≤◌, ◌+◌, ◌^◌, length};
ghost use Rattle.std.specs.List.{fold};
ghost use Rattle.std.specs.Option.{is_some};
ghost use Rattle.std.specs.FinMap as finite;
ghost use Rattle.group_attach.specs.Attached.{of_radio};
ghost use Rattle.group_attach.specs.Applied.{changed_by, at_start, applied};
ghost use Rattle.group_attach.specs.InOrder.{IsInOrder};
ghost use Rattle.group_attach.specs.Inside.ListedMap.{map_of};
ghost use Rattle.group_attach.specs.Inside.Counted.{group_of, attached_after, attached_to_after, counted};

use crate::Attachment;
use crate::list::{count_of, has};
use identity::{Gtsi, Itsi};
use mm_pdus::{GroupMode, GroupUp};
use registration::Registry;
use std::alloc::Allocator;

// How many groups the radio has after a PDU of this mode and these items.
pub(crate) fn count_after<R: Allocator + Clone>(
    entries: &[Attachment],
    registry: &Registry<R>,
    itsi: Itsi,
    mode: GroupMode,
    items: &[GroupUp],
) -> usize
    requires { IsInOrder entries.now }
    ensures { result ≡ finite.len (of_radio (applied registry.now (map_of entries.now) itsi mode items.now) itsi) }
{
    let mut count = count_first(entries, itsi, mode);
    for i in 0..items.len() {
        let item = &items[i];
        let gtsi = group_of(itsi, item);
        let before = is_attached_after(entries, registry, itsi, mode, &items[..i], gtsi);
        count = counted(count, before, attached_after(registry, itsi, before, item));
    }
    count
}

// Whether the radio is attached to the group after such a PDU.
fn is_attached_after<R: Allocator + Clone>(
    entries: &[Attachment],
    registry: &Registry<R>,
    itsi: Itsi,
    mode: GroupMode,
    items: &[GroupUp],
    gtsi: Gtsi,
) -> bool
    requires { IsInOrder entries.now }
    ensures { result ≡ is_some (finite.get (applied registry.now (map_of entries.now) itsi mode items.now) (itsi, gtsi)) }
{
    let mut attached = is_attached_first(entries, itsi, mode, gtsi);
    for item in items {
        attached = attached_to_after(registry, itsi, gtsi, attached, item);
    }
    attached
}

// Whether it is attached to the group before the first item.
#[tactic(auto, using(crate::proofs::Counting::none_of_radio))]
fn is_attached_first(entries: &[Attachment], itsi: Itsi, mode: GroupMode, gtsi: Gtsi) -> bool
    requires { IsInOrder entries.now }
    ensures { result ≡ is_some (finite.get (at_start (map_of entries.now) itsi mode) (itsi, gtsi)) }
{
    match mode {
        GroupMode::Amendment => has(entries, itsi, gtsi),
        GroupMode::DetachAllFirst => false,
    }
}

// How many groups it has before the first item.
#[tactic(auto, using(crate::proofs::Counting::none_counted))]
fn count_first(entries: &[Attachment], itsi: Itsi, mode: GroupMode) -> usize
    requires { IsInOrder entries.now }
    ensures count { result ≡ finite.len (of_radio (at_start (map_of entries.now) itsi mode) itsi) }
    ensures within { result ≤ length entries.now }
{
    match mode {
        GroupMode::Amendment => count_of(entries, itsi),
        GroupMode::DetachAllFirst => 0,
    }
}

fn attached_to_after<R: Allocator + Clone>(
    registry: &Registry<R>,
    itsi: Itsi,
    gtsi: Gtsi,
    before: bool,
    item: &GroupUp,
) -> bool
    ensures { result ≡ attached_to_after registry.now itsi gtsi before item.now }
{
    if gtsi == group_of(itsi, item) {
        attached_after(registry, itsi, before, item)
    } else {
        before
    }
}

fn attached_after<R: Allocator + Clone>(
    registry: &Registry<R>,
    itsi: Itsi,
    before: bool,
    item: &GroupUp,
) -> bool
    ensures { result ≡ attached_after registry.now itsi before item.now }
{
    match item {
        GroupUp::Attach { address, .. } => {
            before || registry.rule_of(address.gtsi(itsi).number()).is_some()
        }
        GroupUp::Leave { .. } => false,
    }
}

fn group_of(itsi: Itsi, item: &GroupUp) -> Gtsi
    ensures { result ≡ group_of itsi item.now }
{
    match item {
        GroupUp::Attach { address, .. } | GroupUp::Leave { address, .. } => address.gtsi(itsi),
    }
}

fn counted(count: usize, before: bool, after: bool) -> usize
    requires { count + 1 < 2 ^ 64 }
    ensures { result ≡ counted count before after }
{
    match (before, after) {
        (true, false) => count.saturating_sub(1),
        (false, true) => count + 1,
        (true, true) | (false, false) => count,
    }
}
