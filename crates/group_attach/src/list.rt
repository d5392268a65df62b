//! The list of attachments in order: by radio, then by group.

ghost use Rattle.std.specs.Prelude.{◌≡◌, ◌==◌, ◌<◌, ◌≤◌, ◌-◌, length, IsTrue};
ghost use Rattle.std.specs.List.{filter, count_by, list_any, HoldsAt};
ghost use Rattle.std.specs.List.Sorted.{IsBinarySearchResult, IsSearchInRange};
ghost use Rattle.std.specs.Option.{is_some, option_copied};
ghost use Rattle.std.specs.FinMap as finite;
ghost use Rattle.std.specs.Ordering.{nat_cmp};
ghost use Rattle.std.specs.declared.cmp.Ordering.TheVariants.{Less};
ghost use Rattle.prefix_tree.specs.Following.{is_after, next_of};
ghost use Rattle.group_attach.specs.Attached.{pair_cmp, pair_of};
ghost use Rattle.group_attach.specs.Applied.{is_dropped};
ghost use Rattle.group_attach.specs.InOrder.{IsInOrder};
ghost use Rattle.group_attach.specs.Inside.ListedMap.{map_of};

use crate::Attachment;
use crate::edit::is_dropped;
use identity::{Gtsi, Itsi};
use mm_pdus::LocationUpdateType;
use std::cmp::Ordering;

// How many attachments the radio has.
pub(crate) fn count_of(entries: &[Attachment], itsi: Itsi) -> usize
    ensures count { result ≡ length (filter (λ a. a.itsi == itsi) entries.now) }
    ensures within { result ≤ length entries.now }
{
    entries
        .iter()
        .filter(|attachment| attachment.itsi == itsi)
        .count()
}

// Whether the radio has an attachment to the group.
pub(crate) fn has(entries: &[Attachment], itsi: Itsi, gtsi: Gtsi) -> bool
    requires { IsInOrder entries.now }
    ensures { result ≡ is_some (finite.get (map_of entries.now) (itsi, gtsi)) }
{
    place(entries, itsi, gtsi).is_ok()
}

// Whether the update ends one of them.
pub(crate) fn any_ends(entries: &[Attachment], update: LocationUpdateType) -> bool
    ensures { result ≡ list_any (λ a. is_dropped update a.lifetime) entries.now }
{
    entries
        .iter()
        .any(|attachment| is_dropped(update, attachment.lifetime))
}

// The first attachment after the group, or the first of all.
pub(crate) fn first_after(entries: &[Attachment], after: Option<Gtsi>) -> Option<&Attachment>
    ensures { option_copied result ≡ next_of nat_cmp (λ a. a.gtsi) entries.now after }
{
    entries
        .iter()
        .find(|attachment| is_after(attachment, after))
}

// Whether the attachment comes after the group.
fn is_after(attachment: &Attachment, after: Option<Gtsi>) -> bool
    ensures { result ≡ is_after nat_cmp (λ (a : Attachment). a.gtsi) after attachment.now }
{
    match after {
        Some(gtsi) => gtsi.number() < attachment.gtsi.number(),
        None => true,
    }
}

// Where the radio's attachment to the group is, or would go. Most come in order, so it looks at the last one first.
pub(crate) fn place(entries: &[Attachment], itsi: Itsi, gtsi: Gtsi) -> Result<usize, usize>
    ensures within { IsSearchInRange result (length entries.now) }
    ensures place { IsBinarySearchResult (λ a. pair_cmp (pair_of a) (itsi, gtsi)) entries.now result }
{
    if ends_before(entries, itsi, gtsi) {
        Err(entries.len())
    } else {
        search(entries, itsi, gtsi)
    }
}

// Whether the last attachment comes before the radio and the group.
fn ends_before(entries: &[Attachment], itsi: Itsi, gtsi: Gtsi) -> bool
    ensures { IsTrue result → (0 < length entries.now) × HoldsAt (λ a. pair_cmp (pair_of a) (itsi, gtsi) ≡ Less) entries.now (length entries.now - 1) }
{
    match entries.last() {
        Some(last) => order(last, itsi, gtsi).is_lt(),
        None => false,
    }
}

fn search(entries: &[Attachment], itsi: Itsi, gtsi: Gtsi) -> Result<usize, usize>
    ensures within { IsSearchInRange result (length entries.now) }
    ensures place { IsBinarySearchResult (λ a. pair_cmp (pair_of a) (itsi, gtsi)) entries.now result }
{
    entries.binary_search_by(|attachment| order(attachment, itsi, gtsi))
}

// How the attachment compares to the radio and the group.
fn order(attachment: &Attachment, itsi: Itsi, gtsi: Gtsi) -> Ordering
    ensures { result ≡ pair_cmp (pair_of attachment.now) (itsi, gtsi) }
{
    let by_radio = attachment.itsi.number().cmp(&itsi.number());
    by_radio.then(attachment.gtsi.number().cmp(&gtsi.number()))
}
