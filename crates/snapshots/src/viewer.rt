//! A reader of the published copy.
ghost use Rattle.std.specs.Prelude.{◌≡◌, ◌⊎◌, ◌<◌, ◌≤◌, ◌++◌, MatchBool, length, IfSome, IfOk, IfNone, OnErr, OnOk, IsErrOf, MatchResult};
ghost use Rattle.std.specs.Prelude.{vec_capacity, vec_len};
ghost use mathlib.Core.List.{IsPrefix};
ghost use Rattle.centre_core.specs.History.{after};
ghost use Rattle.centre_core.specs.Histories.{IsHistory};
ghost use Rattle.centre_core.specs.Queries.{AsksForList, answer_to};
ghost use Rattle.listings.specs.Texts.{LacksRoom, listing_text};
ghost use Rattle.snapshots.specs.declared.viewer.ReadFault.TheVariants.{Closed, NoMemory};

use crate::log::Centre;
use crate::published::Published;
use crate::rule::SnapshotReader;
use crate::visit::{Visit, enter_copy};
use centre_core::{Query, QueryAnswer};
use core::mem::{replace, replace_with};
use listings::Listing;
use std::alloc::{AllocError, Allocator};
use std::marker::Model;

/// Why a read has no answer.
#[derive(Debug, Drop)]
pub enum ReadFault {
    /// There was no memory for the answer.
    NoMemory,
    /// The published copy could not be entered.
    Closed,
}

/// A reader of the published copy. Contracts model it as the list that it has seen or learnt.
#[derive(Drop)]
pub struct Viewer<J: Centre> {
    pub(crate) reader: SnapshotReader<J>,
    pub(crate) known: Published<J>,
    pub(crate) base: u64,
}

impl<J: Centre> Model for Viewer<J> {
    ghost use Rattle.std.specs.Prelude.{◌≡◌, List};
    ghost use Rattle.std.specs.declared.alloc.Global.{Global};
    ghost use Rattle.centre_core.specs.Asked.{Asked};

    ghost Value = { List (Asked Global) };

    ghost view = { λ v. v.known };

    ghost invariant = { λ v. v.base ≡ J.base.count };
}

// The answer of the published copy, and how many commands made that copy; and the viewer, which has left the copy.
fn answer_query<J: Centre, C: Allocator + Copy>(
    viewer: Viewer<J>,
    asked: (&Query, C),
) -> (Viewer<J>, Option<(Result<QueryAnswer<C>, AllocError>, u64)>)
    ensures later { IsPrefix viewer result.0 }
    ensures history { IfSome result.1 (λ r. IsHistory J.base result.0) }
    ensures answer { IfSome result.1 (λ r. IfOk r.0 (λ answer. answer ≡ answer_to (after J.base result.0) asked.entry.0.now)) }
    ensures count { IfSome result.1 (λ r. r.1 ≡ length result.0) }
    ensures memory { IfSome result.1 (λ r. OnErr r.0 (AsksForList asked.entry.0.now)) }
    ensures closed { IfNone result.1 (result.0 ≡ viewer) }
{
    match enter_copy(viewer) {
        Ok(visit) => {
            let (query, alloc) = asked;
            let answer = visit.query(alloc, query);
            let count = visit.count();
            (visit.leave(), Some((answer, count)))
        }
        Err(viewer) => (viewer, None),
    }
}

// The answer of the published copy, as `answer_query` gives it; the viewer is changed in place.
fn answer_in_place<J: Centre, C: Allocator + Copy>(
    viewer: &mut Viewer<J>,
    asked: (&Query, C),
) -> Option<(Result<QueryAnswer<C>, AllocError>, u64)>
    ensures later { IsPrefix viewer.old viewer.new }
    ensures history { IfSome result (λ r. IsHistory J.base viewer.new) }
    ensures answer { IfSome result (λ r. IfOk r.0 (λ answer. answer ≡ answer_to (after J.base viewer.new) asked.entry.0.now)) }
    ensures count { IfSome result (λ r. r.1 ≡ length viewer.new) }
    ensures memory { IfSome result (λ r. OnErr r.0 (AsksForList asked.entry.0.now)) }
    ensures closed { IfNone result (viewer.new ≡ viewer.old) }
{
    replace_with(viewer, asked, |viewer, asked| answer_query(viewer, asked))
}

// The text with the listing of the published copy, or without it and why; and the viewer, which has left the copy.
fn put_listing<J: Centre, C: Allocator + Copy>(
    viewer: Viewer<J>,
    asked: (&Listing, Vec<u8, C>),
) -> (Viewer<J>, (Vec<u8, C>, Result<(), ReadFault>))
    ensures later { IsPrefix viewer result.0 }
    ensures history { OnOk result.1.1 (IsHistory J.base result.0) }
    ensures listed { OnOk result.1.1 (result.1.0.items ≡ asked.entry.1.items ++ listing_text (after J.base result.0) asked.entry.0.now) }
    ensures memory { IsErrOf result.1.1 NoMemory → LacksRoom (vec_len asked.entry.1) (vec_capacity asked.entry.1) (after J.base result.0) asked.entry.0.now }
    ensures closed { IsErrOf result.1.1 Closed → result.0 ≡ viewer }
    ensures same { OnErr result.1.1 (result.1.0.items ≡ asked.entry.1.items) }
    ensures capacity { vec_capacity asked.entry.1 ≤ vec_capacity result.1.0 }
{
    let (listing, mut text) = asked;
    match enter_copy(viewer) {
        Ok(visit) => {
            let done = visit.list(listing, &mut text);
            (visit.leave(), (text, done.or(Err(ReadFault::NoMemory))))
        }
        Err(viewer) => (viewer, (text, Err(ReadFault::Closed))),
    }
}

// The text with the listing, as `put_listing` gives it; the viewer is changed in place.
fn list_in_place<J: Centre, C: Allocator + Copy>(
    viewer: &mut Viewer<J>,
    text: Vec<u8, C>,
    listing: &Listing,
) -> (Vec<u8, C>, Result<(), ReadFault>)
    ensures later { IsPrefix viewer.old viewer.new }
    ensures history { OnOk result.1 (IsHistory J.base viewer.new) }
    ensures listed { OnOk result.1 (result.0.items ≡ text.items ++ listing_text (after J.base viewer.new) listing.now) }
    ensures memory { IsErrOf result.1 NoMemory → LacksRoom (vec_len text) (vec_capacity text) (after J.base viewer.new) listing.now }
    ensures closed { IsErrOf result.1 Closed → viewer.new ≡ viewer.old }
    ensures same { OnErr result.1 (result.0.items ≡ text.items) }
    ensures capacity { vec_capacity text ≤ vec_capacity result.0 }
{
    replace_with(
        viewer,
        (listing, text),
        |viewer, asked| put_listing(viewer, asked),
    )
}

impl<J: Centre> Viewer<J> {
    /// The answer to a query after a list of commands, kept under `alloc`, with the length of that list. Each of them was
    /// accepted in its turn, and the list begins with all that the viewer has seen or learnt. It never waits. `NoMemory` comes
    /// only where the answer is a list; the viewer may then have seen more. After `Closed` nothing has changed.
    pub fn read<C: Allocator + Copy>(
        &mut self,
        alloc: C,
        query: &Query,
    ) -> Result<(QueryAnswer<C>, u64), ReadFault>
        ensures later { IsPrefix self.old self.new }
        ensures history { OnOk result (IsHistory J.base self.new) }
        ensures answer { IfOk result (λ r. (r.0 ≡ answer_to (after J.base self.new) query.now) × (r.1 ≡ length self.new)) }
        ensures memory { IsErrOf result NoMemory → AsksForList query.now }
        ensures closed { IsErrOf result Closed → self.new ≡ self.old }
    {
        let Some((answer, count)) = answer_in_place(self, (query, alloc)) else {
            return Err(ReadFault::Closed);
        };
        match answer {
            Ok(answer) => Ok((answer, count)),
            Err(_) => Err(ReadFault::NoMemory),
        }
    }

    /// Adds the text of a listing after a list of commands to `out`. Each of them was accepted in its turn, and the list
    /// begins with all that the viewer has seen or learnt. It never waits. If it fails, `out` is unchanged. `NoMemory` comes
    /// only where the text has no room; the viewer may then have seen more. After `Closed` nothing has changed.
    pub fn list<C: Allocator + Copy>(
        &mut self,
        listing: &Listing,
        out: &mut Vec<u8, C>,
    ) -> Result<(), ReadFault>
        ensures later { IsPrefix self.old self.new }
        ensures history { OnOk result (IsHistory J.base self.new) }
        ensures listed { OnOk result (out.new.items ≡ out.old.items ++ listing_text (after J.base self.new) listing.now) }
        ensures memory { IsErrOf result NoMemory → LacksRoom (vec_len out.old) (vec_capacity out.old) (after J.base self.new) listing.now }
        ensures closed { IsErrOf result Closed → self.new ≡ self.old }
        ensures unlisted { OnErr result (out.new.items ≡ out.old.items) }
        ensures capacity { vec_capacity out.old ≤ vec_capacity out.new }
    {
        let alloc = *out.allocator();
        let (text, done) = list_in_place(self, replace(out, Vec::new(alloc)), listing);
        *out = text;
        done
    }

    /// Enters the copy that is published now, whose list begins with all that the viewer has seen or learnt. It never
    /// waits. If the copy can't be entered, the viewer comes back as it was.
    pub fn enter(self) -> Result<Visit<J>, Viewer<J>>
        ensures { MatchResult result (λ visit. IsPrefix self visit) (λ same. same ≡ self) }
    {
        enter_copy(self)
    }

    /// How many commands it has seen or learnt.
    pub fn count(&self) -> u64
        ensures { result ≡ length self.now }
    {
        self.known.count()
    }

    /// Whether this list begins with all that it has seen. If not, the list is shorter.
    pub fn is_within(&self, list: &Published<J>) -> bool
        ensures { MatchBool result (IsPrefix self.now list.now) (length list.now < length self.now) }
    {
        self.known.is_prefix_of(list)
    }

    /// It has seen this list, which begins with all that it had seen.
    pub fn follow(&mut self, list: &Published<J>)
        requires { IsPrefix self.old list.now }
        ensures { self.new ≡ list.now }
    {
        self.known = list.copy();
    }

    /// It learns this list: what it reads from then on begins with it. It never waits.
    pub fn learn(&mut self, list: &Published<J>)
        ensures one { (self.new ≡ self.old) ⊎ (self.new ≡ list.now) }
        ensures seen { IsPrefix self.old self.new }
        ensures learnt { IsPrefix list.now self.new }
    {
        self.known = self.known.longer(list);
    }
}
