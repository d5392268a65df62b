//! A viewer inside the published copy.
ghost use Rattle.std.specs.Prelude.{◌≡◌, ◌≤◌, ◌++◌, length, IfOk, OnErr, OnOk, MatchResult, vec_capacity, vec_len};
ghost use mathlib.Core.List.{IsPrefix};
ghost use Rattle.centre_core.specs.History.{after};
ghost use Rattle.centre_core.specs.Histories.{IsHistory};
ghost use Rattle.centre_core.specs.Queries.{AsksForList, answer_to};
ghost use Rattle.listings.specs.Texts.{LacksRoom, listing_text};
ghost use Rattle.snapshots.specs.Views.{IsSnapshot};

use crate::log::Centre;
use crate::published::Published;
use crate::rule::{Inside, Sees};
use crate::viewer::Viewer;
use centre_core::{Query, QueryAnswer};
use listings::{Listing, print_listing};
use std::alloc::{AllocError, Allocator};
use std::marker::{Model, PhantomData};

/// A viewer inside the published copy. The copy stays as it is until the viewer leaves, so several queries are answered
/// from one state. Contracts model it as the list of commands that made the copy. It is not `Drop`: end it by `leave`,
/// since the second publication from now on waits for that.
pub struct Visit<J: Centre> {
    inside: Inside<J>,
    list: Published<J>,
    base: u64,
}

impl<J: Centre> Model for Visit<J> {
    ghost use Rattle.std.specs.Prelude.{◌≡◌, List};
    ghost use Rattle.std.specs.declared.alloc.Global.{Global};
    ghost use Rattle.centre_core.specs.Asked.{Asked};
    ghost use Rattle.centre_core.specs.History.{after};
    ghost use Rattle.centre_core.specs.Histories.{IsHistory};

    ghost Value = { List (Asked Global) };

    ghost view = { λ v. v.list };

    ghost invariant = { λ v. (v.base ≡ J.base.count) × (v.inside.part.value.register ≡ after J.base v.list) × IsHistory J.base v.list };
}

impl<J: Centre> Visit<J> {
    /// The answer to a query, kept under `alloc`. Only an answer that is a list takes memory.
    pub fn query<C: Allocator + Copy>(
        &self,
        alloc: C,
        query: &Query,
    ) -> Result<QueryAnswer<C>, AllocError>
        ensures answer { IfOk result (λ answer. answer ≡ answer_to (after J.base self.now) query.now) }
        ensures memory { OnErr result (AsksForList query.now) }
    {
        self.inside.get().register.query(alloc, query)
    }

    /// Adds the text of a listing. When memory runs out, `out` is unchanged.
    pub fn list<C: Allocator>(
        &self,
        listing: &Listing,
        out: &mut Vec<u8, C>,
    ) -> Result<(), AllocError>
        ensures listed { OnOk result (out.new.items ≡ out.old.items ++ listing_text (after J.base self.now) listing.now) }
        ensures full { OnErr result (LacksRoom (vec_len out.old) (vec_capacity out.old) (after J.base self.now) listing.now) }
        ensures same { OnErr result (out.new.items ≡ out.old.items) }
        ensures capacity { vec_capacity out.old ≤ vec_capacity out.new }
    {
        print_listing(out, &self.inside.get().register, listing)
    }

    /// How many commands made the copy.
    pub fn count(&self) -> u64
        ensures { result ≡ length self.now }
    {
        self.list.count()
    }

    /// The viewer has seen the list of this copy. Each command of it was accepted in its turn.
    pub fn leave(self) -> Viewer<J>
        ensures viewer { result ≡ self }
        ensures history { IsHistory J.base result }
    {
        let Visit { inside, list, base } = self;
        Viewer {
            reader: inside.leave(),
            known: list,
            base,
        }
    }
}

// The list of commands that made the copy inside.
fn list_of<J: Centre>(inside: &Inside<J>, base: u64) -> Published<J>
    requires base { base ≡ J.base.count }
    requires snapshot { IsSnapshot J.base J.book inside.now.part.value }
    ensures { result ≡ inside.now.part.value.list.log }
{
    let shown = inside.get();
    Published {
        count: shown.register.count() - base,
        list: shown.list.again(),
        of: PhantomData,
    }
}

// Enters the copy that is published now, whose list begins with all that the viewer has seen or learnt. It never
// waits. If the copy can't be entered, the viewer comes back as it was.
pub fn enter_copy<J: Centre>(viewer: Viewer<J>) -> Result<Visit<J>, Viewer<J>>
    ensures { MatchResult result (λ visit. IsPrefix viewer visit) (λ same. same ≡ viewer) }
{
    let Viewer {
        reader,
        known,
        base,
    } = viewer;
    match reader.enter_as::<Sees<J>>() {
        Ok(inside) => {
            let list = list_of(&inside, base);
            if !known.is_prefix_of(&list) {
                return Err(Viewer {
                    reader: inside.leave(),
                    known,
                    base,
                });
            }
            Ok(Visit { inside, list, base })
        }
        Err(reader) => Err(Viewer {
            reader,
            known,
            base,
        }),
    }
}
