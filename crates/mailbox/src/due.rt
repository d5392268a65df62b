//! From each place whose item has ended by a moment to the next.

ghost use Rattle.std.specs.Prelude.{◌≡◌, ◌+◌, ◌*◌, ◌<◌, ◌≤◌, is_some, if◌then◌else◌};
ghost use Rattle.std.specs.List.{find};
ghost use Rattle.std.specs.Option.{option_copied};
ghost use Rattle.mailbox.specs.Inside.Places.{InOrder, is_due_after, places_of, height_of};

use crate::Key;
use crate::node::{Link, first_due};
use crate::place::ItemPlace;
use base::Steps;
use std::alloc::Allocator;
use std::sync::ledger::Ledger;

/// The first place after this number and key, or the first of all, whose item has ended by the moment. Each visited
/// node is a step.
#[cycle(first_due_after)]
pub(crate) fn first_due_after<'n, A: Allocator, L: Ledger>(
    link: &'n Option<Link<A>>,
    moment: u64,
    after: &Option<(u64, Key)>,
    steps: &mut Steps<L>,
) -> Option<&'n ItemPlace>
    requires order { InOrder (places_of link.now) }
    requires end { moment < 18446744073709551615 }
    ensures first { option_copied result ≡ find (is_due_after moment after.now) (places_of link.now) }
    ensures cost { steps.new ≤ steps.old + (if is_some result then 4 * height_of link.now else 2 * height_of link.now + 1) }
{
    let Some(node) = link else {
        return None;
    };
    steps.tick();
    if node.is_later_than(moment) {
        return None;
    }
    let (place, earlier, later) = node.parts();
    if !place.is_after(after) {
        return first_due_after(later, moment, after, steps);
    }
    if let Some(first) = first_due_after(earlier, moment, after, steps) {
        return Some(first);
    }
    if place.deadline <= moment {
        return Some(place);
    }
    first_due(later, moment, steps)
}
