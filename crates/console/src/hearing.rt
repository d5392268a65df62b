//! Reading a line by the rights of its station. If the station may give no orders, they are forbidden.
ghost use Rattle.std.specs.Prelude.{◌≡◌, Some, IfOk, IfErr, false};
ghost use Rattle.console.specs.Reading.{heard, is_order, permitted, reading, sequence_of};
ghost use Rattle.console.specs.Runs.{speaker_of};

use crate::line::{Line, Unread, read_line};
use crate::running::Terms;
use centre_core::Body;
use registration::Station;
use std::alloc::Allocator;

/// Whether the body is an order.
fn is_order<A: Allocator>(body: &Body<A>) -> bool
    ensures { result ≡ is_order body.now }
{
    matches!(
        body,
        Body::RuleSet { .. } | Body::RuleClear { .. } | Body::Expire | Body::Delete(_)
    )
}

/// The line, if its station may give no orders: a command that is an order becomes [`Line::Forbidden`].
fn without_orders<A: Allocator>(line: Line<A>) -> Line<A>
    ensures { result ≡ permitted false line }
{
    match &line {
        Line::Apply(command) if is_order(&command.body) => Line::Forbidden(command.sequence),
        _ => line,
    }
}

/// As `read_line`, for a station that may give no orders.
#[tactic(auto, using(crate::proofs::Permitted::pdu_permitted))]
fn read_without_orders<A: Allocator>(
    alloc: A,
    station: Station,
    line: &[u8],
) -> Result<Line<A>, Unread>
    ensures ok { IfOk result (λ said. said ≡ permitted false (reading station line.now)) }
    ensures err { IfErr result (λ unread. sequence_of (permitted {A = A} false (reading station line.now)) ≡ Some unread.sequence) }
{
    match read_line(alloc, station, line) {
        Ok(said) => Ok(without_orders(said)),
        Err(unread) => Err(unread),
    }
}

/// As `read_line`, but an order is forbidden where the station may give none.
#[inline(always)]
pub(crate) fn hear_line<A: Allocator + Copy>(
    terms: &Terms<A>,
    line: &[u8],
) -> Result<Line<A>, Unread>
    ensures ok { IfOk result (λ said. said ≡ heard (speaker_of terms.now) line.now) }
    ensures err { IfErr result (λ unread. sequence_of (heard {A = A} (speaker_of terms.now) line.now) ≡ Some unread.sequence) }
{
    if terms.orders {
        return read_line(terms.alloc, terms.station, line);
    }
    read_without_orders(terms.alloc, terms.station, line)
}
