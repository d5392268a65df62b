ghost use Rattle.std.specs.Prelude.{◌≡◌, ◌≤◌, ◌<◌, ◌+◌, ◌++◌, OnOk, OnErr, length, vec_len, vec_capacity};
ghost use Rattle.console.specs.Answer.{text, is_trouble, IsLine};
ghost use Rattle.listings.specs.Parts.{answer_room};

use crate::answer_text::put_answer;
use crate::line::LineFault;
use crate::mark::Mark;
use centre_core::{QueryAnswer, Reply, Sequence};
use desk::Outage;
use identity::put_whole;
use registration::Station;
use std::alloc::{AllocError, Allocator};
use std::marker::Model;

/// The lines of a listing or of figures, with their ends. Contracts model them as their bytes.
#[derive(Drop)]
pub struct Lines<B: Allocator> {
    bytes: Vec<u8, B>,
}

impl<B: Allocator> Model for Lines<B> {
    ghost use Rattle.std.specs.Prelude.{List, ℕ};

    ghost Value = { List ℕ };

    ghost view = { λ l. l.bytes.items };
}

impl<B: Allocator> Lines<B> {
    /// These bytes as lines.
    pub fn new(bytes: Vec<u8, B>) -> Self
        ensures { result ≡ bytes.items }
    {
        Lines { bytes }
    }

    /// Their bytes.
    pub fn as_slice(&self) -> &[u8]
        ensures { result.now ≡ self.now }
    {
        self.bytes.as_slice()
    }
}

/// The answer to a line.
#[derive(Drop)]
pub enum Answer<B: Allocator> {
    /// None: the line is empty or a comment.
    Quiet,
    /// The line of this number, counted from 1, is bad.
    Bad(u64, LineFault),
    /// The reply to the command of this sequence.
    Replied(Sequence, Reply<B>),
    /// The command of this sequence was not carried out.
    CommandOutage(Sequence, Outage),
    /// The answer to a query.
    Queried(QueryAnswer<B>),
    /// The lines of a listing.
    Listed(Lines<B>),
    /// The query or listing in the line of this number was not answered.
    QueryOutage(u64, Outage),
    /// The mark, as it was written in the line.
    Marked(Mark),
    /// The station whose line it is.
    OwnStation(Station),
    /// The figures of the service, as lines.
    Service(Lines<B>),
    /// Memory ran out for the figures that the line of this number asks for.
    ServiceOutage(u64),
    /// The command of this sequence is an order, and the station may give none: nothing was done.
    Forbidden(Sequence),
}

impl<B: Allocator> Answer<B> {
    /// Whether it reports a bad line, or is an outage word.
    #[inline(always)]
    pub fn is_trouble(&self) -> bool
        ensures { result ≡ is_trouble self.now }
    {
        matches!(
            self,
            Answer::Bad(..)
                | Answer::CommandOutage(..)
                | Answer::QueryOutage(..)
                | Answer::ServiceOutage(_)
        )
    }
}

/// Adds the text of an answer: its lines with their ends, and nothing for [`Answer::Quiet`]. When memory runs
/// out, `out` is unchanged. Room for 1,024 bytes is enough for any answer but a list, a listing, the figures of a service, or a reply
/// with a PDU of more than 2,048 bits.
#[inline(always)]
pub fn print_answer<A: Allocator, B: Allocator>(
    out: &mut Vec<u8, A>,
    answer: &Answer<B>,
) -> Result<(), AllocError>
    ensures ok { OnOk result (out.new.items ≡ out.old.items ++ text answer.now) }
    ensures err { OnErr result (out.new.items ≡ out.old.items) }
    ensures full { OnErr result (vec_capacity out.old < vec_len out.old + length (text answer.now)) }
    ensures capacity { vec_capacity out.old ≤ vec_capacity out.new }
    ensures line { IsLine answer.now → OnErr result (vec_capacity out.old < vec_len out.old + answer_room) }
{
    let before = out.len();
    let put = put_answer(out, answer);
    if put.is_ok() {
        return Ok(());
    }
    put_whole(out, before, put)
}
