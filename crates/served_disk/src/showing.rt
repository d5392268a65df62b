//! One query or listing of a register, answered without a station.
ghost use Rattle.std.specs.Prelude.{◌≡◌, ◌≤◌, [], IfOk, vec_capacity};
ghost use Rattle.desk.specs.OfRegister.{of_register};
ghost use Rattle.listings.specs.Parts.{answer_room};
ghost use Rattle.console.specs.Dialogue.{AnswersQuery};
ghost use Rattle.console.specs.Reading.{reading};
ghost use Rattle.served_disk.specs.Showing.{IsListingOf, IsShown, IsTextOf, ShowsOrLists};

use centre_core::{Query, Register};
use console::{Answer, Line, LineFault, Outage, parse_line, print_answer};
use listings::{Listing, print_listing};
use registration::Station;
use std::alloc::{AllocError, Allocator};

/// What is shown for a query or a listing.
#[derive(Drop)]
pub struct Shown<A: Allocator> {
    /// The text of the answer.
    pub text: Vec<u8, A>,
    /// Whether the answer reports a bad line or out of memory.
    pub troubled: bool,
}

/// The answer to a query.
fn answer_query<A: Allocator + Copy, B: Allocator + Clone>(
    alloc: A,
    register: &Register<B>,
    query: &Query,
) -> Answer<A>
    ensures { AnswersQuery of_register 1 register.now query.now result register.now }
{
    match register.query(alloc, query) {
        Ok(answer) => Answer::Queried(answer),
        Err(_) => Answer::QueryOutage(1, Outage::Memory),
    }
}

/// The answer to the only line, or the listing that it asks for. A command is no query, and so a bad line; so are a mark and the
/// questions for the station and the service, which ask no register. Parsing takes memory only for a command.
fn answer<A: Allocator + Copy, B: Allocator + Clone>(
    alloc: A,
    register: &Register<B>,
    line: &[u8],
) -> Result<Answer<A>, Listing>
    ensures { ShowsOrLists register.now (reading 1 line.now) result }
{
    let Ok(said) = parse_line(alloc, Station::new(1), line) else {
        return Ok(Answer::Bad(1, LineFault::Syntax));
    };
    match &said {
        Line::Silent => Ok(Answer::Quiet),
        Line::Bad(fault) => Ok(Answer::Bad(1, *fault)),
        Line::Ask(query) => Ok(answer_query(alloc, register, query)),
        Line::Print(listing) => Err(*listing),
        Line::Apply(_) | Line::Mark(_) | Line::OwnStation(_) | Line::Service | Line::Forbidden(_) =>
            Ok(Answer::Bad(1, LineFault::Syntax)),
    }
}

/// Room for any text but a list's.
pub(crate) const ROOM: usize = 1024;

/// Makes the text of an answer, and returns whether it reports trouble. If memory runs out for a list, the text reports that
/// instead.
fn write_text<A: Allocator, B: Allocator>(text: &mut Vec<u8, A>, answer: &Answer<B>) -> bool
    requires empty { text.old.items ≡ [] }
    requires room { answer_room ≤ vec_capacity text.old }
    ensures { IsTextOf answer.now text.new.items result }
{
    if print_answer(text, answer).is_ok() {
        return answer.is_trouble();
    }
    print_answer(text, &Answer::<B>::QueryOutage(1, Outage::Memory)).unwrap();
    true
}

/// Makes the text of the answer to a listing, and returns whether it reports trouble.
fn write_listing<A: Allocator, B: Allocator + Clone>(
    text: &mut Vec<u8, A>,
    register: &Register<B>,
    listing: &Listing,
) -> bool
    requires empty { text.old.items ≡ [] }
    requires room { answer_room ≤ vec_capacity text.old }
    ensures { IsListingOf A register.now listing.now text.new.items result }
{
    if print_listing(text, register, listing).is_ok() {
        return false;
    }
    print_answer(text, &Answer::<A>::QueryOutage(1, Outage::Memory)).unwrap();
    true
}

/// Makes the text of the answer to the one line that the register is asked, and returns whether the answer reports trouble. A query is
/// answered at once. A listing comes as `Err`, because its text is written straight from the register.
fn write_shown<A: Allocator + Copy + Drop, B: Allocator + Clone>(
    text: &mut Vec<u8, A>,
    alloc: A,
    register: &Register<B>,
    line: &[u8],
) -> bool
    requires empty { text.old.items ≡ [] }
    requires room { answer_room ≤ vec_capacity text.old }
    ensures { IsShown A register.now line.now text.new.items result }
{
    match answer(alloc, register, line) {
        Ok(answer) => write_text(text, &answer),
        Err(listing) => write_listing(text, register, &listing),
    }
}

/// Answers a line that is to be a query, as the only line of a station; the register is only read. A command is a bad line.
///
/// # Errors
/// There is no memory for a text of 1,024 bytes. If there is none for a longer text, the answer reports out of memory.
pub fn show<A: Allocator + Copy + Drop, B: Allocator + Clone>(
    alloc: A,
    register: &Register<B>,
    line: &[u8],
) -> Result<Shown<A>, AllocError>
    ensures shown { IfOk result (λ shown. IsShown A register.now line.now shown.text.items shown.troubled) }
{
    let mut text = Vec::with_capacity(alloc, ROOM)?;
    let troubled = write_shown(&mut text, alloc, register, line);
    Ok(Shown { text, troubled })
}
