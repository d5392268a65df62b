// One record's bytes.
ghost use Rattle.std.specs.Prelude.{◌≡◌, ◌+◌, ◌<◌, ◌≤◌, ◌^◌, IfOk, IfSome, IsSome, OnErr, is_some, length, option_map};
ghost use Rattle.std.specs.List.{list_all};
ghost use Rattle.gated_journal.specs.Reading.{stated_view};
ghost use Rattle.gated_journal.specs.Record.{commands_in, first_at, follows, is_in_range, is_zero, most_commands, packed_of, record_of, stated_of};

use crate::Form;
use centre_core::Command;
use command_bytes::{after_first, decode_first, number};
use std::alloc::{AllocError, Allocator};

/// How many commands a record may have.
const MOST_COMMANDS: u64 = 64;

/// How many bytes a command may have.
pub(crate) const LONGEST_COMMAND: u64 = 281;

// Whether each byte is zero: the first one is, and each other one equals the one before it. So two slices are compared, in
// place of one byte after the other.
fn are_zeros(bytes: &[u8]) -> bool
    ensures { result ≡ list_all is_zero bytes.now }
{
    match bytes.split_first() {
        Some((first, rest)) => *first == 0 && rest == &bytes[..rest.len()],
        None => true,
    }
}

fn is_in_range(count: u64, size: u64) -> bool
    ensures { result ≡ is_in_range count size }
{
    1 <= count && count <= MOST_COMMANDS && size <= LONGEST_COMMAND * count
}

// What a record's data sectors state, before the commands are read.
#[derive(Drop)]
struct Packed<'a> {
    count: u64,
    first: Option<u64>,
    commands: &'a [u8],
}

// The number of the first command, where the form has one, and the bytes after it.
#[tactic(auto, unfolding(crate::specs::Record::first_at))]
fn first_at(form: Form, bytes: &[u8]) -> Option<(Option<u64>, &[u8])>
    ensures { option_map (λ x. (x.0, x.1.now)) result ≡ first_at form bytes.now }
{
    match form {
        Form::Plain => Some((None, bytes)),
        Form::Numbered => {
            let (number, rest) = number(bytes, 8)?;
            Some((Some(number), rest))
        }
    }
}

// Whether a record that states this number may follow so many accepted commands.
fn follows(before: u64, first: Option<u64>) -> bool
    requires { before + 1 < 2 ^ 64 }
    ensures { result ≡ follows before first }
{
    match first {
        None => true,
        Some(number) => number == before + 1,
    }
}

// What a record's data sectors state.
#[tactic(auto, unfolding(crate::specs::Record::packed_of))]
fn packed_of(form: Form, bytes: &[u8]) -> Option<Packed<'_>>
    ensures { option_map (λ x. record { count = x.count; first = x.first; bytes = x.commands.now }) result ≡ packed_of form bytes.now }
{
    let (count, rest) = number(bytes, 2)?;
    let (first, rest) = first_at(form, rest)?;
    let (size, rest) = number(rest, 4)?;
    if !is_in_range(count, size) || (rest.len() as u64) < size {
        return None;
    }
    let (commands, filling) = rest.split_at(size as usize);
    if !are_zeros(filling) {
        return None;
    }
    Some(Packed {
        count,
        first,
        commands,
    })
}

// Whether these bytes are so many commands in order, with no byte after them.
fn are_commands<A: Allocator>(count: u64, bytes: &[u8]) -> bool
    ensures { result ≡ is_some (commands_in {A = A} count bytes.now) }
{
    let mut rest = bytes;
    for _ in 0..count {
        match after_first::<A>(rest) {
            None => return false,
            Some(after) => rest = after,
        }
    }
    rest.is_empty()
}

// The bytes as so many commands in order. `None` where they are not that, or where other bytes follow the commands.
fn commands_in<A: Allocator + Clone>(
    alloc: A,
    count: u64,
    bytes: &[u8],
) -> Result<Option<Vec<Command<A>, A>>, AllocError>
    ensures { IfOk result (λ found. option_map (λ commands. commands.items) found ≡ commands_in count bytes.now) }
{
    let mut commands = Vec::with_capacity(alloc.clone()?, count as usize)?;
    let mut rest = bytes;
    for _ in 0..count {
        let Some((command, after)) = decode_first(alloc.clone()?, rest)? else {
            return Ok(None);
        };
        commands.push(command)?;
        rest = after;
    }
    if rest.is_empty() {
        Ok(Some(commands))
    } else {
        Ok(None)
    }
}

// The commands of a record, or `None` where its bytes are not as many as it states. `AllocError` comes only where they are.
fn decode_all<A: Allocator + Clone>(
    alloc: A,
    packed: &Packed<'_>,
) -> Result<Option<Vec<Command<A>, A>>, AllocError>
    ensures exact { IfOk result (λ found. option_map (λ commands. commands.items) found ≡ commands_in packed.now.count packed.now.commands.now) }
    ensures memory { OnErr result (IsSome (commands_in {A = A} packed.now.count packed.now.commands.now)) }
{
    match commands_in(alloc, packed.count, packed.commands) {
        Err(AllocError) if !are_commands::<A>(packed.count, packed.commands) => Ok(None),
        found => found,
    }
}

// The number of a record's commands, or `None` where its bytes are not so many commands. Takes no memory.
fn count_of<A: Allocator>(packed: &Packed<'_>) -> Option<u64>
    ensures { result ≡ option_map (λ commands. length commands) (commands_in {A = A} packed.now.count packed.now.commands.now) }
{
    if are_commands::<A>(packed.count, packed.commands) {
        Some(packed.count)
    } else {
        None
    }
}

/// A record as its bytes state it.
#[derive(Drop)]
pub struct Record<A: Allocator> {
    /// The number of its first command, where the form has one: how many commands are accepted with that one.
    pub first: Option<u64>,
    /// Its commands, 1 to 64, in order.
    pub commands: Vec<Command<A>, A>,
}

/// The record of this form in all of its data sectors, or `None` where the bytes are not a record's.
///
/// A record is: how many commands there are (1 to 64), in layout 2 the number of the first one, how many bytes they take, and
/// the commands in order, of at most 281 bytes each, with zeros after the last. `AllocError` comes only where the bytes are a
/// record's. Whether its number follows those of earlier records is judged where a half is read.
pub fn decode_record<A: Allocator + Clone>(
    alloc: A,
    form: Form,
    bytes: &[u8],
) -> Result<Option<Record<A>>, AllocError>
    ensures exact { IfOk result (λ found. option_map stated_view found ≡ stated_of form bytes.now) }
    ensures memory { OnErr result (IsSome (stated_of {A = A} form bytes.now)) }
{
    let Some(packed) = packed_of(form, bytes) else {
        return Ok(None);
    };
    let Some(commands) = decode_all(alloc, &packed)? else {
        return Ok(None);
    };
    Ok(Some(Record {
        first: packed.first,
        commands,
    }))
}

/// The commands of the record in all of its data sectors, where the record may follow `before` accepted commands.
///
/// `None` where the bytes are not such a record's. `AllocError` comes only where they are.
pub(crate) fn decode_next<A: Allocator + Clone>(
    alloc: A,
    form: Form,
    before: u64,
    bytes: &[u8],
) -> Result<Option<Vec<Command<A>, A>>, AllocError>
    requires { before + 1 < 2 ^ 64 }
    ensures exact { IfOk result (λ found. option_map (λ commands. commands.items) found ≡ record_of form before bytes.now) }
    ensures few { IfOk result (λ found. IfSome found (λ commands. length commands.items ≤ most_commands)) }
    ensures memory { OnErr result (IsSome (record_of {A = A} form before bytes.now)) }
{
    match packed_of(form, bytes) {
        Some(packed) if follows(before, packed.first) => decode_all(alloc, &packed),
        _ => Ok(None),
    }
}

/// How many commands `decode_next` finds. Takes no memory.
pub(crate) fn count_next<A: Allocator>(form: Form, before: u64, bytes: &[u8]) -> Option<u64>
    requires { before + 1 < 2 ^ 64 }
    ensures exact { result ≡ option_map (λ commands. length commands) (record_of {A = A} form before bytes.now) }
    ensures few { IfSome result (λ count. count ≤ most_commands) }
{
    match packed_of(form, bytes) {
        Some(packed) if follows(before, packed.first) => count_of::<A>(&packed),
        _ => None,
    }
}
