//! The rows of registers, taken one after another: the register is the one that its commands make.
use crate::rows::sector;
use centre_core::{Command, Query, QueryAnswer, Refusal, Register, Reply};
use identity::{Gtsi, Itsi};
use image_rows::Loader;
use mailbox::Item;
use registration::Limits;
use std::alloc::{Allocator, Global};

/// The end of a radio's roaming that keeps its group: its commands.
const ROAMING: &str = "\
0001 00000001 00000000 01 18 3a800e000000 0001 0063 01 00000e10
0001 00000002 0000000a 03 3a800e0007d1 0007 000a 2600
0001 00000003 00000014 03 3a800e0007d1 0007 003c 7380480a00007d00
0001 00000004 0000001e 03 3a800e0007d1 0008 000a 2000";

/// Its rows, put together by hand.
const ROAMED: &str = "\
16 0000000000000001 0000000000000004 00000001 00000001 00000000 00000001
11 18 3a800e000000 0001 0063 01 00000e10
12 3a800e0007d1 0001 0008 01 01 3a800e0003e8 11
14 0001 00000004 0000000000000004 0008 50";

/// A message and both reports on it.
const REPORTING: &str = "\
0001 00000001 00000000 01 18 3a800e000000 0001 0063 01 00000e10
0001 00000002 0000000a 03 3a800e0007d1 0007 000a 2600
0001 00000003 0000000a 03 3a800e0007d2 0007 000a 2600
0001 00000004 00000064 04 3a800e0007d1 3a800e0007d2 0030 820c05014849
0001 00000005 0000006e 04 3a800e0007d2 3a800e0007d1 0020 82100005
0001 00000006 00000078 04 3a800e0007d2 3a800e0007d1 0020 82100205";

const REPORTED: &str = "\
16 0000000000000001 0000000000000006 00000001 00000002 00000001 00000001
11 18 3a800e000000 0001 0063 01 00000e10
12 3a800e0007d1 0001 0007 01 00
12 3a800e0007d2 0001 0007 01 00
13 0000000000000006 0000000000000e88 3a800e0007d1 3a800e0007d2 05 01 0020 82100205
14 0001 00000006 0000000000000006 0000";

/// A message to a group of two radios.
const SENDING: &str = "\
0001 00000001 00000000 01 18 3a800e000000 0001 0063 01 00000e10
0001 00000002 0000000a 03 3a800e0007d1 0007 000a 2600
0001 00000003 00000014 03 3a800e0007d1 0007 003c 7380480a00007d00
0001 00000004 00000015 03 3a800e0007d2 0007 000a 2600
0001 00000005 00000016 03 3a800e0007d2 0007 003c 7380480a00007d00
0001 00000006 00000064 08 3a800e0007d1 3a800e0003e8 0030 820405014849";

const SENT: &str = "\
16 0000000000000001 0000000000000006 00000001 00000002 00000001 00000001
11 18 3a800e000000 0001 0063 01 00000e10
12 3a800e0007d1 0001 0007 01 01 3a800e0003e8 11
12 3a800e0007d2 0001 0007 01 01 3a800e0003e8 11
15 0000000000000006 0000000000000e74 3a800e0007d2 3a800e0007d1 05 00 3a800e0003e8 0030 820405014849
14 0001 00000006 0000000000000006 0000";

/// A register whose numbers are used up.
const LAST: &str = "16 0000000000000001 4000000000000000 00000000 00000000 00000000 00000000";

/// The radios and the group of the tables.
const RADIOS: [u64; 3] = [0x3a80_0e00_07d1, 0x3a80_0e00_07d2, 0x3a80_0e00_07d3];

const GROUP: u64 = 0x3a80_0e00_03e8;

/// The row of a text, a whole sector.
pub fn row(alloc: Global, text: &str) -> Option<[u8; 512]> {
    let bytes = sector(alloc, text, 0).ok()?;
    let mut row = [0; 512];
    for (to, from) in row.iter_mut().zip(bytes.iter()) {
        *to = *from;
    }
    Some(row)
}

/// Room for ten of each, and four stations.
pub fn limits() -> Option<Limits> {
    Limits::new(10, 10, 10, 4)
}

/// Whether all of the rows are taken, and the last one leaves the image whole.
fn are_taken(alloc: Global, loader: &mut Loader<Global>, rows: &str) -> Option<bool> {
    for text in rows.lines() {
        let row = row(alloc, text)?;
        if loader.is_whole() || !loader.take(&row).ok()? {
            return Some(false);
        }
    }
    Some(loader.is_whole())
}

/// The register of epoch 1, where its rows were taken.
fn finished(loader: Loader<Global>, taken: bool) -> Option<Register<Global>> {
    let (epoch, register) = loader.finish()?;
    (taken && epoch == 1).then_some(register)
}

/// Whether the image is one of epoch 1, after six commands.
pub fn is_finished<A: Allocator + Clone>(loader: Loader<A>) -> bool {
    let image = loader.finish();
    let is_finished = match &image {
        Some((epoch, register)) => *epoch == 1 && register.count() == 6,
        None => false,
    };
    drop(image);
    is_finished
}

/// The register of the rows, all of them taken; nothing where one is not.
pub fn loaded(alloc: Global, rows: &str) -> Option<Register<Global>> {
    let mut loader = Loader::new(alloc, limits()?).ok()?;
    let taken = are_taken(alloc, &mut loader, rows) == Some(true);
    finished(loader, taken)
}

/// The command of a text.
fn command(alloc: Global, text: &str) -> Option<Command<Global>> {
    let bytes = sector(alloc, text, 0).ok()?;
    let decoded = command_bytes::decode_first(alloc, &bytes).ok()?;
    let (command, _) = decoded?;
    Some(command)
}

/// What the command of a text is answered.
fn answer(alloc: Global, register: &mut Register<Global>, text: &str) -> Option<Reply<Global>> {
    let command = command(alloc, text)?;
    let reply = register.apply(alloc, &command);
    drop(command);
    reply.ok()
}

/// Whether the register accepts the command of a text.
pub fn is_accepted(alloc: Global, register: &mut Register<Global>, text: &str) -> bool {
    let reply = answer(alloc, register, text);
    let is_accepted = matches!(&reply, Some(Reply::Accepted { .. }));
    drop(reply);
    is_accepted
}

/// Whether the register accepts each of the commands.
fn are_accepted(alloc: Global, register: &mut Register<Global>, commands: &str) -> bool {
    for text in commands.lines() {
        if !is_accepted(alloc, register, text) {
            return false;
        }
    }
    true
}

fn same_item(a: &Item<Global>, b: &Item<Global>) -> bool {
    a.key() == b.key()
        && a.number() == b.number()
        && a.deadline() == b.deadline()
        && a.group() == b.group()
        && a.pdu().same(b.pdu())
}

fn same_items(a: &[Item<Global>], b: &[Item<Global>]) -> bool {
    a.len() == b.len() && a.iter().zip(b).all(|(a, b)| same_item(a, b))
}

/// Whether two answers are one.
fn same(a: &QueryAnswer<Global>, b: &QueryAnswer<Global>) -> bool {
    match (a, b) {
        (QueryAnswer::Whereabouts { radio: a, .. }, QueryAnswer::Whereabouts { radio: b, .. }) => a
            == b,
        (QueryAnswer::Look { rule: a, .. }, QueryAnswer::Look { rule: b, .. }) => match (a, b) {
            (Some((p, r)), Some((q, s))) => p.same(q) && r == s,
            (None, None) => true,
            _ => false,
        },
        (QueryAnswer::Groups { groups: a, .. }, QueryAnswer::Groups { groups: b, .. }) => {
            a.as_slice() == b.as_slice()
        }
        (QueryAnswer::Members { members: a, .. }, QueryAnswer::Members { members: b, .. }) => {
            a.as_slice() == b.as_slice()
        }
        (QueryAnswer::Waiting { items: a, .. }, QueryAnswer::Waiting { items: b, .. }) => {
            same_items(a.as_slice(), b.as_slice())
        }
        (QueryAnswer::Total(a), QueryAnswer::Total(b)) => a == b,
        _ => false,
    }
}

fn answer_alike(alloc: Global, a: &Register<Global>, b: &Register<Global>, query: &Query) -> bool {
    let (a, b) = (a.query(alloc, query), b.query(alloc, query));
    let alike = match (&a, &b) {
        (Ok(a), Ok(b)) => same(a, b),
        _ => false,
    };
    drop(a);
    drop(b);
    alike
}

/// Whether two registers answer every query on the radio alike.
fn are_alike_on(alloc: Global, a: &Register<Global>, b: &Register<Global>, number: u64) -> bool {
    let Some(itsi) = Itsi::from_number(number) else {
        return false;
    };
    answer_alike(alloc, a, b, &Query::Whereabouts(itsi))
        && answer_alike(alloc, a, b, &Query::Look(itsi))
        && answer_alike(alloc, a, b, &Query::GroupsOf(itsi))
        && answer_alike(alloc, a, b, &Query::Waiting(itsi))
}

/// Whether two registers answer every query on the radios and the group alike.
fn are_alike(alloc: Global, a: &Register<Global>, b: &Register<Global>) -> bool {
    let [first, second, third] = RADIOS;
    let Some(group) = Gtsi::from_number(GROUP) else {
        return false;
    };
    are_alike_on(alloc, a, b, first)
        && are_alike_on(alloc, a, b, second)
        && are_alike_on(alloc, a, b, third)
        && answer_alike(alloc, a, b, &Query::MembersOf(group))
        && answer_alike(alloc, a, b, &Query::Total)
}

/// Whether the last command is answered as the one that came before.
fn is_kept(alloc: Global, register: &mut Register<Global>, commands: &str) -> bool {
    let Some(text) = commands.lines().last() else {
        return false;
    };
    let reply = answer(alloc, register, text);
    let is_kept = matches!(&reply, Some(Reply::Kept { .. }));
    drop(reply);
    is_kept
}

/// Whether the register answers as the other one once that accepts the commands, and the last command as the one that
/// came before.
fn is_as(
    alloc: Global,
    register: &mut Register<Global>,
    made: &mut Register<Global>,
    commands: &str,
) -> bool {
    are_accepted(alloc, made, commands)
        && are_alike(alloc, register, made)
        && is_kept(alloc, register, commands)
}

fn is_made(alloc: Global, register: &mut Register<Global>, commands: &str) -> Option<bool> {
    let mut made = Register::new(alloc, limits()?).ok()?;
    let is_as = is_as(alloc, register, &mut made, commands);
    drop(made);
    Some(is_as)
}

/// Whether the rows make the register that the commands make.
fn is_loaded(alloc: Global, rows: &str, commands: &str) -> Option<bool> {
    let mut register = loaded(alloc, rows)?;
    let is_made = is_made(alloc, &mut register, commands);
    drop(register);
    is_made
}

/// Whether the one item that waits for the radio is a copy for the group.
fn has_copy(register: &Register<Global>) -> bool {
    match register.mail().next(None) {
        Some(item) => {
            item.key().destination.number() == RADIOS[1]
                && item.group().is_some_and(|group| group.number() == GROUP)
        }
        None => false,
    }
}

/// Whether a copy of a group message keeps its group.
fn has_group(alloc: Global) -> Option<bool> {
    let register = loaded(alloc, SENT)?;
    let has_group = register.mail().len() == 1 && has_copy(&register);
    drop(register);
    Some(has_group)
}

/// Whether the register refuses the next command since its numbers are used up.
fn refuses(alloc: Global, register: &mut Register<Global>) -> bool {
    let reply = answer(alloc, register, "0001 00000001 00000000 06");
    let is_refused = matches!(&reply, Some(Reply::Refused(Refusal::NumbersUsedUp)));
    drop(reply);
    is_refused
}

/// Whether a register whose numbers are used up is loaded, and refuses the next command for it.
fn is_used_up(alloc: Global) -> Option<bool> {
    let mut register = loaded(alloc, LAST)?;
    let refuses = refuses(alloc, &mut register);
    drop(register);
    Some(refuses)
}

#[test]
fn groups_that_roamed_are_loaded(rt: HostRuntime) {
    assert!(rt; is_loaded(rt.alloc(), ROAMED, ROAMING) == Some(true));
}

#[test]
fn reports_are_loaded(rt: HostRuntime) {
    assert!(rt; is_loaded(rt.alloc(), REPORTED, REPORTING) == Some(true));
}

#[test]
fn copies_are_loaded(rt: HostRuntime) {
    assert!(rt; is_loaded(rt.alloc(), SENT, SENDING) == Some(true));
}

#[test]
fn copies_have_their_group(rt: HostRuntime) {
    assert!(rt; has_group(rt.alloc()) == Some(true));
}

#[test]
fn used_up_numbers_are_loaded(rt: HostRuntime) {
    assert!(rt; is_used_up(rt.alloc()) == Some(true));
}
