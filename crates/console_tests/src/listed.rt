//! Listings of a small register, in heaps of rising size, and in runs. `docs/formats/lines.md` has their lines.

use crate::answered::{answers, put};
use crate::least_heap::least_heap;
use centre_core::Register;
use console::{Answer, Lines, print_answer};
use identity::{Itsi, Prefix};
use linked_list_allocator::LocalHeap;
use listings::{Listing, Table, print_listing};
use mailbox::Moment;
use registration::{Limits, Station};
use std::alloc::Global;

/// Two rules, the later one a prefix of the earlier; two radios, of which one detaches. Then two messages and a report on the
/// first of them, which ends it, and before the report a copy of a group message.
const COMMANDS: &str = "1 0 rule 234-14-2048/37 5 50 2 60\n\
     2 0 rule 234-14-0/24 1 99 1 3600\n\
     3 10 mm 234-14-2049 9 10:260\n\
     4 11 mm 234-14-1001 7 10:260\n\
     5 20 mm 234-14-2049 9 60:7380480A00007D0\n\
     6 100 sds 234-14-2049 234-14-1001 48:820405014849\n\
     7 101 sds 234-14-2049 234-14-1001 48:820406014849\n\
     8 110 gsds 234-14-1001 234-14-1000 48:820007014849\n\
     9 120 sds 234-14-1001 234-14-2049 32:82100005\n\
     10 130 mm 234-14-2049 0 5:10\n\
     20 140 mm 234-14-1001 12 10:260\n";

/// All eleven commands were accepted.
const LAST_REPLY: &[u8] = b"20 ok 11 8:56\n";

const BEFORE: &[u8] = b"before\n";

/// Whether this is the text of a listing, after the text that was there before.
fn is_text(
    alloc: Global,
    register: &Register<Global>,
    listing: &Listing,
    want: &str,
) -> Option<bool> {
    let mut out = Vec::new(alloc);
    out.extend_from_slice(BEFORE).ok()?;
    print_listing(&mut out, register, listing).ok()?;
    Some(out.as_slice().strip_prefix(BEFORE) == Some(want.as_bytes()))
}

/// Whether this is the text of a listing of the small register.
fn is_listed(alloc: Global, listing: &Listing, want: &str) -> Option<bool> {
    let limits = Limits::new(16, 16, 256, 4)?;
    let mut register = Register::new(alloc, limits).ok()?;
    let replies = answers(alloc, alloc, &mut register, COMMANDS.as_bytes());
    let is_text = is_text(alloc, &register, listing, want);
    drop(register);
    Some(replies?.as_slice().ends_with(LAST_REPLY) && is_text?)
}

#[test]
fn rules_are_listed(rt: HostRuntime) {
    let listing = Listing::Entries(Table::Rules);
    let want = "rules 2\nrule 234-14-0/24 1 99 1 3600\nrule 234-14-2048/37 5 50 2 60\n";
    assert!(rt; is_listed(rt.alloc(), &listing, want) == Some(true));
}

#[test]
fn radios_are_listed(rt: HostRuntime) {
    let listing = Listing::Entries(Table::Radios(None));
    let want =
        "radios 2\nradio 234-14-1001 station 1 la 12 present\nradio 234-14-2049 station 1 la 9 absent\n";
    assert!(rt; is_listed(rt.alloc(), &listing, want) == Some(true));
}

/// Whether the radio under the longer prefix is listed alone.
fn is_listed_under(alloc: Global) -> Option<bool> {
    let first = Itsi::new(234, 14, 2048)?;
    let prefix = Prefix::new(first.number(), 37)?;
    let want = "radios 234-14-2048/37 1\nradio 234-14-2049 station 1 la 9 absent\n";
    is_listed(alloc, &Listing::Entries(Table::Radios(Some(prefix))), want)
}

#[test]
fn radios_under_a_prefix_are_listed(rt: HostRuntime) {
    assert!(rt; is_listed_under(rt.alloc()) == Some(true));
}

#[test]
fn items_are_listed(rt: HostRuntime) {
    let listing = Listing::Entries(Table::Items);
    let want = "items 3\n\
         item 7 234-14-1001 m 234-14-2049 6 3701 48:820406014849\n\
         item 8 234-14-2049 m 234-14-1001 7 3710 48:820007014849 234-14-1000\n\
         item 9 234-14-2049 r 234-14-1001 5 180 32:82100005\n";
    assert!(rt; is_listed(rt.alloc(), &listing, want) == Some(true));
}

#[test]
fn due_items_are_listed(rt: HostRuntime) {
    let listing = Listing::Entries(Table::Due(Moment::new(3701)));
    let want = "due 3701 2\n\
         item 7 234-14-1001 m 234-14-2049 6 3701 48:820406014849\n\
         item 9 234-14-2049 r 234-14-1001 5 180 32:82100005\n";
    assert!(rt; is_listed(rt.alloc(), &listing, want) == Some(true));
}

#[test]
fn a_last_command_is_listed(rt: HostRuntime) {
    let listing = Listing::Last(Station::new(1));
    assert!(rt; is_listed(rt.alloc(), &listing, "last 1 20 11 8:56\n") == Some(true));
}

#[test]
fn a_station_without_one_is_listed(rt: HostRuntime) {
    let listing = Listing::Last(Station::new(5));
    assert!(rt; is_listed(rt.alloc(), &listing, "last 5 none\n") == Some(true));
}

#[test]
fn room_is_listed(rt: HostRuntime) {
    let want = "room rules 2/16 radios 2/16 items 3/256 stations 1/4 fullest 234-14-2049 2/128\n";
    assert!(rt; is_listed(rt.alloc(), &Listing::Room, want) == Some(true));
}

/// What a call does in a heap: it prints the whole text, or it finds no memory and changes nothing.
fn is_printed(
    heap: &LocalHeap,
    register: &Register<Global>,
    listing: &Listing,
    want: &[u8],
) -> Option<bool> {
    let mut out = Vec::new(heap);
    out.extend_from_slice(BEFORE).ok()?;
    let printed = print_listing(&mut out, register, listing).is_ok();
    let right = if printed {
        out.as_slice().strip_prefix(BEFORE) == Some(want)
    } else {
        out.as_slice() == BEFORE
    };
    right.then_some(printed)
}

/// The same of a heap of this size, all of which must be free afterwards.
fn is_printed_in(
    alloc: Global,
    size: usize,
    register: &Register<Global>,
    want: &[u8],
) -> Option<bool> {
    let heap = LocalHeap::new(alloc, size).ok()?;
    let used = heap.used();
    let printed = is_printed(
        &heap,
        register,
        &Listing::Entries(Table::Radios(None)),
        want,
    )?;
    (heap.used() == used).then_some(printed)
}

/// Whether heaps of rising size have too little memory for the radios, and enough.
fn ends(alloc: Global, register: &Register<Global>, want: &[u8]) -> Option<[bool; 2]> {
    let mut seen = [false; 2];
    for step in 1..256usize {
        let printed = is_printed_in(alloc, 32 * step, register, want)?;
        seen[usize::from(printed)] = true;
    }
    Some(seen)
}

/// Commands of a rule and 40 radios, and the listing of these radios. It is longer than the room for an answer of one line.
#[derive(Drop)]
struct Radios {
    commands: Vec<u8>,
    listing: Vec<u8>,
}

fn add_radios(radios: &mut Radios) -> Option<()> {
    for turn in 2..42u64 {
        put(&mut radios.commands, "", turn, " 10 mm 234-14-")?;
        put(&mut radios.commands, "", 2000 + turn, " 7 10:260\n")?;
        put(
            &mut radios.listing,
            "radio 234-14-",
            2000 + turn,
            " station 1 la 7 present\n",
        )?;
    }
    Some(())
}

fn forty_radios(alloc: Global) -> Option<Radios> {
    let mut radios = Radios {
        commands: Vec::new(alloc),
        listing: Vec::new(alloc),
    };
    put(
        &mut radios.commands,
        "",
        1,
        " 0 rule 234-14-0/24 1 99 1 3600\n",
    )?;
    put(&mut radios.listing, "radios ", 40, "\n")?;
    add_radios(&mut radios)?;
    Some(radios)
}

/// The ends of a listing of forty radios in heaps of rising size.
fn ends_of_forty(alloc: Global) -> Option<[bool; 2]> {
    let (limits, radios) = (Limits::new(16, 64, 16, 4)?, forty_radios(alloc)?);
    let mut register = Register::new(alloc, limits).ok()?;
    let replies = answers(alloc, alloc, &mut register, &radios.commands);
    let ends = ends(alloc, &register, &radios.listing);
    drop(register);
    replies.and(ends)
}

#[test]
fn each_growth_is_refused_in_turn(rt: HostRuntime) {
    assert!(rt; ends_of_forty(rt.alloc()) == Some([true, true]));
}

/// Whether a run that has memory for one line of an answer lists no radios, and answers the next line.
fn goes_on(alloc: Global) -> Option<bool> {
    let (limits, mut radios) = (Limits::new(16, 64, 16, 4)?, forty_radios(alloc)?);
    radios.commands.extend_from_slice(b"radios\nroom\n").ok()?;
    let heap = LocalHeap::new(alloc, least_heap(alloc)?.saturating_add(192)).ok()?;
    let mut register = Register::new(alloc, limits).ok()?;
    let replies = answers(alloc, &heap, &mut register, &radios.commands);
    drop(register);
    Some(replies?.as_slice().ends_with(END_OF_RUN))
}

const END_OF_RUN: &[u8] =
    b"41 ok 41 8:56\nline 42 no memory\nroom rules 1/16 radios 40/64 items 0/16 stations 1/4 fullest none\n";

#[test]
fn a_run_goes_on_after_a_refused_listing(rt: HostRuntime) {
    assert!(rt; goes_on(rt.alloc()) == Some(true));
}

/// Whether both listings of one line are printed into room for 1,024 bytes, in a heap that has no more.
fn are_printed(heap: &LocalHeap, register: &Register<Global>) -> Option<bool> {
    let mut out = Vec::with_capacity(heap, 1024).ok()?;
    let is_full = Vec::<u8, &LocalHeap>::with_capacity(heap, 512).is_err();
    print_listing(&mut out, register, &Listing::Last(Station::new(1))).ok()?;
    print_listing(&mut out, register, &Listing::Room).ok()?;
    Some(is_full && out.as_slice() == LINES)
}

const LINES: &[u8] =
    b"last 1 20 11 8:56\nroom rules 2/16 radios 2/16 items 3/256 stations 1/4 fullest 234-14-2049 2/128\n";

/// The same of the small register.
fn fit_reserved(alloc: Global) -> Option<bool> {
    let (limits, heap) = (
        Limits::new(16, 16, 256, 4)?,
        LocalHeap::new(alloc, 1100).ok()?,
    );
    let mut register = Register::new(alloc, limits).ok()?;
    let replies = answers(alloc, alloc, &mut register, COMMANDS.as_bytes());
    let printed = are_printed(&heap, &register);
    drop(register);
    replies?;
    printed
}

#[test]
fn one_line_fits_reserved_room(rt: HostRuntime) {
    assert!(rt; fit_reserved(rt.alloc()) == Some(true));
}

/// The text of these lines as an answer.
fn printed(alloc: Global, bytes: Vec<u8>) -> Option<Vec<u8>> {
    let answer: Answer<Global> = Answer::Listed(Lines::new(bytes));
    let mut out = Vec::new(alloc);
    print_answer(&mut out, &answer).ok()?;
    Some(out)
}

/// Whether the lines of a listing are printed as they are.
fn are_lines_printed(alloc: Global) -> Option<bool> {
    let mut bytes = Vec::new(alloc);
    bytes.extend_from_slice(BEFORE).ok()?;
    let out = printed(alloc, bytes)?;
    Some(Lines::new(out).as_slice() == BEFORE)
}

#[test]
fn lines_are_an_answer(rt: HostRuntime) {
    assert!(rt; are_lines_printed(rt.alloc()) == Some(true));
}
