// A register that is kept on a disk in memory. Commits are timed beside the same commands applied to a register in memory. The
// opening of a whole disk is timed beside reading its sectors and building its tables by the calls of the tables alone.
ghost use Rattle.std.specs.Prelude.{◌≤◌, length};

use crate::building::Tables;
use crate::filling::{itsi, message, update};
use centre_core::{Body, Command, Register, Reply, Sequence};
use checkpoint::{Layout, Side};
use identity::Prefix;
use mailbox::Moment;
use mm_pdus::Lifetime;
use recovery::{Outcome, Store, StoreFault, format};
use registration::{Limits, LocationArea, Rule, Station};
use sector_disk::{Disk, MemoryDisk};
use std::alloc::Global;
use std::time::{Duration, Instant};

// The commands of each batch.
const BATCH: u32 = 64;

// A register of 64 radios, of which commits are timed.
const FEW: Limits = Limits {
    rules: 16,
    radios: 64,
    mail: 256,
    stations: 4,
};

// A register of many radios and items, whose disk is opened.
const MANY: Limits = Limits {
    rules: 16,
    radios: 65_536,
    mail: 65_536,
    stations: 64,
};
// How many batches add all radios, and how many all items.
const FILLING: u32 = 1_024;

// The sectors of a half: `SHORT` for the register `FEW`, `LONG` for `MANY`. A record of 64 attaches has a gate and three sectors with data.
const SHORT: u32 = 39;

const LONG: u32 = 65_536;
// How many such records fill a half of either length.
const SHORT_FULL: u32 = 9;

const LONG_FULL: u32 = 16_383;

// More calls than either disk gets before it forgets them.
const FEW_CALLS: usize = 999;

const MANY_CALLS: usize = 420_000;

// How often the half is filled, and how often the disk is opened.
const COMMITS: u32 = 500;

const OPENINGS: u32 = 5;

// What each command of a batch asks.
#[derive(Clone, Copy, Drop)]
enum Asked {
    Rule,
    Attach,
    Message,
}

// The one rule, which serves all.
fn rule() -> Option<Body<Global>> {
    let area = LocationArea::new(7)?;
    let rule = Rule::new(area, area, Lifetime::NextItsiAttach, 60)?;
    let prefix = Prefix::of(0, 0);
    Some(Body::RuleSet { prefix, rule })
}

// What is asked for the radio or the item of this number.
fn body(alloc: Global, asked: Asked, k: u32) -> Option<Body<Global>> {
    match asked {
        Asked::Rule => rule(),
        Asked::Attach => Some(Body::Mm {
            itsi: itsi(k)?,
            area: LocationArea::new(7)?,
            pdu: update(alloc)?,
        }),
        Asked::Message => Some(Body::Sds {
            source: itsi(0)?,
            destination: itsi(k / 128)?,
            pdu: message(alloc, k)?,
        }),
    }
}

// A batch for a register that has accepted `count` commands, from this radio or item on.
fn batch(
    alloc: Global,
    asked: Asked,
    first: u32,
    count: u64,
) -> Option<Vec<Command<Global>, Global>> {
    let mut commands = Vec::with_capacity(alloc, BATCH as usize).ok()?;
    let last = u32::try_from(count).ok()?;
    for k in 0..BATCH {
        let body = body(alloc, asked, first.checked_add(k)?)?;
        let sequence = Sequence::new(last.checked_add(k)?.checked_add(1)?)?;
        let command = Command::new(Station::new(1), sequence, Moment::new(0), body)?;
        commands.push(command).ok()?;
    }
    Some(commands)
}

// Applies the commands, and keeps the replies.
fn apply_all(
    alloc: Global,
    register: &mut Register<Global>,
    commands: &[Command<Global>],
    replies: &mut Vec<Reply<Global>, Global>,
) -> Option<()> {
    for command in commands {
        let reply = register.apply(alloc, command).ok()?;
        replies.push(reply).ok()?;
    }
    Some(())
}

// How long applying the commands takes. The list of replies is made before the time is taken, and dropped after it.
fn applied(
    rt: &HostRuntime,
    register: &mut Register<Global>,
    commands: &[Command<Global>],
) -> Option<Duration> {
    let mut replies = Vec::with_capacity(rt.alloc(), commands.len()).ok()?;
    let start = Instant::now(rt).ok()?;
    apply_all(rt.alloc(), register, commands, &mut replies)?;
    start.elapsed(rt).ok()
}

// References to the commands.
fn borrowed<'a>(
    alloc: Global,
    commands: &'a [Command<Global>],
) -> Option<Vec<&'a Command<Global>, Global>> {
    let mut list = Vec::with_capacity(alloc, commands.len()).ok()?;
    for command in commands {
        list.push(command).ok()?;
    }
    Some(list)
}

// How long committing the commands takes. The outcomes are dropped after the time is taken.
fn committed<D: Disk>(
    rt: &HostRuntime,
    store: &mut Store<Global, D>,
    commands: &[Command<Global>],
) -> Option<Duration> {
    let list = borrowed(rt.alloc(), commands)?;
    if list.len() > 64 {
        return None;
    }
    let start = Instant::now(rt).ok()?;
    let outcomes = commit(rt.alloc(), store, &list);
    let took = start.elapsed(rt).ok()?;
    outcomes.is_ok().then_some(took)
}

// Commits the commands, after a checkpoint if there is no room for them.
fn commit<D: Disk>(
    alloc: Global,
    store: &mut Store<Global, D>,
    commands: &[&Command<Global>],
) -> Result<Vec<Outcome<Global>, Global>, StoreFault>
    requires { length commands.now ≤ 64 }
{
    match store.commit(alloc, commands) {
        Err(StoreFault::Unready) => {
            store.checkpoint()?;
            store.commit(alloc, commands)
        }
        done => done,
    }
}

// The time of commits, of the longest one of them, and of the same commands applied.
#[derive(Clone, Copy, Drop)]
struct Timed {
    committed: Duration,
    longest: Duration,
    applied: Duration,
}

// The longer of two times.
fn longer(one: Duration, other: Duration) -> Duration {
    if one.as_nanos() > other.as_nanos() {
        one
    } else {
        other
    }
}

// Makes a batch, applies it to the register and commits it to the store. Both must have accepted the same commands before and after it.
fn give<D: Disk>(
    rt: &HostRuntime,
    store: &mut Store<Global, D>,
    register: &mut Register<Global>,
    asked: Asked,
    first: u32,
) -> Option<Timed> {
    let commands = batch(rt.alloc(), asked, first, register.count())?;
    let applied = applied(rt, register, &commands)?;
    let committed = committed(rt, store, &commands)?;
    (store.register()?.count() == register.count()).then_some(Timed {
        committed,
        longest: committed,
        applied,
    })
}

// Gives this many batches, from the first radio or item on. After the last radio they begin with the first again.
fn give_all<D: Disk>(
    rt: &HostRuntime,
    store: &mut Store<Global, D>,
    register: &mut Register<Global>,
    asked: Asked,
    batches: u32,
) -> Option<Timed> {
    let mut all = Timed {
        committed: Duration::from_nanos(0),
        longest: Duration::from_nanos(0),
        applied: Duration::from_nanos(0),
    };
    let radios = register.limits().radios.max(1);
    for k in 0..batches {
        let first = k.checked_mul(BATCH)? % radios;
        let one = give(rt, store, register, asked, first)?;
        all = Timed {
            committed: all.committed.checked_add(one.committed)?,
            longest: longer(all.longest, one.longest),
            applied: all.applied.checked_add(one.applied)?,
        };
    }
    Some(all)
}

// Adds the rule and these batches of radios and of items, and then makes a checkpoint. It returns how long the checkpoint takes.
fn prepare<D: Disk>(
    rt: &HostRuntime,
    store: &mut Store<Global, D>,
    register: &mut Register<Global>,
    radios: u32,
    items: u32,
) -> Option<Duration> {
    give(rt, store, register, Asked::Rule, 0)?;
    give_all(rt, store, register, Asked::Attach, radios)?;
    give_all(rt, store, register, Asked::Message, items)?;
    let start = Instant::now(rt).ok()?;
    store.checkpoint().ok()?;
    start.elapsed(rt).ok()
}

// Opens the disk, prepares it, and adds batches of attaches after the checkpoint. It returns the disk, which then forgets its
// calls, the time of the longest commit after the checkpoint, and the time of the checkpoint.
fn prepared(
    rt: &HostRuntime,
    disk: MemoryDisk<Global>,
    register: &mut Register<Global>,
    filling: (u32, u32, u32),
) -> Option<(MemoryDisk<Global>, Duration, Duration)> {
    let (radios, items, records) = filling;
    let Ok(mut store) = Store::open(rt.alloc(), disk) else {
        return None;
    };
    let checkpoint = prepare(rt, &mut store, register, radios, items);
    let all = give_all(rt, &mut store, register, Asked::Attach, records);
    let disk = store.into_disk().crash(&[]);
    Some((disk, all?.longest, checkpoint?))
}

// Fills the half by commits, and then makes a checkpoint.
fn commits<D: Disk>(
    rt: &HostRuntime,
    store: &mut Store<Global, D>,
    register: &mut Register<Global>,
) -> Option<Timed> {
    let all = give_all(rt, store, register, Asked::Attach, SHORT_FULL)?;
    store.checkpoint().ok()?;
    Some(all)
}

// Opens the disk, fills its half once, and prints the nanoseconds of its commits and of the same commands applied.
fn report_commits(
    rt: &HostRuntime,
    disk: MemoryDisk<Global>,
    register: &mut Register<Global>,
) -> Option<MemoryDisk<Global>> {
    let Ok(mut store) = Store::open(rt.alloc(), disk) else {
        return None;
    };
    let all = commits(rt, &mut store, register);
    let disk = store.into_disk().crash(&[]);
    let all = all?;
    let (committed, applied) = (all.committed.as_nanos(), all.applied.as_nanos());
    println!(rt; "commit {SHORT_FULL} {committed} {applied}").ok()?;
    Some(disk)
}

// A disk made ready for an empty register.
fn ready(alloc: Global, limits: Limits, journal: u32, calls: usize) -> Option<MemoryDisk<Global>> {
    let layout = Layout::new(limits, journal)?;
    let mut disk = MemoryDisk::new(alloc, layout.sectors() as usize, calls).ok()?;
    format::<Global, MemoryDisk<Global>>(&mut disk, &layout).ok()?;
    Some(disk)
}

// All rounds of commits.
fn reported_commits(rt: &HostRuntime, register: &mut Register<Global>) -> Option<()> {
    let disk = ready(rt.alloc(), FEW, SHORT, FEW_CALLS)?;
    let (mut disk, _, _) = prepared(rt, disk, register, (1, 0, 0))?;
    for _ in 0..COMMITS {
        disk = report_commits(rt, disk, register)?;
    }
    Some(())
}

// How long opening the disk takes, and the disk, which then forgets its calls. The register is dropped after the time is taken.
fn opened(rt: &HostRuntime, disk: MemoryDisk<Global>) -> Option<(Duration, MemoryDisk<Global>)> {
    let start = Instant::now(rt).ok()?;
    let Ok(store) = Store::open(rt.alloc(), disk) else {
        return None;
    };
    let took = start.elapsed(rt);
    let disk = store.into_disk().crash(&[]);
    Some((took.ok()?, disk))
}

// Reads this many sectors, and returns how many of them begin with a byte that is not 0.
fn read_sectors<D: Disk>(disk: &mut D, first: u64, count: u64) -> Option<u64> {
    let mut bytes = [0; 512];
    let mut seen = 0_u64;
    for k in 0..count {
        disk.read(first.checked_add(k)?, &mut bytes).ok()?;
        seen = seen.checked_add(u64::from(bytes[0] != 0))?;
    }
    Some(seen)
}

// Reads the sectors that opening reads: the three before the slots (the label and both roots), the image of side B, and the half
// of side B. The only checkpoint of this disk went to side B. The image has a row for each rule, radio and item, and two more: the header
// and the row of station 1.
fn read_all<D: Disk>(disk: &mut D, register: &Register<Global>) -> Option<u64> {
    let layout = Layout::new(MANY, LONG)?;
    let registry = register.registry();
    let entries = u64::from(registry.rule_count()).checked_add(u64::from(registry.radio_count()))?;
    let rows = entries
        .checked_add(register.mail().len() as u64)?
        .checked_add(2)?;
    read_sectors(disk, 0, 3)?;
    read_sectors(disk, layout.slot(Side::B), rows)?;
    read_sectors(disk, layout.half(Side::B), u64::from(LONG))
}

// Makes the attaches of the records in the half, by the calls of the tables.
fn attach_all(tables: &mut Tables) -> Option<()> {
    let area = LocationArea::new(7)?;
    for k in 0..LONG_FULL * BATCH {
        if !tables.attach(itsi(k % MANY.radios)?, Station::new(1), area) {
            return None;
        }
    }
    Some(())
}

// How long reading the same sectors and building the same tables takes. The tables are dropped after the time is taken.
fn built<D: Disk>(rt: &HostRuntime, disk: &mut D, register: &Register<Global>) -> Option<Duration> {
    let start = Instant::now(rt).ok()?;
    read_all(disk, register)?;
    let mut tables = Tables::new(rt.alloc(), MANY)?;
    let is_done = tables.fill(rt.alloc(), register) && attach_all(&mut tables).is_some();
    let took = start.elapsed(rt);
    drop(tables);
    if is_done { took.ok() } else { None }
}

// Opens the disk once, and prints the nanoseconds of that and of reading and building by themselves.
fn report_opening(
    rt: &HostRuntime,
    disk: MemoryDisk<Global>,
    register: &Register<Global>,
) -> Option<MemoryDisk<Global>> {
    let (opened, disk) = opened(rt, disk)?;
    let mut disk = disk;
    let built = built(rt, &mut disk, register)?;
    let (opened, built) = (opened.as_nanos(), built.as_nanos());
    println!(rt; "open 1 {opened} {built}").ok()?;
    Some(disk.crash(&[]))
}

// All openings.
fn reported_openings(rt: &HostRuntime, register: &mut Register<Global>) -> Option<()> {
    let disk = ready(rt.alloc(), MANY, LONG, MANY_CALLS)?;
    let filling = (FILLING, FILLING, LONG_FULL);
    let (mut disk, longest, checkpoint) = prepared(rt, disk, register, filling)?;
    let (longest, checkpoint) = (longest.as_nanos(), checkpoint.as_nanos());
    println!(rt; "longest 1 {longest} {checkpoint}").ok()?;
    for _ in 0..OPENINGS {
        disk = report_opening(rt, disk, register)?;
    }
    Some(())
}

// The exit status: 0, or 5 if something failed.
pub(crate) fn report(rt: &HostRuntime) -> u8 {
    let (Ok(mut few), Ok(mut many)) = (
        Register::new(rt.alloc(), FEW),
        Register::new(rt.alloc(), MANY),
    ) else {
        return 5;
    };
    let is_done = reported_commits(rt, &mut few).is_some()
        && reported_openings(rt, &mut many).is_some();
    if is_done { 0 } else { 5 }
}
