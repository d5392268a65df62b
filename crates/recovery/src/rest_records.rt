//! The records of a side that can still be read, applied in order up to the first that is damaged.
ghost use Rattle.std.specs.Prelude.{◌≡◌, ◌<◌, IfErr, IfOk, IfSome, None, true};
ghost use Rattle.gated_journal.specs.Half.{stated_size};
ghost use Rattle.gated_journal.specs.Settled.{HasNumbersLeft};
ghost use Rattle.recovery.specs.declared.fault.StoreFault.TheVariants.{NoMemory};
ghost use Rattle.recovery.specs.Damage.{IsOfDamage};
ghost use Rattle.recovery.specs.Rests.{run_while};
ghost use Rattle.recovery.specs.Inside.Played.{IsReadable, MovesWithin};
ghost use Rattle.recovery.specs.Inside.Reads.{ReadsOrFails};
ghost use Rattle.recovery.specs.Inside.Rests.{CanReadAfter, EndsAt, GoesOnOrEnds, LeadsFrom, LeadsOn, ReadsOn, gate_from, gate_if};

use crate::StoreFault;
use byteorder::{BigEndian, ByteOrder};
use centre_core::{Command, Register};
use gated_journal::{Form, Journal, JournalError};
use sector_disk::Disk;
use std::alloc::Allocator;

// Applies commands up to the first that is not accepted. Returns whether all are.
fn apply_while<A: Allocator + Copy>(
    alloc: A,
    register: &mut Register<A>,
    commands: &[Command<A>],
) -> Result<bool, StoreFault>
    ensures exact { IfOk result (λ all. (register.new, all) ≡ run_while register.old commands.now) }
    ensures kinds { IfErr result (λ e. e ≡ NoMemory) }
{
    for command in commands {
        let reply = register.apply(alloc, command)?;
        if !reply.is_acceptance() {
            return Ok(false);
        }
    }
    Ok(true)
}

// Reads the record at the next gate, and applies its commands. Returns whether all are accepted; if the record is at fault,
// `stop` has its sector.
#[tactic(auto, using(crate::proofs::Remains::ends_closed, crate::proofs::Remains::ends_bad, crate::proofs::Remains::ends_refused, crate::proofs::Remains::goes_on, crate::proofs::Later::later_bad))]
fn play_or_stop<A: Allocator + Copy, D: Disk>(
    alloc: A,
    disk: &mut D,
    journal: &mut Journal<A>,
    register: &mut Register<A>,
    stop: &mut Option<u64>,
) -> Result<bool, StoreFault>
    requires readable { IsReadable journal.old (D.view disk.old) }
    requires none { stop.old ≡ None }
    ensures exact { IfOk result (λ more. (D.view disk.old).honest → LeadsOn A more journal.old journal.new (D.view disk.old) register.old register.new stop.new) }
    ensures after { IfOk result (λ more. (D.view disk.old).honest → GoesOnOrEnds A more journal.old journal.new (D.view disk.old) stop.new) }
    ensures none { IfOk result (λ more. more ≡ true → stop.new ≡ None) }
    ensures on { IfOk result (λ more. more ≡ true → journal.old.next < journal.new.next) }
    ensures bad { IfSome stop.new (λ at. at < journal.old.end) }
    ensures moves { MovesWithin journal.old journal.new }
    ensures reads { ReadsOrFails IsOfDamage (D.view disk.old) (D.view disk.new) result }
{
    match journal.read_next(alloc, disk) {
        Ok(None) => Ok(false),
        Ok(Some((at, commands))) => {
            if apply_while(alloc, register, &commands)? {
                return Ok(true);
            }
            *stop = Some(at);
            Ok(false)
        }
        Err(JournalError::Damaged(at)) => {
            *stop = Some(at);
            Ok(false)
        }
        Err(error) => Err(StoreFault::from(error)),
    }
}

// Reads the records from the next gate on and applies their commands, up to the first record that can't be read or the first
// command that is not accepted. Returns the sector of that record.
pub(crate) fn play_rest<A: Allocator + Copy, D: Disk>(
    alloc: A,
    disk: &mut D,
    journal: &mut Journal<A>,
    register: &mut Register<A>,
) -> Result<Option<u64>, StoreFault>
    requires readable { IsReadable journal.old (D.view disk.old) }
    ensures exact { IfOk result (λ bad. (D.view disk.old).honest → LeadsFrom A journal.old (D.view disk.old) register.old register.new bad) }
    ensures after { IfOk result (λ bad. (D.view disk.old).honest → EndsAt A journal.old journal.new (D.view disk.old) bad) }
    ensures bad { IfOk result (λ bad. IfSome bad (λ at. at < journal.old.end)) }
    ensures moves { MovesWithin journal.old journal.new }
    ensures reads { ReadsOrFails IsOfDamage (D.view disk.old) (D.view disk.new) result }
{
    let mut stop = None;
    while play_or_stop(alloc, disk, journal, register, &mut stop)? {}
    Ok(stop)
}

// How many data sectors a record has, as the first of them states.
fn stated_size(form: Form, bytes: &[u8; 512]) -> u64
    ensures { result ≡ stated_size form bytes.now }
{
    match form {
        Form::Plain => (u64::from(BigEndian::read_u32(&bytes[2..6])) + 517) / 512,
        Form::Numbered => (u64::from(BigEndian::read_u32(&bytes[10..14])) + 525) / 512,
    }
}

// Moves on to the gate after the record in this sector, by what the sector states. Returns whether there can be one.
#[tactic(auto, using(sector_disk::proofs::Reading::one_read, crate::proofs::Later::passed, crate::proofs::Later::at_gate))]
fn pass_over<A: Allocator, D: Disk>(
    disk: &mut D,
    journal: &mut Journal<A>,
    at: u64,
) -> Result<bool, StoreFault>
    requires readable { IsReadable journal.old (D.view disk.old) }
    requires at { at < journal.old.end }
    ensures exact { IfOk result (λ passed. (D.view disk.old).honest → gate_if passed journal.new ≡ gate_from journal.old (D.view disk.old) at) }
    ensures form { journal.new.form ≡ journal.old.form }
    ensures end { journal.new.end ≡ journal.old.end }
    ensures next { journal.new.next < journal.old.end }
    ensures room { HasNumbersLeft journal.new }
    ensures reads { ReadsOrFails IsOfDamage (D.view disk.old) (D.view disk.new) result }
{
    let place = journal.place();
    if at < place.next {
        return Ok(true);
    }
    if at == place.next {
        return Ok(false);
    }
    let mut bytes = [0; 512];
    disk.read(at, &mut bytes)?;
    let commands = u64::from(BigEndian::read_u16(&bytes));
    let size = stated_size(place.form, &bytes);
    if commands > 64 || size >= place.end - at {
        return Ok(false);
    }
    let gate = at + size;
    journal.restart(gate, place.end - gate, place.form, place.count + commands);
    Ok(true)
}

// Passes over the record at the next gate, if there is one that can be read. Returns whether there is.
#[tactic(auto, using(crate::proofs::Later::none_closed, crate::proofs::Later::none_bad))]
fn has_next<A: Allocator + Copy, D: Disk>(
    alloc: A,
    disk: &mut D,
    journal: &mut Journal<A>,
) -> Result<bool, StoreFault>
    requires readable { IsReadable journal.old (D.view disk.old) }
    ensures exact { IfOk result (λ more. (D.view disk.old).honest → ReadsOn A more journal.old journal.new (D.view disk.old)) }
    ensures on { IfOk result (λ more. more ≡ true → journal.old.next < journal.new.next) }
    ensures moves { MovesWithin journal.old journal.new }
    ensures reads { ReadsOrFails IsOfDamage (D.view disk.old) (D.view disk.new) result }
{
    match journal.read_next(alloc, disk) {
        Ok(None) | Err(JournalError::Damaged(_)) => Ok(false),
        Ok(Some(_)) => Ok(true),
        Err(error) => Err(StoreFault::from(error)),
    }
}

// How many records after the one in this sector can be read, one after another.
pub(crate) fn count_later<A: Allocator + Copy, D: Disk>(
    alloc: A,
    disk: &mut D,
    journal: &mut Journal<A>,
    at: u64,
) -> Result<u64, StoreFault>
    requires readable { IsReadable journal.old (D.view disk.old) }
    requires at { at < journal.old.end }
    ensures exact { IfOk result (λ later. (D.view disk.old).honest → CanReadAfter A journal.old (D.view disk.old) at later) }
    ensures reads { ReadsOrFails IsOfDamage (D.view disk.old) (D.view disk.new) result }
{
    if !pass_over(disk, journal, at)? {
        return Ok(0);
    }
    let mut later = 0;
    while has_next(alloc, disk, journal)? {
        later += 1;
    }
    Ok(later)
}
