// The image in a side's slot, and the commands in its half.
ghost use Rattle.std.specs.Prelude.{◌≡◌, ◌⊎◌, ◌<◌, ◌≤◌, ◌+◌, ◌-◌, IfErr, IfOk, IsErrOf, OnOk, length, true};
ghost use Rattle.sector_disk.specs.Disk.{HasFailed};
ghost use Rattle.sector_disk.specs.Run.{HasCalled};
ghost use Rattle.gated_journal.specs.Reading.{HasCalledTimes, HasRecordsIn, IsReadOnce};
ghost use Rattle.checkpoint.specs.Layout.{disk_size, slot_at};
ghost use Rattle.checkpoint.specs.Reading.{IsGoodSoFar, image_reads};
ghost use Rattle.sector_disk.specs.Effects.{OnlyReads};
ghost use Rattle.recovery.specs.declared.fault.StoreFault.TheVariants.{DiskFault, NoMemory};
ghost use Rattle.recovery.specs.Opens.{base_in, run, taken};
ghost use Rattle.recovery.specs.Opening.{IsValueIn, HasReadAgain, NeedsMemory, PlaysTo};
ghost use Rattle.recovery.specs.Inside.Played.{HasMovedOn, HasRunShort, IsReadable, PlaysAll, PlaysHalf, PlaysOne, PlaysWithin, ReportsFirst};
ghost use Rattle.recovery.specs.Inside.Reads.{IsOfRowsOrRecords, IsOfRecord, IsOfSector, ReadsOrFails};

use crate::StoreFault;
use centre_core::{Command, Register};
use checkpoint::{Layout, ReadFault, Side, read_image};
use gated_journal::Journal;
use sector_disk::Disk;
use std::alloc::Allocator;

// The epoch and the register of a side's slot.
#[tactic(auto, unfolding(crate::specs::Opens::base_in))]
pub(crate) fn read_base<A: Allocator + Copy, D: Disk>(
    alloc: A,
    disk: &mut D,
    layout: &Layout,
    side: Side,
) -> Result<(u64, Register<A>), StoreFault>
    requires room { disk_size layout.now ≤ (D.view disk.old).sectors }
    ensures exact { (D.view disk.old).honest → IsValueIn (λ base. base) result (base_in layout.now side (D.view disk.old).reads) }
    ensures limits { IfOk result (λ base. base.1.registered.limits ≡ layout.now.limits) }
    ensures memory { IsErrOf result NoMemory → (D.view disk.old).honest → IsGoodSoFar layout.now side (D.view disk.old) (D.view disk.new) }
    ensures calls { IfOk result (λ base. (D.view disk.old).honest
        → HasCalled (D.view disk.old) (D.view disk.new) (image_reads (slot_at layout.now side) base)) }
    ensures reads { ReadsOrFails (IsOfRowsOrRecords (D.view disk.old).sectors) (D.view disk.old) (D.view disk.new) result }
{
    match read_image(disk, layout, side, alloc) {
        Ok(image) => Ok(image),
        Err(ReadFault::Damaged(at)) => Err(StoreFault::Damaged(at)),
        Err(ReadFault::DiskFault) => Err(StoreFault::DiskFault),
        Err(ReadFault::NoMemory) => Err(StoreFault::NoMemory),
    }
}

// Applies the commands of a record. Each of them must be accepted.
fn play_record<A: Allocator + Copy>(
    alloc: A,
    register: &mut Register<A>,
    at: u64,
    commands: &[Command<A>],
) -> Result<(), StoreFault>
    ensures exact { PlaysTo result register.new (taken at (run register.old commands.now)) }
    ensures limits { register.new.registered.limits ≡ register.old.registered.limits }
    ensures count { OnOk result (register.new.count ≡ register.old.count + length commands.now) }
    ensures memory { IsErrOf result NoMemory → NeedsMemory register.old commands.now register.new }
    ensures kinds { IfErr result (IsOfRecord at) }
{
    for command in commands {
        let reply = register.apply(alloc, command)?;
        if !reply.is_acceptance() {
            return Err(StoreFault::Damaged(at));
        }
    }
    Ok(())
}

// Reads the record at the next gate and applies its commands to the register. Returns whether a record was there.
fn play_next<A: Allocator + Copy, D: Disk>(
    alloc: A,
    disk: &mut D,
    journal: &mut Journal<A>,
    register: &mut Register<A>,
) -> Result<bool, StoreFault>
    requires readable { IsReadable journal.old (D.view disk.old) }
    ensures exact { (D.view disk.old).honest → PlaysOne A journal.old journal.new register.old register.new (D.view disk.old) result }
    ensures moved { (D.view disk.old).honest → OnOk result (HasMovedOn A journal.old journal.new register.old register.new (D.view disk.old)) }
    ensures memory { IsErrOf result NoMemory → (D.view disk.old).honest
        → HasRunShort A journal.old journal.new register.old register.new (D.view disk.old)
        (HasReadAgain (D.view disk.old).calls (D.view disk.new).calls journal.old.next journal.new.next) }
    ensures moves { PlaysWithin journal.old journal.new register.old register.new }
    ensures counts { OnOk result (journal.old.count ≡ register.old.count → journal.new.count ≡ register.new.count) }
    ensures on { IfOk result (λ more. more ≡ true → journal.old.next < journal.new.next) }
    ensures calls { IfOk result (λ more. more ≡ true → HasCalledTimes (D.view disk.old) (D.view disk.new) (journal.new.next - journal.old.next)) }
    ensures reads { ReadsOrFails (IsOfRowsOrRecords journal.old.end) (D.view disk.old) (D.view disk.new) result }
{
    let Some((at, commands)) = journal.read_next(alloc, disk)? else {
        return Ok(false);
    };
    play_record(alloc, register, at, &commands)?;
    Ok(true)
}

// Reads the records from the next gate on, up to a fault, and applies the commands of each as it is read.
fn play_on<A: Allocator + Copy, D: Disk>(
    alloc: A,
    disk: &mut D,
    journal: &mut Journal<A>,
    register: &mut Register<A>,
) -> Result<(), StoreFault>
    requires readable { IsReadable journal.old (D.view disk.old) }
    ensures exact { (D.view disk.old).honest → PlaysAll A journal.old journal.new register.old register.new (D.view disk.old) result }
    ensures memory { IsErrOf result NoMemory → (D.view disk.old).honest
        → HasRunShort A journal.old journal.new register.old register.new (D.view disk.old)
        (HasReadAgain (D.view disk.old).calls (D.view disk.new).calls journal.old.next journal.new.next) }
    ensures moves { PlaysWithin journal.old journal.new register.old register.new }
    ensures counts { OnOk result (journal.old.count ≡ register.old.count → journal.new.count ≡ register.new.count) }
    ensures reads { ReadsOrFails (IsOfRowsOrRecords journal.old.end) (D.view disk.old) (D.view disk.new) result }
{
    while play_next(alloc, disk, journal, register)? {}
    Ok(())
}

// The first fault in the records from the next gate on, or else this one.
fn first_fault<A: Allocator, D: Disk>(
    disk: &mut D,
    journal: &mut Journal<A>,
    fault: StoreFault,
) -> StoreFault
    requires readable { IsReadable journal.old (D.view disk.old) }
    ensures exact { (D.view disk.old).honest → ReportsFirst A journal.old (D.view disk.old) fault result }
    ensures memory { result ≡ NoMemory → (D.view disk.old).honest → (fault ≡ NoMemory) × HasRecordsIn A journal.old (D.view disk.old) }
    ensures calls { result ≡ NoMemory → (D.view disk.old).honest → IsReadOnce A journal.old (D.view disk.old) (D.view disk.new) }
    ensures same { journal.new ≡ journal.old }
    ensures kinds { (result ≡ fault) ⊎ IsOfSector journal.old.end result }
    ensures reads { OnlyReads (D.view disk.old) (D.view disk.new) ⊥ }
    ensures device { result ≡ DiskFault → (fault ≡ DiskFault) ⊎ HasFailed (D.view disk.old) (D.view disk.new) }
{
    match fault {
        StoreFault::DiskFault => StoreFault::DiskFault,
        _ => match journal.judge_rest(disk) {
            Ok(()) => fault,
            Err(error) => StoreFault::from(error),
        },
    }
}

// Reads the records from the next gate on, and applies the commands of each to the register. If one is not accepted, or
// memory runs out, the records after it are judged before that is reported.
pub(crate) fn play<A: Allocator + Copy, D: Disk>(
    alloc: A,
    disk: &mut D,
    journal: &mut Journal<A>,
    register: &mut Register<A>,
) -> Result<(), StoreFault>
    requires readable { IsReadable journal.old (D.view disk.old) }
    ensures exact { (D.view disk.old).honest → PlaysHalf A journal.old journal.new register.old register.new (D.view disk.old) result }
    ensures memory { IsErrOf result NoMemory → (D.view disk.old).honest
        → (records : HasRecordsIn A journal.old (D.view disk.old)) × HasRunShort A journal.old journal.new register.old register.new (D.view disk.old)
        (HasReadAgain (D.view disk.old).calls (D.view disk.new).calls journal.old.next (records.0.1 + 1)) }
    ensures moves { PlaysWithin journal.old journal.new register.old register.new }
    ensures counts { OnOk result (journal.old.count ≡ register.old.count → journal.new.count ≡ register.new.count) }
    ensures reads { ReadsOrFails (IsOfRowsOrRecords journal.old.end) (D.view disk.old) (D.view disk.new) result }
{
    match play_on(alloc, disk, journal, register) {
        Ok(()) => Ok(()),
        Err(fault) => Err(first_fault(disk, journal, fault)),
    }
}
