// Reading a disk from its label to its last record.
ghost use Rattle.std.specs.Prelude.{◌≡◌, ◌<◌, ◌≤◌, ℕ, IfErr, IfOk, IsErrOf};
ghost use Rattle.sector_disk.specs.Effects.{OnlyReads};
ghost use Rattle.checkpoint.specs.Layout.{disk_size, half_at, half_end};
ghost use Rattle.checkpoint.specs.OnSide.{ReadsForm};
ghost use Rattle.recovery.specs.declared.fault.StoreFault.TheVariants.{Damaged, DiskFault, NoMemory};
ghost use Rattle.recovery.specs.Opens.{opens, opens_by};
ghost use Rattle.recovery.specs.Opening.{EndsAt, IsValueIn, HasNoFaultYet, IsOfOpening};
ghost use Rattle.recovery.specs.Inside.Current.{InForm, IsGoodSide, IsUnreadOrGood, half_played};
ghost use Rattle.recovery.specs.Inside.Opened.{IsWhole, opened_view};
ghost use Rattle.recovery.specs.Inside.Reads.{IsOfRowsOrRecords, ReadsOrFails};

use crate::StoreFault;
use crate::label::read_layout;
use crate::records::{play, read_base};
use crate::sides::{Current, read_side};
use centre_core::Register;
use centre_core::laws::registers;
use checkpoint::{Layout, Side};
use gated_journal::Journal;
use sector_disk::Disk;
use std::alloc::Allocator;

/// What a disk opens to.
#[derive(Drop)]
pub(crate) struct Opened<A: Allocator> {
    pub(crate) layout: Layout,
    pub(crate) side: Side,
    pub(crate) epoch: u64,
    pub(crate) journal: Journal<A>,
    pub(crate) register: Register<A>,
}

// Reads the records of a side's half, in their form, and applies their commands to the register. They are numbered from
// the register's count on.
#[tactic(auto, unfolding(crate::specs::Opens::played_by))]
fn read_half<A: Allocator + Copy, D: Disk>(
    alloc: A,
    disk: &mut D,
    layout: &Layout,
    current: Current,
    register: &mut Register<A>,
) -> Result<Journal<A>, StoreFault>
    requires room { disk_size layout.now ≤ (D.view disk.old).sectors }
    ensures exact { (D.view disk.old).honest → InForm layout.now current (D.view disk.old)
        (EndsAt (λ journal. journal.next) result register.new (half_played A layout.now current register.old (D.view disk.old))) }
    ensures memory { IsErrOf result NoMemory → (D.view disk.old).honest
        → IsUnreadOrGood A layout.now current register.old (D.view disk.old) (D.view disk.new) }
    ensures limits { register.new.registered.limits ≡ register.old.registered.limits }
    ensures first { IfOk result (λ journal. journal.first ≡ half_at layout.now current.side) }
    ensures end { IfOk result (λ journal. journal.end ≡ half_end layout.now current.side) }
    ensures next { IfOk result (λ journal. journal.next < half_end layout.now current.side) }
    ensures form { IfOk result (λ journal. journal.form ≡ current.form) }
    ensures counts { IfOk result (λ journal. journal.count ≡ register.new.count) }
    ensures reads { ReadsOrFails (IsOfRowsOrRecords (D.view disk.old).sectors) (D.view disk.old) (D.view disk.new) result }
{
    registers(register);
    let mut journal = Journal::start(
        alloc,
        layout.half(current.side),
        u64::from(layout.journal()),
        current.form,
        register.count(),
    )?;
    play(alloc, disk, &mut journal, register)?;
    Ok(journal)
}

// What the disk opens to, read from this side.
#[tactic(auto, unfolding(crate::specs::Opens::opens_by))]
pub(crate) fn read_current<A: Allocator + Copy, D: Disk>(
    alloc: A,
    disk: &mut D,
    layout: Layout,
    current: Current,
) -> Result<Opened<A>, StoreFault>
    requires room { disk_size layout ≤ (D.view disk.old).sectors }
    ensures exact { (D.view disk.old).honest → InForm layout current (D.view disk.old)
        (IsValueIn opened_view result (opens_by A layout current.side (D.view disk.old).reads)) }
    ensures memory { IsErrOf result NoMemory → (D.view disk.old).honest → InForm layout current (D.view disk.old)
        (IsGoodSide A layout current (D.view disk.old) (D.view disk.new)) }
    ensures whole { IfOk result IsWhole }
    ensures layout { IfOk result (λ opened. opened.layout ≡ layout) }
    ensures side { IfOk result (λ opened. opened.side ≡ current.side) }
    ensures form { IfOk result (λ opened. opened.journal.form ≡ current.form) }
    ensures reads { ReadsOrFails (IsOfRowsOrRecords (D.view disk.old).sectors) (D.view disk.old) (D.view disk.new) result }
{
    let (epoch, mut register) = read_base(alloc, disk, &layout, current.side)?;
    match read_half(alloc, disk, &layout, current, &mut register) {
        Ok(journal) => Ok(Opened {
            layout,
            side: current.side,
            epoch,
            journal,
            register,
        }),
        Err(fault) => {
            drop(register);
            Err(fault)
        }
    }
}

// What the disk opens to.
#[tactic(auto, unfolding(crate::specs::Opens::opens))]
pub(crate) fn read_all<A: Allocator + Copy, D: Disk>(
    alloc: A,
    disk: &mut D,
) -> Result<Opened<A>, StoreFault>
    ensures exact { (D.view disk.old).honest → IsValueIn opened_view result (opens A (D.view disk.old).reads) }
    ensures memory { IsErrOf result NoMemory → (D.view disk.old).honest
        → HasNoFaultYet A (D.view disk.old).reads (D.view disk.old).calls (D.view disk.new).calls }
    ensures whole { IfOk result IsWhole }
    ensures form { IfOk result (λ opened. (D.view disk.old).honest → ReadsForm opened.layout opened.side opened.journal.form (D.view disk.old)) }
    ensures room { IfOk result (λ opened. disk_size opened.layout ≤ (D.view disk.old).sectors) }
    ensures kinds { IfErr result IsOfOpening }
    ensures on_disk { (at : ℕ) → IsErrOf result (Damaged at) → at < (D.view disk.old).sectors }
    ensures reads { OnlyReads (D.view disk.old) (D.view disk.new) (IsErrOf result DiskFault) }
{
    let layout = read_layout(disk)?;
    let current = read_side(disk, &layout)?;
    read_current(alloc, disk, layout, current)
}
