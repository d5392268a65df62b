//! A check of a disk: what is damaged on each side, and what opening makes of it.
ghost use Rattle.std.specs.Prelude.{◌≡◌, ◌⊎◌, ◌≤◌, ◌<◌, ◌||◌, ◌++◌, ◌∷◌, ℕ, [], IfErr, IfOk, IsErrOf, Ok};
ghost use Rattle.sector_disk.specs.Disk.{IsImageOf};
ghost use Rattle.sector_disk.specs.Effects.{KeepsDisk};
ghost use Rattle.sector_disk.specs.Run.{LeavesOnly};
ghost use Rattle.sector_disk.specs.declared.record.Call.TheVariants.{Sync};
ghost use Rattle.checkpoint.specs.Layout.{disk_size};
ghost use Rattle.recovery.specs.declared.fault.StoreFault.TheVariants.{Damaged, DiskFault, NoMemory};
ghost use Rattle.recovery.specs.Checking.{HasNoDamageYet, HasSynced, HasSyncedUnless, IsCheckOf, IsDamagedAt, IsGoodAtB, IsGoodSideSoFar, IsNoDamage};
ghost use Rattle.recovery.specs.Checking.{damaged_sector, epoch_of, first_damaged, is_damaged, opened_by, state_after, state_in, taken_from};
ghost use Rattle.recovery.specs.Lives.{Answered, Closed, IsCall};
ghost use Rattle.recovery.specs.Opening.{IsValueIn, IsOfOpening};
ghost use Rattle.recovery.specs.Inside.Current.{InForm, IsGoodSide, state_from};
ghost use Rattle.recovery.specs.Inside.Reads.{ReadsOrFails};

use crate::figures::figures_by;
use crate::label::read_layout;
use crate::opening::read_current;
use crate::sides::{Current, by, greater, read_head};
use crate::{Figures, StoreFault};
use checkpoint::{Layout, Side};
use sector_disk::Disk;
use std::alloc::Allocator;

/// The state of one side of a disk.
#[derive(Clone, Copy, Debug, PartialEq, Eq, Drop)]
pub enum SideState {
    /// Its root is closed.
    Unused,
    /// Its root is open, and its image and all its records are good.
    Whole(Figures),
    /// Its root is open. `sector` is its first damaged sector; `epoch` is that of its header, if this could be read.
    Damaged { epoch: Option<u64>, sector: u64 },
}

impl SideState {
    /// Whether the side has a damaged sector.
    pub fn is_damaged(&self) -> bool
        ensures { result ≡ is_damaged self.now }
    {
        matches!(self, SideState::Damaged { .. })
    }

    /// The first damaged sector of the side, if it has one.
    pub fn damaged_sector(&self) -> Option<u64>
        ensures { result ≡ damaged_sector self.now }
    {
        match self {
            SideState::Damaged { sector, .. } => Some(*sector),
            SideState::Unused | SideState::Whole(_) => None,
        }
    }

    // The epoch of the side, if its root is open; or the sector of its header, which could not be read.
    fn epoch(&self) -> Result<Option<u64>, u64>
        ensures { result ≡ epoch_of self.now }
    {
        match self {
            SideState::Unused => Ok(None),
            SideState::Whole(figures) => Ok(Some(figures.epoch)),
            SideState::Damaged {
                epoch: None,
                sector,
            } => Err(*sector),
            SideState::Damaged { epoch, .. } => Ok(*epoch),
        }
    }

    // What opening makes of this side, whose root is in the sector `root`: its figures, or the sector at fault.
    fn figures_or_fault(&self, root: u64) -> Result<Figures, u64>
        ensures { result ≡ taken_from root self.now }
    {
        match self {
            SideState::Unused => Err(root),
            SideState::Whole(figures) => Ok(*figures),
            SideState::Damaged { sector, .. } => Err(*sector),
        }
    }
}

/// What a check found on a disk.
#[derive(Clone, Copy, Debug, PartialEq, Eq, Drop)]
pub struct Checked {
    /// The layout that its label states.
    pub layout: Layout,
    /// The state of side A.
    pub a: SideState,
    /// The state of side B.
    pub b: SideState,
}

impl Checked {
    /// The figures of the side that opening takes, or the damaged sector at which opening stops.
    pub fn opened(&self) -> Result<Figures, u64>
        ensures { result ≡ opened_by self.now.a self.now.b }
    {
        let root_a = self.layout.root(Side::A);
        let root_b = self.layout.root(Side::B);
        match (self.a.epoch()?, self.b.epoch()?) {
            (None, None) => Err(root_a),
            (Some(_), None) => self.a.figures_or_fault(root_a),
            (None, Some(_)) => self.b.figures_or_fault(root_b),
            (Some(first), Some(second)) => match greater(first, second) {
                None => Err(root_b),
                Some(Side::A) => self.a.figures_or_fault(root_a),
                Some(Side::B) => self.b.figures_or_fault(root_b),
            },
        }
    }

    /// Whether a side has a damaged sector.
    pub fn is_damaged(&self) -> bool
        ensures { result ≡ (is_damaged self.now.a || is_damaged self.now.b) }
    {
        self.a.is_damaged() || self.b.is_damaged()
    }

    /// The first damaged sector of side A, or else of side B.
    pub fn first_damaged(&self) -> Option<u64>
        ensures { result ≡ first_damaged self.now.a self.now.b }
    {
        self.a.damaged_sector().or(self.b.damaged_sector())
    }
}

// A fault of reading a side: damage is the state of the side, another fault stays one.
fn state_after(epoch: Option<u64>, fault: StoreFault) -> Result<SideState, StoreFault>
    ensures value { result ≡ state_after epoch fault }
    ensures kinds { IsOfOpening fault → IfErr result IsNoDamage }
    ensures same { IfErr result (λ e. e ≡ fault) }
    ensures damaged { (at : ℕ) → IfOk result (λ state. IsDamagedAt at state → fault ≡ Damaged at) }
{
    match fault {
        StoreFault::Damaged(sector) => Ok(SideState::Damaged { epoch, sector }),
        other => Err(other),
    }
}

// The state of a side with this epoch in its header. Its register is dropped.
fn check_contents<A: Allocator + Copy, D: Disk>(
    alloc: A,
    disk: &mut D,
    layout: &Layout,
    current: Current,
    epoch: u64,
) -> Result<SideState, StoreFault>
    requires room { disk_size layout.now ≤ (D.view disk.old).sectors }
    ensures exact { (D.view disk.old).honest → InForm layout.now current (D.view disk.old)
        (IsValueIn (λ state. state) result (Ok (state_from A layout.now current epoch (D.view disk.old)))) }
    ensures memory { IsErrOf result NoMemory → (D.view disk.old).honest → InForm layout.now current (D.view disk.old)
        (IsGoodSide A layout.now current (D.view disk.old) (D.view disk.new)) }
    ensures on_disk { (at : ℕ) → IfOk result (λ state. IsDamagedAt at state → at < (D.view disk.old).sectors) }
    ensures reads { ReadsOrFails IsNoDamage (D.view disk.old) (D.view disk.new) result }
{
    match read_current(alloc, disk, *layout, current) {
        Ok(opened) => {
            let place = opened.journal.place();
            let figures = figures_by(current.side, opened.epoch, place, opened.register.count());
            drop(opened);
            Ok(SideState::Whole(figures))
        }
        Err(fault) => state_after(Some(epoch), fault),
    }
}

// The state of a side.
#[tactic(auto, unfolding(crate::specs::Checking::state_in))]
fn check_side<A: Allocator + Copy, D: Disk>(
    alloc: A,
    disk: &mut D,
    layout: &Layout,
    side: Side,
) -> Result<SideState, StoreFault>
    requires room { disk_size layout.now ≤ (D.view disk.old).sectors }
    ensures exact { (D.view disk.old).honest → IsValueIn (λ state. state) result (Ok (state_in A layout.now side (D.view disk.old).reads)) }
    ensures memory { IsErrOf result NoMemory → (D.view disk.old).honest
        → IsGoodSideSoFar A layout.now side (D.view disk.old).reads (D.view disk.old).calls (D.view disk.new).calls }
    ensures on_disk { (at : ℕ) → IfOk result (λ state. IsDamagedAt at state → at < (D.view disk.old).sectors) }
    ensures reads { ReadsOrFails IsNoDamage (D.view disk.old) (D.view disk.new) result }
{
    match read_head(disk, layout, side) {
        Ok(None) => Ok(SideState::Unused),
        Ok(Some(head)) => check_contents(alloc, disk, layout, by(side, head), head.epoch),
        Err(fault) => state_after(None, fault),
    }
}

// The layout of the disk and the states of its sides, one after the other.
fn check_sides<A: Allocator + Copy, D: Disk>(alloc: A, disk: &mut D) -> Result<Checked, StoreFault>
    ensures exact { (D.view disk.old).honest → IsCheckOf A (D.view disk.old).reads result }
    ensures memory { IsErrOf result NoMemory → (D.view disk.old).honest
        → HasNoDamageYet A (D.view disk.old).reads (D.view disk.old).calls (D.view disk.new).calls }
    ensures gave_up { (at : ℕ) → IsErrOf result (Damaged at) → (D.view disk.old).honest → IsGoodAtB A (D.view disk.old).reads (D.view disk.new).calls }
    ensures room { IfOk result (λ checked. disk_size checked.layout ≤ (D.view disk.old).sectors) }
    ensures on_disk { (at : ℕ) → IfOk result (λ checked. IsDamagedAt at checked.a ⊎ IsDamagedAt at checked.b → at < (D.view disk.old).sectors) }
    ensures reported_on_disk { (at : ℕ) → IsErrOf result (Damaged at) → at < (D.view disk.old).sectors }
    ensures reads { ReadsOrFails IsOfOpening (D.view disk.old) (D.view disk.new) result }
{
    let layout = read_layout(disk)?;
    let a = check_side(alloc, disk, &layout, Side::A)?;
    match check_side(alloc, disk, &layout, Side::B) {
        Ok(b) => Ok(Checked { layout, a, b }),
        Err(fault) => Err(fault.unless_damaged(a.damaged_sector())),
    }
}

/// Reads both sides of a disk, as opening reads one, and returns what is on each or its first damaged sector. `damage_of` finds
/// those after it. The disk is synced first, and then only read. At most one register is in memory, under `alloc`.
///
/// `Unformatted` and `BadGeometry` report a disk without a layout. `Damaged` is the first damaged sector of side A, where memory ran out
/// at side B, which was good so far. Other damage is in the states.
pub fn check<A: Allocator + Copy, D: Disk>(alloc: A, disk: &mut D) -> Result<Checked, StoreFault>
    // The states are those of the disk as it reads, and so is damage that is reported as a fault.
    ensures exact { (D.view disk.old).honest → IsCheckOf A (D.view disk.old).reads result }

    // It calls one sync and then only reads. With a `DiskFault` there may be no call.
    ensures calls { IfOk result (λ checked. HasSynced (D.view disk.old) (D.view disk.new)) }
    ensures some_calls { IfErr result (HasSyncedUnless (D.view disk.old) (D.view disk.new)) }
    ensures left { (D.view disk.old).honest → LeavesOnly (D.view disk.old) (D.view disk.new) (IsImageOf (D.view disk.old)) }
    ensures reads { (D.view disk.old).honest → (D.view disk.new).reads ≡ (D.view disk.old).reads }

    // The disk has a sector for each of the layout, and a damaged sector is one of them, even if the disk is not honest.
    ensures room { IfOk result (λ checked. disk_size checked.layout ≤ (D.view disk.old).sectors) }
    ensures on_disk { (at : ℕ) → IfOk result (λ checked. IsDamagedAt at checked.a ⊎ IsDamagedAt at checked.b → at < (D.view disk.old).sectors) }
    ensures reported_on_disk { (at : ℕ) → IsErrOf result (Damaged at) → at < (D.view disk.old).sectors }

    // Out of memory masks no bad row or record that was read, and no refused command before the one that memory ran out for. After
    // the sync the label was read, the header of side A, and then only good rows of side A; or all its rows and records are good.
    // Or side A is not damaged, and side B was read last: its header, and then only good rows of it; or all its rows and records
    // are good.
    ensures memory { IsErrOf result NoMemory → (D.view disk.old).honest
        → HasNoDamageYet A (D.view disk.old).reads ((D.view disk.old).calls ++ Sync ∷ []) (D.view disk.new).calls }

    // A damaged side A is reported as a fault only where memory ran out at side B, which was good so far.
    ensures gave_up { (at : ℕ) → IsErrOf result (Damaged at) → (D.view disk.old).honest → IsGoodAtB A (D.view disk.old).reads (D.view disk.new).calls }

    // It fails only for these reasons.
    ensures kinds { IfErr result IsOfOpening }
    ensures keeps { KeepsDisk (D.view disk.old) (D.view disk.new) (IsErrOf result DiskFault) }

    // In the life of the disk this is a call that accepts nothing.
    ensures call { (D.view disk.old).honest → IsCall A D.view (Closed disk.old) (Answered []) (Closed disk.new) }
{
    disk.sync()?;
    check_sides(alloc, disk)
}
