//! What is left of the register on a damaged disk.
ghost use Rattle.std.specs.Prelude.{◌≡◌, ◌≤◌, ◌⊎◌, IfErr, IfOk, IfSome, IsErrOf, None, true};
ghost use Rattle.sector_disk.specs.Disk.{sector};
ghost use Rattle.sector_disk.specs.Effects.{OnlyReads};
ghost use Rattle.centre_core.specs.State.{last_number};
ghost use Rattle.image_rows.specs.Loading.{header_may};
ghost use Rattle.gated_journal.specs.Half.{is_open};
ghost use Rattle.checkpoint.specs.Layout.{disk_size, root_at};
ghost use Rattle.recovery.specs.declared.fault.StoreFault.TheVariants.{DiskFault, NoMemory};
ghost use Rattle.recovery.specs.Checking.{IsNoDamage};
ghost use Rattle.recovery.specs.Damage.{IsOfDamage};
ghost use Rattle.recovery.specs.Label.{layout_in};
ghost use Rattle.recovery.specs.Opening.{Fails, HasNoFaultYet};
ghost use Rattle.recovery.specs.Opens.{opens};
ghost use Rattle.recovery.specs.Rests.{HasGoodHeader, HasLaterOnDisk, HasSomeHeader, IsDamagedWithHeader, IsDiskRest, IsSizeOf};
ghost use Rattle.recovery.specs.Rests.{greater_side, left_out, none_left_out};
ghost use Rattle.recovery.specs.Inside.Reads.{ReadsOrFails};
ghost use Rattle.recovery.specs.Inside.Rests.{IsGoodHeader, IsGreaterRest, IsSideRest, IsStatedRest, SideHasLater, SideLeads};

use crate::StoreFault;
use crate::label::read_layout;
use crate::opening::{Opened, read_all};
use crate::rest_records::{count_later, play_rest};
use crate::rest_rows::{Slot, read_rest_base};
use crate::stated::{Stated, header_may, read_header};
use centre_core::Register;
use checkpoint::{Layout, Side};
use gated_journal::Journal;
use image_rows::Header;
use image_rows::row_laws::row_read_back;
use sector_disk::Disk;
use std::alloc::Allocator;

/// How many rows of each kind are left out.
#[derive(Clone, Copy, Debug, PartialEq, Eq, Drop)]
pub struct LeftOut {
    /// Rules.
    pub rules: u32,
    /// Radios, each with its attachments.
    pub radios: u32,
    /// Waiting items.
    pub items: u32,
    /// Last accepted commands of stations.
    pub stations: u32,
}

/// What is left of the register on a side of a disk.
#[derive(Drop)]
pub struct Rest<A: Allocator> {
    /// The side.
    pub side: Side,
    /// The epoch of its image.
    pub epoch: u64,
    /// How many rows of its image are left out: they are damaged, or may not follow those before them.
    pub left_out: LeftOut,
    /// The register of the other rows, after the commands of the records up to the first one at fault.
    pub register: Register<A>,
    /// The sector at fault, if there is one: the first data sector of that record, or the gate in the half's last sector. The record can't be
    /// read, or a command of it is not accepted. Its commands before that one are applied.
    pub stop: Option<u64>,
    /// How many records after it can be read, one after another. If it can't be read itself, they are looked for where it states that it
    /// ends. None if there is no such record.
    pub later: u64,
}

// How many rows are left out, by the header that is there and by one that states as many as are kept.
fn left_out(stated: &Header, kept: &Header) -> LeftOut
    ensures { result ≡ left_out stated.now kept.now }
{
    LeftOut {
        rules: stated.rules.saturating_sub(kept.rules),
        radios: stated.radios.saturating_sub(kept.radios),
        items: stated.mail.saturating_sub(kept.mail),
        stations: stated.served.saturating_sub(kept.served),
    }
}

// What is left of a side: this register, by the header that is there and by one that states as many rows as are kept. `end` has the
// sector of the record at fault, if there is one, and how many records after it can be read.
fn rest_by<A: Allocator>(
    side: Side,
    stated: &Header,
    kept: &Header,
    register: Register<A>,
    end: (Option<u64>, u64),
) -> Rest<A>
    ensures side { result.side ≡ side }
    ensures epoch { result.epoch ≡ stated.now.epoch }
    ensures out { result.left_out ≡ left_out stated.now kept.now }
    ensures register { result.register ≡ register }
    ensures stop { result.stop ≡ end.0 }
    ensures later { result.later ≡ end.1 }
{
    let (stop, later) = end;
    Rest {
        side,
        epoch: stated.epoch,
        left_out: left_out(stated, kept),
        register,
        stop,
        later,
    }
}

// Applies the records of a side's half to the register, up to the first one at fault. Returns its sector, and how many after it can be
// read.
fn play_half<A: Allocator + Copy, D: Disk>(
    alloc: A,
    disk: &mut D,
    layout: &Layout,
    place: (Side, Stated),
    register: &mut Register<A>,
) -> Result<(Option<u64>, u64), StoreFault>
    requires room { disk_size layout.now ≤ (D.view disk.old).sectors }
    requires counts { place.1.header.count ≤ last_number }
    ensures records { IfOk result (λ x. SideLeads A layout.now place (D.view disk.old) register.old register.new x.0) }
    ensures after { IfOk result (λ x. SideHasLater A layout.now place (D.view disk.old) x.0 x.1) }
    ensures reads { ReadsOrFails IsOfDamage (D.view disk.old) (D.view disk.new) result }
{
    let (side, stated) = place;
    let mut journal = Journal::start(
        alloc,
        layout.half(side),
        u64::from(layout.journal()),
        stated.form,
        stated.header.count,
    )?;
    let Some(at) = play_rest(alloc, disk, &mut journal, register)? else {
        return Ok((None, 0));
    };
    let later = count_later(alloc, disk, &mut journal, at)?;
    Ok((Some(at), later))
}

// What is left of a side with this register of its rows.
fn read_after_base<A: Allocator + Copy, D: Disk>(
    alloc: A,
    disk: &mut D,
    layout: &Layout,
    place: (Side, Stated),
    base: (Header, Register<A>),
) -> Result<Rest<A>, StoreFault>
    requires room { disk_size layout.now ≤ (D.view disk.old).sectors }
    requires counts { place.1.header.count ≤ last_number }
    ensures records { IfOk result (λ rest. SideLeads A layout.now place (D.view disk.old) base.1 rest.register rest.stop) }
    ensures after { IfOk result (λ rest. SideHasLater A layout.now place (D.view disk.old) rest.stop rest.later) }
    ensures side { IfOk result (λ rest. rest.side ≡ place.0) }
    ensures epoch { IfOk result (λ rest. rest.epoch ≡ place.1.header.epoch) }
    ensures out { IfOk result (λ rest. rest.left_out ≡ left_out place.1.header base.0) }
    ensures reads { ReadsOrFails IsOfDamage (D.view disk.old) (D.view disk.new) result }
{
    let (kept, mut register) = base;
    let (side, stated) = place;
    match play_half(alloc, disk, layout, place, &mut register) {
        Ok(end) => Ok(rest_by(side, &stated.header, &kept, register, end)),
        Err(fault) => {
            drop(register);
            Err(fault)
        }
    }
}

// What is left of a side with this header.
fn read_stated<A: Allocator + Copy, D: Disk>(
    alloc: A,
    disk: &mut D,
    layout: &Layout,
    side: Side,
    stated: Stated,
) -> Result<Option<Rest<A>>, StoreFault>
    requires room { disk_size layout.now ≤ (D.view disk.old).sectors }
    requires may { header_may layout.now.limits stated.header ≡ true }
    ensures left { IfOk result (λ found. (D.view disk.old).honest → IsStatedRest A layout.now side stated (D.view disk.old) found) }
    ensures reads { ReadsOrFails IsOfDamage (D.view disk.old) (D.view disk.new) result }
{
    let slot = Slot {
        limits: layout.limits(),
        first: layout.slot(side),
        stated: stated.header,
    };
    let found = read_rest_base(alloc, disk, &slot)?;
    match found {
        None => Ok(None),
        Some(base) => match read_after_base(alloc, disk, layout, (side, stated), base) {
            Ok(rest) => Ok(Some(rest)),
            Err(fault) => Err(fault),
        },
    }
}

// Whether the root of a side is open.
#[tactic(auto, using(sector_disk::proofs::Reading::one_read))]
fn is_open<D: Disk>(disk: &mut D, layout: &Layout, side: Side) -> Result<bool, StoreFault>
    requires room { disk_size layout.now ≤ (D.view disk.old).sectors }
    ensures exact { IfOk result (λ is. (D.view disk.old).honest → is ≡ is_open (sector (D.view disk.old).reads (root_at side))) }
    ensures kinds { IfErr result (λ fault. fault ≡ DiskFault) }
    ensures reads { OnlyReads (D.view disk.old) (D.view disk.new) (IsErrOf result DiskFault) }
{
    let mut bytes = [0; 512];
    disk.read(layout.root(side), &mut bytes)?;
    Ok(bytes[0] == 1)
}

// The header of a side whose root is open, if the limits allow it.
fn read_good_header<D: Disk>(
    disk: &mut D,
    layout: &Layout,
    side: Side,
) -> Result<Option<Stated>, StoreFault>
    requires room { disk_size layout.now ≤ (D.view disk.old).sectors }
    ensures header { IfOk result (λ found. (D.view disk.old).honest → IsGoodHeader layout.now side (D.view disk.old) found) }
    ensures may { IfOk result (λ found. IfSome found (λ stated. header_may layout.now.limits stated.header ≡ true)) }
    ensures device { IfErr result (λ fault. fault ≡ DiskFault) }
    ensures reads { ReadsOrFails IsOfDamage (D.view disk.old) (D.view disk.new) result }
{
    if !is_open(disk, layout, side)? {
        return Ok(None);
    }
    match read_header(disk, layout, side)? {
        Some(stated) if header_may(&layout.limits(), &stated.header) => Ok(Some(stated)),
        _ => Ok(None),
    }
}

// What is left of a side: nothing if its root is closed, if its header is damaged or beyond the limits, or if its rows make no register.
fn read_side_rest<A: Allocator + Copy, D: Disk>(
    alloc: A,
    disk: &mut D,
    layout: &Layout,
    side: Side,
) -> Result<Option<Rest<A>>, StoreFault>
    requires room { disk_size layout.now ≤ (D.view disk.old).sectors }
    ensures left { IfOk result (λ found. (D.view disk.old).honest → IsSideRest A layout.now side (D.view disk.old).reads found) }
    ensures memory { IsErrOf result NoMemory → (D.view disk.old).honest → HasGoodHeader layout.now side (D.view disk.old).reads }
    ensures reads { ReadsOrFails IsOfDamage (D.view disk.old) (D.view disk.new) result }
{
    row_read_back();
    let found = read_good_header(disk, layout, side)?;
    match found {
        Some(stated) => read_stated(alloc, disk, layout, side, stated),
        None => Ok(None),
    }
}

// How many commands the register that is left of a side has accepted, and the side's epoch; `None` if nothing is left.
fn read_size<A: Allocator + Copy, D: Disk>(
    alloc: A,
    disk: &mut D,
    layout: &Layout,
    side: Side,
) -> Result<Option<(u64, u64)>, StoreFault>
    requires room { disk_size layout.now ≤ (D.view disk.old).sectors }
    ensures size { IfOk result (λ size. (D.view disk.old).honest → IsSizeOf A layout.now side (D.view disk.old).reads size) }
    ensures memory { IsErrOf result NoMemory → (D.view disk.old).honest → HasGoodHeader layout.now side (D.view disk.old).reads }
    ensures reads { ReadsOrFails IsOfDamage (D.view disk.old) (D.view disk.new) result }
{
    let found = read_side_rest(alloc, disk, layout, side)?;
    match found {
        None => Ok(None),
        Some(rest) => {
            let size = (rest.register.count(), rest.epoch);
            drop(rest);
            Ok(Some(size))
        }
    }
}

// The side of which more commands are left, or the one of the greater epoch if these are equal. A side of which nothing is left
// has `None`; A if both have.
fn greater_side(a: Option<(u64, u64)>, b: Option<(u64, u64)>) -> Side
    ensures { result ≡ greater_side a b }
{
    match (a, b) {
        (_, None) => Side::A,
        (None, Some(_)) => Side::B,
        (Some(a), Some(b)) => {
            if a.0 < b.0 || (a.0 == b.0 && a.1 < b.1) {
                Side::B
            } else {
                Side::A
            }
        }
    }
}

// What is left of a disk that does not open: of the side of which more is left.
fn read_greater_rest<A: Allocator + Copy, D: Disk>(
    alloc: A,
    disk: &mut D,
) -> Result<Option<Rest<A>>, StoreFault>
    ensures left { IfOk result (λ found. (D.view disk.old).honest → IsGreaterRest A (D.view disk.old).reads found) }
    ensures memory { IsErrOf result NoMemory → (D.view disk.old).honest → HasSomeHeader (D.view disk.old).reads }
    ensures faults { IfErr result (λ fault. (D.view disk.old).honest → Fails fault (layout_in (D.view disk.old).reads)) }
    ensures reads { ReadsOrFails IsNoDamage (D.view disk.old) (D.view disk.new) result }
{
    let layout = read_layout(disk)?;
    let a = read_size(alloc, disk, &layout, Side::A)?;
    let b = read_size(alloc, disk, &layout, Side::B)?;
    read_side_rest(alloc, disk, &layout, greater_side(a, b))
}

// All of a disk that opens.
fn rest_of_opened<A: Allocator>(opened: Opened<A>) -> Rest<A>
    ensures register { result.register ≡ opened.register }
    ensures side { result.side ≡ opened.side }
    ensures epoch { result.epoch ≡ opened.epoch }
    ensures none { result.left_out ≡ none_left_out }
    ensures stop { result.stop ≡ None }
    ensures later { result.later ≡ 0 }
{
    let Opened {
        side,
        epoch,
        register,
        ..
    } = opened;
    Rest {
        side,
        epoch,
        left_out: LeftOut {
            rules: 0,
            radios: 0,
            items: 0,
            stations: 0,
        },
        register,
        stop: None,
        later: 0,
    }
}

/// Reads what is left of the register on a disk. If the disk opens, it is the register that it opens to. Else it is that of the side of
/// which more accepted commands are left, or of the one with the greater epoch if these are equal. `None` if neither has an open root and
/// a header within the limits, or if the rows of neither make a register. At most one register is in memory, under `alloc`. The disk is
/// only read: sync it before.
///
/// `Unformatted` and `BadGeometry` report a disk without a layout. Other damage is no fault.
pub fn read_rest<A: Allocator + Copy, D: Disk>(
    alloc: A,
    disk: &mut D,
) -> Result<Option<Rest<A>>, StoreFault>
    // It is what is left of the disk as it reads.
    ensures exact { IfOk result (λ found. (D.view disk.old).honest → IsDiskRest A (D.view disk.old).reads found) }

    // So many records can be read after the one at which those of the side end.
    ensures after { IfOk result (λ found. (D.view disk.old).honest → IfSome found (HasLaterOnDisk A (D.view disk.old).reads)) }

    // A disk without a layout has this fault. No other fault of a disk is reported, but a device that failed, or out of memory.
    ensures faults { IfErr result (λ fault. (D.view disk.old).honest → Fails fault (opens A (D.view disk.old).reads)) }

    // Out of memory comes only where memory may be needed: opening met no fault, or the disk is damaged and a side has a header.
    ensures memory { IsErrOf result NoMemory → (D.view disk.old).honest
        → HasNoFaultYet A (D.view disk.old).reads (D.view disk.old).calls (D.view disk.new).calls ⊎ IsDamagedWithHeader A (D.view disk.old).reads }
    ensures kinds { IfErr result IsNoDamage }
    ensures reads { OnlyReads (D.view disk.old) (D.view disk.new) (IsErrOf result DiskFault) }
{
    match read_all(alloc, disk) {
        Ok(opened) => Ok(Some(rest_of_opened(opened))),
        Err(StoreFault::Damaged(_)) => read_greater_rest(alloc, disk),
        Err(fault) => Err(fault),
    }
}
