//! The rows of a side's image that can still be read, as a register.
ghost use Rattle.std.specs.Prelude.{◌≡◌, ◌+◌, ◌<◌, ◌≤◌, ◌^◌, ℕ, IfErr, IfOk, OnOk};
ghost use Rattle.image_rows.specs.Rows.{HeaderRow};
ghost use Rattle.image_rows.specs.RowReading.{IsRow};
ghost use Rattle.image_rows.specs.Held.{IsOutcome};
ghost use Rattle.recovery.specs.declared.fault.StoreFault.TheVariants.{NoMemory};
ghost use Rattle.recovery.specs.Damage.{IsOfDamage};
ghost use Rattle.recovery.specs.Rests.{lowered, rows_stated, with_row, without_rows};
ghost use Rattle.recovery.specs.Inside.Reads.{ReadsOrFails};
ghost use Rattle.recovery.specs.Inside.Rests.{HasAtMost, kept_after, kept_at, kept_by_header, kept_of, left_of, taken_at};

use crate::row_faults::{fault_at, kind_at};
use crate::{DamageKind, StoreFault};
use centre_core::Register;
use image_rows::row_laws::row_read_back;
use image_rows::{Header, Loader, header_row};
use registration::Limits;
use sector_disk::Disk;
use std::alloc::Allocator;

// A slot: its first sector, and the header that this holds; and the limits of the register.
#[derive(Clone, Copy, Drop)]
pub(crate) struct Slot {
    pub(crate) limits: Limits,
    pub(crate) first: u64,
    pub(crate) stated: Header,
}

// The header with one more row of this kind.
fn with_row(kept: &Header, kind: DamageKind) -> Header
    requires few { HasAtMost 135232 kept.now }
    ensures { result ≡ with_row kept.now kind }
{
    match kind {
        DamageKind::Rule => Header {
            rules: kept.rules + 1,
            ..*kept
        },
        DamageKind::Radio => Header {
            radios: kept.radios + 1,
            ..*kept
        },
        DamageKind::Item => Header {
            mail: kept.mail + 1,
            ..*kept
        },
        DamageKind::Station => Header {
            served: kept.served + 1,
            ..*kept
        },
        _ => *kept,
    }
}

// Whether the loader takes the row at a place after a header. A row of another kind than is due there is left out.
fn takes_row<A: Allocator + Clone>(
    loader: &mut Loader<A>,
    stated: &Header,
    place: u64,
    bytes: &[u8; 512],
) -> Result<bool, StoreFault>
    ensures taken { IfOk result (λ taken. IsOutcome (taken_at stated.now place bytes.now loader.old) loader.old taken loader.new) }
    ensures kinds { IfErr result (λ e. e ≡ NoMemory) }
{
    if fault_at(stated, place, bytes).is_some() {
        return Ok(false);
    }
    Ok(loader.take(bytes)?)
}

// Reads the row at a place of a slot, and gives it to the loader.
#[tactic(auto, using(sector_disk::proofs::Reading::one_read))]
fn keep_row<A: Allocator + Clone, D: Disk>(
    disk: &mut D,
    slot: &Slot,
    place: u64,
    loader: &mut Loader<A>,
    kept: &mut Header,
) -> Result<(), StoreFault>
    requires inside { slot.now.first + place < (D.view disk.old).sectors }
    requires fits { slot.now.first + place < 2 ^ 64 }
    requires few { HasAtMost 135232 kept.old }
    ensures kept { OnOk result ((D.view disk.old).honest → kept_of loader.new kept.new
        ≡ kept_at slot.now (D.view disk.old).reads place (kept_of loader.old kept.old)) }
    ensures more { (n : ℕ) → HasAtMost n kept.old → OnOk result (HasAtMost (n + 1) kept.new) }
    ensures reads { ReadsOrFails IsOfDamage (D.view disk.old) (D.view disk.new) result }
{
    let mut bytes = [0; 512];
    disk.read(slot.first + place, &mut bytes)?;
    if takes_row(loader, &slot.stated, place, &bytes)? {
        *kept = with_row(kept, kind_at(&slot.stated, place));
    }
    Ok(())
}

// A header without rows.
fn without_rows(header: &Header) -> Header
    ensures { result ≡ without_rows header.now }
{
    Header {
        rules: 0,
        radios: 0,
        mail: 0,
        served: 0,
        ..*header
    }
}

// How many rows a header states.
fn rows_stated(header: &Header) -> u64
    ensures { result ≡ rows_stated header.now }
{
    u64::from(header.rules)
        + u64::from(header.radios)
        + u64::from(header.mail)
        + u64::from(header.served)
}

// Gives a loader the rows of a slot after its header. Returns how many were kept of each kind.
#[tactic(auto, unfolding(crate::specs::Rests::rows_kept))]
fn keep_rows<A: Allocator + Clone, D: Disk>(
    disk: &mut D,
    slot: &Slot,
    loader: &mut Loader<A>,
) -> Result<Header, StoreFault>
    requires inside { slot.now.first + rows_stated slot.now.stated < (D.view disk.old).sectors }
    requires fits { slot.now.first + rows_stated slot.now.stated < 2 ^ 64 }
    requires few { rows_stated slot.now.stated ≤ 135232 }
    ensures kept { IfOk result (λ kept. (D.view disk.old).honest → kept_of loader.new kept
        ≡ kept_after slot.now (D.view disk.old).reads loader.old) }
    ensures reads { ReadsOrFails IsOfDamage (D.view disk.old) (D.view disk.new) result }
{
    let mut kept = without_rows(&slot.stated);
    let rows = rows_stated(&slot.stated);
    for k in 0..rows {
        keep_row(disk, slot, k + 1, loader, &mut kept)?;
    }
    Ok(kept)
}

// The header with fewer rows: of the first kind of which it states more than were kept, it then states as many as were.
fn lowered(header: &Header, kept: &Header) -> Header
    ensures { result ≡ lowered header.now kept.now }
{
    if kept.rules < header.rules {
        Header {
            rules: kept.rules,
            ..*header
        }
    } else if kept.radios < header.radios {
        Header {
            radios: kept.radios,
            ..*header
        }
    } else if kept.mail < header.mail {
        Header {
            mail: kept.mail,
            ..*header
        }
    } else if kept.served < header.served {
        Header {
            served: kept.served,
            ..*header
        }
    } else {
        *header
    }
}

// Loads the rows of a slot under this header in place of the one that is there.
fn load<A: Allocator + Copy, D: Disk>(
    alloc: A,
    disk: &mut D,
    slot: &Slot,
    header: &Header,
) -> Result<(Loader<A>, Header), StoreFault>
    requires inside { slot.now.first + rows_stated slot.now.stated < (D.view disk.old).sectors }
    requires fits { slot.now.first + rows_stated slot.now.stated < 2 ^ 64 }
    requires few { rows_stated slot.now.stated ≤ 135232 }
    ensures kept { IfOk result (λ x. (D.view disk.old).honest → IsRow (HeaderRow header.now)
        → kept_of x.0 x.1 ≡ kept_by_header slot.now (D.view disk.old).reads header.now) }
    ensures reads { ReadsOrFails IsOfDamage (D.view disk.old) (D.view disk.new) result }
{
    row_read_back();
    let mut loader = Loader::new(alloc, slot.limits)?;
    let _begun = loader.take(&header_row(header))?;
    match keep_rows(disk, slot, &mut loader) {
        Ok(kept) => Ok((loader, kept)),
        Err(fault) => {
            drop(loader);
            Err(fault)
        }
    }
}

// The register of the rows of a slot that can still be read, and the header under which they make it.
#[tactic(auto, unfolding(crate::specs::Rests::made_by))]
pub(crate) fn read_rest_base<A: Allocator + Copy, D: Disk>(
    alloc: A,
    disk: &mut D,
    slot: &Slot,
) -> Result<Option<(Header, Register<A>)>, StoreFault>
    requires inside { slot.now.first + rows_stated slot.now.stated < (D.view disk.old).sectors }
    requires fits { slot.now.first + rows_stated slot.now.stated < 2 ^ 64 }
    requires few { rows_stated slot.now.stated ≤ 135232 }
    ensures exact { IfOk result (λ found. (D.view disk.old).honest → IsRow (HeaderRow slot.now.stated)
        → found ≡ left_of slot.now (D.view disk.old).reads) }
    ensures reads { ReadsOrFails IsOfDamage (D.view disk.old) (D.view disk.new) result }
{
    let mut header = slot.stated;
    for _ in 0..5u32 {
        let (loader, kept) = load(alloc, disk, slot, &header)?;
        match loader.finish() {
            Some((_, register)) => return Ok(Some((header, register))),
            None => header = lowered(&header, &kept),
        }
    }
    Ok(None)
}
