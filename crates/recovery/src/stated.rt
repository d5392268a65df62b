//! What the header of a side states, and what is wrong with the records after it.
ghost use Rattle.std.specs.Prelude.{◌≡◌, ◌<◌, ◌≤◌, IfErr, IfOk, IfSome, option_map};
ghost use Rattle.centre_core.specs.State.{last_number};
ghost use Rattle.image_rows.specs.Loading.{header_may};
ghost use Rattle.checkpoint.specs.Layout.{disk_size};
ghost use Rattle.checkpoint.specs.OnSide.{slot_form};
ghost use Rattle.recovery.specs.declared.fault.StoreFault.TheVariants.{DiskFault};
ghost use Rattle.recovery.specs.Damage.{IsOfDamage, record_fault, record_kind};
ghost use Rattle.recovery.specs.Inside.Damaged.{IsBadRecord, slot_header};
ghost use Rattle.recovery.specs.Inside.Reads.{ReadsOrFails};

use crate::row_faults::header_of;
use crate::{DamageKind, Reason, StoreFault};
use byteorder::{BigEndian, ByteOrder};
use centre_core::LAST_NUMBER;
use checkpoint::{Layout, Side, stated_form};
use gated_journal::{Form, Journal, JournalError};
use image_rows::Header;
use registration::Limits;
use sector_disk::Disk;
use std::alloc::Allocator;

// What the header of a side states, and the form of the records after it.
#[derive(Clone, Copy, Drop)]
pub(crate) struct Stated {
    pub(crate) header: Header,
    pub(crate) form: Form,
}

// Reads the header of a side, whether or not its root is open; `None` if its slot begins with none.
#[tactic(auto, using(sector_disk::proofs::Reading::one_read))]
pub(crate) fn read_header<D: Disk>(
    disk: &mut D,
    layout: &Layout,
    side: Side,
) -> Result<Option<Stated>, StoreFault>
    requires room { disk_size layout.now ≤ (D.view disk.old).sectors }
    ensures exact { IfOk result (λ found. (D.view disk.old).honest
        → option_map (λ stated. stated.header) found ≡ slot_header layout.now side (D.view disk.old).reads) }
    ensures form { IfOk result (λ found. (D.view disk.old).honest → IfSome found (λ stated. stated.form ≡ slot_form layout.now side (D.view disk.old).reads)) }
    ensures device { IfErr result (λ fault. fault ≡ DiskFault) }
    ensures reads { ReadsOrFails IsOfDamage (D.view disk.old) (D.view disk.new) result }
{
    let mut bytes = [0; 512];
    disk.read(layout.slot(side), &mut bytes)?;
    match header_of(&bytes) {
        Some(header) => Ok(Some(Stated {
            header,
            form: stated_form(&bytes),
        })),
        None => Ok(None),
    }
}

// Whether the header states no more rows than the limits allow, and no more commands than there are numbers.
pub(crate) fn header_may(limits: &Limits, header: &Header) -> bool
    ensures { result ≡ header_may limits.now header.now }
{
    header.count <= LAST_NUMBER
        && header.rules <= limits.rules
        && header.radios <= limits.radios
        && header.mail <= limits.mail
        && header.served <= limits.stations
}

// The first record of a side that can't be read.
pub(crate) fn bad_record<A: Allocator + Copy, D: Disk>(
    alloc: A,
    disk: &mut D,
    layout: &Layout,
    side: Side,
    stated: Stated,
) -> Result<Option<u64>, StoreFault>
    requires room { disk_size layout.now ≤ (D.view disk.old).sectors }
    requires counts { stated.header.count ≤ last_number }
    ensures exact { IfOk result (λ bad. (D.view disk.old).honest → IsBadRecord A layout.now side stated (D.view disk.old) bad) }
    ensures on_disk { IfOk result (λ bad. IfSome bad (λ at. at < (D.view disk.old).sectors)) }
    ensures reads { ReadsOrFails IsOfDamage (D.view disk.old) (D.view disk.new) result }
{
    let mut journal = Journal::start(
        alloc,
        layout.half(side),
        u64::from(layout.journal()),
        stated.form,
        stated.header.count,
    )?;
    match journal.judge_rest(disk) {
        Ok(()) => Ok(None),
        Err(JournalError::Damaged(at)) => Ok(Some(at)),
        Err(error) => Err(StoreFault::from(error)),
    }
}

// What is wrong with the record at which opening stops.
pub(crate) fn record_fault(bad: Option<u64>) -> Reason
    ensures { result ≡ record_fault bad }
{
    match bad {
        None => Reason::Refused,
        Some(_) => Reason::Unreadable,
    }
}

// What the sector is to hold at which a record is at fault.
#[tactic(auto, using(sector_disk::proofs::Reading::one_read))]
pub(crate) fn read_record_kind<D: Disk>(
    disk: &mut D,
    layout: &Layout,
    side: Side,
    at: u64,
) -> Result<DamageKind, StoreFault>
    requires inside { at < (D.view disk.old).sectors }
    ensures exact { IfOk result (λ kind. (D.view disk.old).honest → kind ≡ record_kind layout.now side (D.view disk.old).reads at) }
    ensures reads { ReadsOrFails IsOfDamage (D.view disk.old) (D.view disk.new) result }
{
    let mut bytes = [0; 512];
    disk.read(at, &mut bytes)?;
    let end = layout.half(side) + u64::from(layout.journal());
    if at == end.saturating_sub(1) {
        Ok(DamageKind::Gate)
    } else {
        Ok(DamageKind::Record(BigEndian::read_u16(&bytes)))
    }
}
