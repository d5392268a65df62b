// The sides of a disk, and which of them counts.
ghost use Rattle.std.specs.Prelude.{◌≡◌, ◌≤◌, ◌++◌, IfErr, IfOk, option_map};
ghost use Rattle.sector_disk.specs.Run.{HasCalled};
ghost use Rattle.image_rows.specs.RowReading.{row_in};
ghost use Rattle.checkpoint.specs.Layout.{disk_size};
ghost use Rattle.gated_journal.specs.declared.form.Form.{Form};
ghost use Rattle.checkpoint.specs.declared.side.Side.{Side};
ghost use Rattle.checkpoint.specs.OnSide.{epoch_of, slot_form};
ghost use Rattle.recovery.specs.Checking.{greater};
ghost use Rattle.recovery.specs.Opens.{chosen, side_at, side_in};
ghost use Rattle.recovery.specs.Opening.{IsValueIn, header_reads};
ghost use Rattle.recovery.specs.Inside.Current.{HasForm};
ghost use Rattle.recovery.specs.Inside.Reads.{IsOfRoots, IsOfSector, ReadsOrFails};

use crate::StoreFault;
use checkpoint::{Layout, Side, stated_form};
use gated_journal::Form;
use image_rows::{ReadRow, read_row};
use sector_disk::Disk;

// What the header in a slot states: the epoch of the image, and the form of the records after it.
#[derive(Clone, Copy, Drop)]
pub(crate) struct Head {
    pub(crate) epoch: u64,
    pub(crate) form: Form,
}

// The side that counts, and the form of the records in its half.
#[derive(Clone, Copy, Drop)]
pub(crate) struct Current {
    pub(crate) side: Side,
    pub(crate) form: Form,
}

// The epoch of a row that is a header.
fn epoch_of(bytes: &[u8]) -> Option<u64>
    ensures { result ≡ epoch_of (row_in bytes.now) }
{
    match &read_row(bytes)? {
        ReadRow::Header(header) => Some(header.epoch),
        _ => None,
    }
}

// Reads the header of a side; `None` if the side's root is closed. A slot that begins with no header is at fault.
#[tactic(auto, unfolding(crate::specs::Opens::side_at), using(sector_disk::proofs::Reading::one_read))]
pub(crate) fn read_head<D: Disk>(
    disk: &mut D,
    layout: &Layout,
    side: Side,
) -> Result<Option<Head>, StoreFault>
    requires room { disk_size layout.now ≤ (D.view disk.old).sectors }
    ensures exact { (D.view disk.old).honest → IsValueIn (option_map (λ head. head.epoch)) result (side_at layout.now side (D.view disk.old).reads) }
    ensures form { IfOk result (λ found. (D.view disk.old).honest → HasForm (slot_form layout.now side (D.view disk.old).reads) found) }
    ensures calls { IfOk result (λ found. (D.view disk.old).honest
        → HasCalled (D.view disk.old) (D.view disk.new) (header_reads layout.now side (D.view disk.old).reads)) }
    ensures reads { ReadsOrFails (IsOfSector (D.view disk.old).sectors) (D.view disk.old) (D.view disk.new) result }
{
    let mut bytes = [0; 512];
    disk.read(layout.root(side), &mut bytes)?;
    if bytes[0] != 1 {
        return Ok(None);
    }
    let slot = layout.slot(side);
    disk.read(slot, &mut bytes)?;
    match epoch_of(&bytes) {
        Some(epoch) => Ok(Some(Head {
            epoch,
            form: stated_form(&bytes),
        })),
        None => Err(StoreFault::Damaged(slot)),
    }
}

// This side, with the form that its header states.
pub(crate) fn by(side: Side, head: Head) -> Current
    ensures { result ≡ record { side = side; form = head.form } }
{
    Current {
        side,
        form: head.form,
    }
}

// The side of the greater epoch, of two with these epochs; `None` if both have the same.
pub(crate) fn greater(a: u64, b: u64) -> Option<Side>
    ensures { result ≡ greater a b }
{
    if a == b {
        None
    } else if a < b {
        Some(Side::B)
    } else {
        Some(Side::A)
    }
}

// The side that counts, of those with an open root, by their headers: the one of the greater epoch. Sector 1 is at fault if
// there is none, sector 2 if both have the same epoch.
fn choose_side(a: Option<Head>, b: Option<Head>) -> Result<Current, StoreFault>
    ensures value { IsValueIn (λ current. current.side) result (chosen (option_map (λ head. head.epoch) a) (option_map (λ head. head.epoch) b)) }
    ensures form { (form : Side → Form) → HasForm (form Side.A) a → HasForm (form Side.B) b → IfOk result (λ current. current.form ≡ form current.side) }
    ensures kinds { IfErr result IsOfRoots }
{
    match (a, b) {
        (None, None) => Err(StoreFault::Damaged(1)),
        (Some(a), None) => Ok(by(Side::A, a)),
        (None, Some(b)) => Ok(by(Side::B, b)),
        (Some(a), Some(b)) => match greater(a.epoch, b.epoch) {
            None => Err(StoreFault::Damaged(2)),
            Some(Side::A) => Ok(by(Side::A, a)),
            Some(Side::B) => Ok(by(Side::B, b)),
        },
    }
}

// The side that counts, and the form of its records. The first sector of each open side's slot is read.
pub(crate) fn read_side<D: Disk>(disk: &mut D, layout: &Layout) -> Result<Current, StoreFault>
    requires room { disk_size layout.now ≤ (D.view disk.old).sectors }
    ensures exact { (D.view disk.old).honest → IsValueIn (λ current. current.side) result (side_in layout.now (D.view disk.old).reads) }
    ensures form { IfOk result (λ current. (D.view disk.old).honest → current.form ≡ slot_form layout.now current.side (D.view disk.old).reads) }
    ensures calls { IfOk result (λ current. (D.view disk.old).honest → HasCalled (D.view disk.old) (D.view disk.new)
        (header_reads layout.now Side.A (D.view disk.old).reads ++ header_reads layout.now Side.B (D.view disk.old).reads)) }
    ensures reads { ReadsOrFails (IsOfSector (D.view disk.old).sectors) (D.view disk.old) (D.view disk.new) result }
{
    let a = read_head(disk, layout, Side::A)?;
    let b = read_head(disk, layout, Side::B)?;
    choose_side(a, b)
}
