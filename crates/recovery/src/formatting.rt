//! Formatting a disk for an empty register.
ghost use Rattle.std.specs.Prelude.{◌≡◌, ◌≤◌, ◌<◌, [], Err, IfErr, IsErrOf, List, Ok, OnOk};
ghost use Rattle.sector_disk.specs.Disk.{HasCause, HasFailed};
ghost use Rattle.sector_disk.specs.Effects.{KeepsDisk};
ghost use Rattle.sector_disk.specs.Run.{HasCalled, HasMade};
ghost use Rattle.sector_disk.specs.declared.disk.DiskError.TheVariants.{OutOfRange};
ghost use Rattle.centre_core.specs.State.{empty};
ghost use Rattle.gated_journal.specs.declared.form.Form.TheVariants.{Numbered};
ghost use Rattle.checkpoint.specs.declared.side.Side.TheVariants.{A};
ghost use Rattle.checkpoint.specs.Layout.{disk_size, half_at};
ghost use Rattle.checkpoint.specs.OnSide.{EachIsOnSide, InEach, fresh};
ghost use Rattle.recovery.specs.declared.fault.StoreFault.TheVariants.{BadGeometry, DiskFault};
ghost use Rattle.recovery.specs.Calls.{first_header, format_calls, label_sector, side_calls};
ghost use Rattle.recovery.specs.Opens.{opening, opens};
ghost use Rattle.recovery.specs.Inside.Sides.{AreReady};
ghost use Rattle.recovery.specs.OpensTo.{first_base};
ghost use Rattle.recovery.specs.Lives.{Closed, IsLife};

use crate::StoreFault;
use checkpoint::{Layout, Side};
use command_bytes::ByteSink;
use command_bytes::put::put_number;
use image_rows::{Header, SectorText, header_row};
use sector_disk::{Disk, DiskError};
use std::alloc::Allocator;

/// The layout number in every label, also where the sides are of layout 2.
pub(crate) const LAYOUT: u64 = 1;

// The first row of an empty register's image, of epoch 1.
fn first_header() -> [u8; 512]
    ensures { result ≡ first_header }
{
    let header = Header {
        epoch: 1,
        count: 0,
        rules: 0,
        radios: 0,
        mail: 0,
        served: 0,
    };
    header_row(&header)
}

// The sector of a label.
#[tactic(auto, unfolding(checkpoint::specs::Label::label_text), using(std::proofs::Common::append_assoc))]
pub(crate) fn label_sector(layout: &Layout) -> [u8; 512]
    ensures { result ≡ label_sector layout.now }
{
    let limits = layout.limits();
    let mut text = SectorText::new();
    text.put(b"TETRALOC");
    put_number(&mut text, 2, LAYOUT);
    put_number(&mut text, 4, u64::from(limits.rules));
    put_number(&mut text, 4, u64::from(limits.radios));
    put_number(&mut text, 4, u64::from(limits.mail));
    put_number(&mut text, 4, u64::from(limits.stations));
    put_number(&mut text, 4, u64::from(layout.journal()));
    text.finish()
}

// Writes and syncs all but the label.
pub(crate) fn write_sides<D: Disk>(disk: &mut D, layout: &Layout) -> Result<(), DiskError>
    requires room { disk_size layout.now ≤ (D.view disk.old).sectors }
    ensures ready { OnOk result ((D.view disk.old).honest → AreReady layout.now (D.view disk.new)) }
    ensures calls { OnOk result (HasCalled (D.view disk.old) (D.view disk.new) (side_calls layout.now)) }
    ensures some_calls { HasMade (D.view disk.old) (D.view disk.new) (side_calls layout.now) }
    ensures cause { HasCause (D.view disk.old) (D.view disk.new) result }
    ensures in_range { IsErrOf result OutOfRange → ⊥ }
    ensures honest { (D.view disk.old).honest → (D.view disk.new).honest }
{
    let mut open = [0; 512];
    open[0] = 1;
    disk.write(layout.slot(Side::A), &first_header())?;
    disk.write(layout.root(Side::A), &open)?;
    disk.write(layout.root(Side::B), &[0; 512])?;
    disk.write(layout.half(Side::A), &[0; 512])?;
    disk.write(layout.half(Side::B), &[0; 512])?;
    disk.sync()
}

/// Formats a disk for an empty register, with epoch 1 on side A. Takes no memory.
///
/// `BadGeometry`: the disk has fewer sectors than the layout needs, and nothing is written. After a `DiskFault` the disk
/// may hold anything.
pub fn format<A: Allocator, D: Disk>(disk: &mut D, layout: &Layout) -> Result<(), StoreFault>
    // At `Ok` each stop leaves a disk on side A that opens to the empty register, without a record.
    ensures on_side { OnOk result ((D.view disk.old).honest
        → EachIsOnSide {A = A} (D.view disk.new) layout.now Side.A Numbered (first_base layout.now) (fresh layout.now Side.A)) }
    ensures opens { OnOk result ((D.view disk.old).honest → InEach (D.view disk.new) (λ image.
        opens A image ≡ Ok (opening layout.now Side.A 1 (half_at layout.now Side.A) (empty layout.now.limits)))) }

    // The sides are written and synced, then the label. Each sector is written once, and nothing is read. A call that
    // fails is the last.
    ensures calls { OnOk result (HasCalled (D.view disk.old) (D.view disk.new) (format_calls layout.now)) }
    ensures some_calls { disk_size layout.now ≤ (D.view disk.old).sectors → HasMade (D.view disk.old) (D.view disk.new) (format_calls layout.now) }

    // It fails only for these reasons.
    ensures geometry { (D.view disk.old).sectors < disk_size layout.now → (result ≡ Err BadGeometry) × (disk.new ≡ disk.old) }
    ensures fault { disk_size layout.now ≤ (D.view disk.old).sectors
        → IfErr result (λ e. (e ≡ DiskFault) × HasFailed (D.view disk.old) (D.view disk.new)) }
    ensures keeps { KeepsDisk (D.view disk.old) (D.view disk.new) (IsErrOf result DiskFault) }

    // The life of the disk begins with the empty register.
    ensures begins { OnOk result ((D.view disk.old).honest → IsLife A D.view (empty layout.now.limits) [] (Closed disk.new)) }
{
    if disk.sectors() < layout.sectors() {
        return Err(StoreFault::BadGeometry);
    }
    write_sides(disk, layout)?;
    disk.write(0, &label_sector(layout))?;
    disk.sync()?;
    Ok(())
}
