//! A disk that is made for an empty register, or for one that is given.
ghost use Rattle.std.specs.Prelude.{◌≡◌, ◌↔◌, IfErr, IfOk, IfSome, IsSome, None, Ok, Some, is_err, true};
ghost use Rattle.file_disk.specs.Disk.{calls_of};
ghost use Rattle.centre_core.specs.State.{empty};
ghost use Rattle.checkpoint.specs.Layout.{disk_size};
ghost use Rattle.recovery.specs.Calls.{format_calls};
ghost use Rattle.recovery.specs.FormatWith.{format_with_calls};
ghost use Rattle.served_disk.specs.Faults.{of_store};
ghost use Rattle.served_disk.specs.Calls.{HasPartOf, IsBlankOf, making_calls};
ghost use Rattle.served_disk.specs.Making.{AreInRange, AsksFor, AsksForNone, IsFor, IsOfMaking};
ghost use Rattle.served_disk.specs.Named.{IsMadeIn, IsNotMade, IsUnmadeIn};

use crate::{DiskFiles, Fault, Refused};
use centre_core::Register;
use checkpoint::Layout;
use file_disk::{FileDisk, SectorFile};
use recovery::{StoreFault, format, format_with};
use registration::Limits;
use settings::{Settings, read_settings};
use std::alloc::Global;

/// The layout for these numbers, if each is in its range.
fn layout_for(settings: &Settings) -> Option<Layout>
    ensures fits { IsSome result ↔ AreInRange settings.now }
    ensures value { IfSome result (IsFor settings.now) }
{
    let limits = Limits::new(
        settings.rules,
        settings.radios,
        settings.mail,
        settings.stations,
    )?;
    Layout::new(limits, settings.journal)
}

/// The layout of the disk that a settings text asks for.
///
/// # Errors
/// `Settings` if the text holds no settings, `BadGeometry` if one of its numbers is out of range, and `Memory`.
pub fn layout_of<'a>(alloc: Global, text: &[u8]) -> Result<Layout, Fault<'a>>
    ensures layout { IfOk result (AsksFor text.now) }
    ensures none { IfErr result (AsksForNone text.now) }
{
    match read_settings(alloc, text) {
        Ok(settings) => layout_for(&settings).ok_or(Fault::BadGeometry),
        Err(fault) => Err(Fault::of_settings(fault)),
    }
}

/// A disk of zeros for this layout, in a new file of this name.
fn blank_disk<'a, F: SectorFile, R: DiskFiles<F>>(
    rt: &R,
    layout: &Layout,
    name: &'a str,
) -> Result<FileDisk<F>, Refused<'a, F>>
    ensures gives { IfOk result (λ disk. R.created rt.now name.now (disk_size layout.now) (Ok disk)) }
    ensures blank { IfOk result (IsBlankOf (disk_size layout.now)) }
    ensures no_disk { IfErr result (IsNotMade (R.created rt.now) name.now (disk_size layout.now)) }
    ensures none { IfErr result (λ e. e.disk ≡ None) }
    ensures kinds { IfErr result (λ e. IsOfMaking name.now e.fault) }
{
    match rt.create(name, layout.sectors()) {
        Ok(disk) => Ok(disk),
        Err(fault) => Err(Refused::of_file(fault, name)),
    }
}

/// The disk, if it was formatted.
fn if_formatted<'a, F: SectorFile>(
    disk: FileDisk<F>,
    done: Result<(), StoreFault>,
) -> Result<FileDisk<F>, Refused<'a, F>>
    ensures ok { IfOk result (λ same. (done ≡ Ok tt) × (same ≡ disk)) }
    ensures refused { IfErr result (λ e. (e.disk ≡ Some disk) × IfErr done (λ fault. e.fault ≡ of_store fault)) }
    ensures err { IfErr result (λ e. is_err done ≡ true) }
{
    match done {
        Ok(()) => Ok(disk),
        Err(fault) => Err(Refused::of_store(fault, disk)),
    }
}

/// Makes a disk in a new file of this name, for an empty register. It writes zeros into each sector and syncs; then it formats the
/// disk. Nothing is written after the last sync.
///
/// # Errors
/// `File` if the file can't be made or exists already, `Device` and `Memory`. Once the file holds all sectors, only `Device` comes, and only
/// if the disk has failed. A file that could not be finished is not removed.
pub fn format_disk<'a, F: SectorFile, R: DiskFiles<F>>(
    rt: &R,
    layout: &Layout,
    name: &'a str,
) -> Result<FileDisk<F>, Refused<'a, F>>
    // If the disk in the file is honest, it opens to the empty register.
    ensures made { IfOk result (IsMadeIn F.view (R.created rt.now) name.now layout.now (empty layout.now.limits)) }
    ensures refused { IfErr result (IsUnmadeIn F.view (R.created rt.now) name.now layout.now) }
    ensures sectors { IfOk result (λ disk. disk.sectors ≡ disk_size layout.now) }
    ensures calls { IfOk result (λ disk. calls_of disk ≡ making_calls layout.now (format_calls layout.now)) }
    ensures some_calls { IfErr result (HasPartOf (making_calls layout.now (format_calls layout.now))) }
    ensures kinds { IfErr result (λ e. IsOfMaking name.now e.fault) }
{
    let mut disk = blank_disk(rt, layout, name)?;
    let done = format::<Global, FileDisk<F>>(&mut disk, layout);
    if_formatted(disk, done)
}

/// Makes a disk in a new file of this name, as `format_disk` does, but for this register, which has the layout's limits.
///
/// # Errors
/// Those of `format_disk`.
pub fn make_disk_with<'a, F: SectorFile, R: DiskFiles<F>>(
    rt: &R,
    layout: &Layout,
    register: &Register<Global>,
    name: &'a str,
) -> Result<FileDisk<F>, Refused<'a, F>>
    requires limits { register.now.registered.limits ≡ layout.now.limits }

    // If the disk in the file is honest, it opens to this register.
    ensures made { IfOk result (IsMadeIn F.view (R.created rt.now) name.now layout.now register.now) }
    ensures refused { IfErr result (IsUnmadeIn F.view (R.created rt.now) name.now layout.now) }
    ensures sectors { IfOk result (λ disk. disk.sectors ≡ disk_size layout.now) }
    ensures calls { IfOk result (λ disk. calls_of disk ≡ making_calls layout.now (format_with_calls layout.now register.now)) }
    ensures some_calls { IfErr result (HasPartOf (making_calls layout.now (format_with_calls layout.now register.now))) }
    ensures kinds { IfErr result (λ e. IsOfMaking name.now e.fault) }
{
    let mut disk = blank_disk(rt, layout, name)?;
    let done = format_with(&mut disk, layout, register);
    if_formatted(disk, done)
}
