//! A check of a disk, as lines.
ghost use Rattle.std.specs.Prelude.{◌≡◌, ◌⊎◌, ◌<◌, ◌≤◌, ℕ, IfErr, IfOk, IsErrOf, OnOk};
ghost use Rattle.std.specs.List.{flat_map};
ghost use Rattle.std.specs.Io.KnownBytes.{Appends};
ghost use Rattle.sector_disk.specs.Disk.{HasFailed};
ghost use Rattle.sector_disk.specs.Reading.{before_reads};
ghost use Rattle.sector_disk.specs.Run.{HasOnlyRead};
ghost use Rattle.file_disk.specs.Disk.{calls_of};
ghost use Rattle.checkpoint.specs.Layout.{disk_size};
ghost use Rattle.recovery.specs.declared.fault.StoreFault.TheVariants.{DiskFault};
ghost use Rattle.recovery.specs.Checking.{IsDamagedAt, opened_by};
ghost use Rattle.recovery.specs.Damage.{IsOfDamage, IsOfState};
ghost use Rattle.recovery.specs.Opening.{IsOfOpening as IsOfStoreOpening};
ghost use Rattle.served_disk.specs.Calls.{IsOnlyRead, IsReadRefused, WasRead, WasReadAtMost};
ghost use Rattle.served_disk.specs.Checking.{IsReported, IsReportedBy, IsReportedOn, checked_text, damage_line, has_damage, is_well, kind_text};
ghost use Rattle.served_disk.specs.Checking.{last_line, opening_word, reason_end, reason_text, sector_text, side_lines, whole_line};
ghost use Rattle.served_disk.specs.Making.{IsOfOpening};
ghost use Rattle.served_disk.specs.Named.{InFile, IsRefusedIn};
ghost use Rattle.served_disk.specs.Refusals.{IsUnchecked, Reports};

use crate::losses::print_losses;
use crate::opening::adopt_disk;
use crate::printing::{LinePart, print};
use crate::showing::ROOM;
use crate::showing_figures::{print_figures, side_text};
use crate::{CountedDisk, DiskFiles, Refused, Tally};
use checkpoint::Side;
use file_disk::{FileDisk, SectorFile};
use recovery::{
    Checked, Damage, DamageKind, Figures, Reason, SideState, StoreFault, check, damage_of,
};
use sector_disk::Disk;
use std::alloc::{AllocError, Allocator, Global};
use std::io;
use std::io::Write;
use std::rt::Clock;

/// What a check of a disk reports.
#[derive(Drop)]
pub struct CheckReport<A: Allocator> {
    /// A line for each side that is whole or unused; for each damaged side a line for each damaged sector, and one for what the side loses; and
    /// one for the whole disk.
    pub text: Vec<u8, A>,
    /// Whether the disk opens and no side is damaged.
    pub well: bool,
}

/// Writes what a sector is to hold.
fn print_kind<W: Write>(out: &mut W, kind: DamageKind) -> io::Result<()>
    ensures { OnOk result (Appends (W.contents out.old) (W.contents out.new) (kind_text kind)) }
{
    match kind {
        DamageKind::Header => out.write_all(b"header"),
        DamageKind::Rule => out.write_all(b"row of a rule"),
        DamageKind::Radio => out.write_all(b"row of a radio"),
        DamageKind::Item => out.write_all(b"row of an item"),
        DamageKind::Station => out.write_all(b"row of a station"),
        DamageKind::Record(commands) => {
            let parts = [
                LinePart::Text("record of "),
                LinePart::Number(u64::from(commands)),
                LinePart::Text(" commands"),
            ];
            print(out, &parts)
        }
        DamageKind::Gate => out.write_all(b"last gate"),
    }
}

fn reason_text(reason: Reason) -> &'static str
    ensures { result.now ≡ reason_text reason }
{
    match reason {
        Reason::Unreadable => "unreadable",
        Reason::BeyondLimits => "beyond the limits",
        Reason::OutOfPlace => "out of place",
        Reason::Refused => "command refused",
    }
}

/// Writes the line of a whole side.
fn print_whole<W: Write>(out: &mut W, side: Side, figures: &Figures) -> io::Result<()>
    ensures { OnOk result (Appends (W.contents out.old) (W.contents out.new) (whole_line side figures.now)) }
{
    let parts = [
        LinePart::Text("side "),
        LinePart::Text(side_text(side)),
        LinePart::Text(" epoch "),
        LinePart::Number(figures.epoch),
        LinePart::Text(" count "),
        LinePart::Number(figures.count),
        LinePart::Text(" gate "),
        LinePart::Number(figures.gate),
        LinePart::Text("\n"),
    ];
    print(out, &parts)
}

/// Writes the beginning of a damaged sector's line.
#[tactic(auto, unfolding(crate::specs::Checking::sector_text))]
fn print_sector<W: Write>(out: &mut W, side: Side, sector: u64) -> io::Result<()>
    ensures { OnOk result (Appends (W.contents out.old) (W.contents out.new) (sector_text side sector)) }
{
    let parts = [
        LinePart::Text("side "),
        LinePart::Text(side_text(side)),
        LinePart::Text(" damaged sector "),
        LinePart::Number(sector),
        LinePart::Text(": "),
    ];
    print(out, &parts)
}

/// Writes the end of a damaged sector's line.
#[tactic(auto, unfolding(crate::specs::Checking::reason_end))]
fn print_reason<W: Write>(out: &mut W, reason: Reason) -> io::Result<()>
    ensures { OnOk result (Appends (W.contents out.old) (W.contents out.new) (reason_end reason)) }
{
    let parts = [
        LinePart::Text(", "),
        LinePart::Text(reason_text(reason)),
        LinePart::Text("\n"),
    ];
    print(out, &parts)
}

/// Writes the line of a damaged sector.
#[tactic(auto, unfolding(crate::specs::Checking::damage_line), using(std::proofs::Common::append_assoc))]
fn print_damage<W: Write>(out: &mut W, side: Side, damage: &Damage) -> io::Result<()>
    ensures { OnOk result (Appends (W.contents out.old) (W.contents out.new) (damage_line side damage.now)) }
{
    print_sector(out, side, damage.sector)?;
    print_kind(out, damage.kind)?;
    print_reason(out, damage.reason)
}

/// Writes a line for each of these damaged sectors.
fn print_damaged<W: Write>(out: &mut W, side: Side, damaged: &[Damage]) -> io::Result<()>
    ensures { OnOk result (Appends (W.contents out.old) (W.contents out.new) (flat_map (damage_line side) damaged.now)) }
{
    for damage in damaged {
        print_damage(out, side, damage)?;
    }
    Ok(())
}

/// Writes the line of an unused or whole side; of a damaged side, a line for each damaged sector and one for what the side loses.
fn print_side<W: Write>(
    out: &mut W,
    side: Side,
    state: &SideState,
    damaged: &[Damage],
) -> io::Result<()>
    ensures { OnOk result (Appends (W.contents out.old) (W.contents out.new) (side_lines side state.now damaged.now)) }
{
    match state {
        SideState::Unused => {
            let parts = [
                LinePart::Text("side "),
                LinePart::Text(side_text(side)),
                LinePart::Text(" unused\n"),
            ];
            print(out, &parts)
        }
        SideState::Whole(figures) => print_whole(out, side, figures),
        SideState::Damaged { .. } => {
            print_damaged(out, side, damaged)?;
            print_losses(out, side, damaged)
        }
    }
}

/// The first word of the last line, for a disk that opens.
fn opening_word(damaged: bool) -> &'static str
    ensures { result.now ≡ opening_word damaged }
{
    if damaged { "kept" } else { "ok" }
}

/// Writes the last line.
fn print_last<W: Write>(out: &mut W, checked: &Checked) -> io::Result<()>
    ensures { OnOk result (Appends (W.contents out.old) (W.contents out.new)
        (last_line (has_damage checked.now) (opened_by checked.now.a checked.now.b))) }
{
    match checked.opened() {
        Ok(figures) => print_figures(out, opening_word(checked.is_damaged()), &figures),
        Err(sector) => {
            let parts = [
                LinePart::Text("lost sector "),
                LinePart::Number(sector),
                LinePart::Text("\n"),
            ];
            print(out, &parts)
        }
    }
}

/// Writes what a check found on a disk, with the damaged sectors of each side, and a line for the whole disk.
#[tactic(auto, using(std::proofs::Common::append_assoc))]
pub fn print_checked<W: Write>(
    out: &mut W,
    checked: &Checked,
    a: &[Damage],
    b: &[Damage],
) -> io::Result<()>
    ensures { OnOk result (Appends (W.contents out.old) (W.contents out.new) (checked_text checked.now a.now b.now)) }
{
    print_side(out, Side::A, &checked.a, a)?;
    print_side(out, Side::B, &checked.b, b)?;
    print_last(out, checked)
}

/// Whether the disk opens and no side is damaged.
fn is_well(checked: &Checked) -> bool
    ensures { result ≡ is_well (has_damage checked.now) (opened_by checked.now.a checked.now.b) }
{
    match checked.opened() {
        Ok(_) => !checked.is_damaged(),
        Err(_) => false,
    }
}

/// Makes the report of what a check found.
fn report<A: Allocator + Drop>(
    alloc: A,
    checked: &Checked,
    a: &[Damage],
    b: &[Damage],
) -> Result<CheckReport<A>, AllocError>
    requires a { IsOfState checked.now.a a.now }
    requires b { IsOfState checked.now.b b.now }
    ensures { IfOk result (λ report. IsReported checked.now a.now b.now report.text.items report.well) }
{
    let mut text = Vec::with_capacity(alloc, ROOM)?;
    match print_checked(&mut text, checked, a, b) {
        Ok(()) => Ok(CheckReport {
            text,
            well: is_well(checked),
        }),
        Err(_) => Err(AllocError),
    }
}

/// Makes the report of a disk that was checked. Its damaged sectors are read again.
pub(crate) fn report_on<A: Allocator + Copy + Drop, D: Disk>(
    alloc: A,
    disk: &mut D,
    checked: &Checked,
) -> Result<CheckReport<A>, StoreFault>
    requires room { disk_size checked.now.layout ≤ (D.view disk.old).sectors }
    requires on_disk { (at : ℕ) → IsDamagedAt at checked.now.a ⊎ IsDamagedAt at checked.now.b → at < (D.view disk.old).sectors }
    ensures reported { IfOk result (λ report. IsReportedOn A checked.now report.text.items report.well (D.view disk.old)) }
    ensures kinds { IfErr result IsOfDamage }
    ensures only_read { (D.view disk.old).honest → HasOnlyRead (D.view disk.old) (D.view disk.new) }
    ensures sectors { (D.view disk.new).sectors ≡ (D.view disk.old).sectors }
    ensures later { (D.view disk.old).failures ≤ (D.view disk.new).failures }
    ensures only_reads { before_reads (D.view disk.new).calls ≡ before_reads (D.view disk.old).calls }
    ensures fault { IsErrOf result DiskFault → HasFailed (D.view disk.old) (D.view disk.new) }
{
    let a = damage_of(alloc, disk, &checked.layout, Side::A, &checked.a)?;
    let b = damage_of(alloc, disk, &checked.layout, Side::B, &checked.b)?;
    match report(alloc, checked, &a, &b) {
        Ok(report) => Ok(report),
        Err(_) => Err(StoreFault::NoMemory),
    }
}

/// Checks both sides of a disk. The disk is synced once, and then only read. It is returned, also after a fault.
///
/// # Errors
/// There is no layout on the disk, the device has failed, or memory ran out. Out of memory masks no bad row or record that was read, and no
/// refused command before the one for which memory ran out. It may mask a refused command after that one.
///
/// Damage is no error: the text reports it. But the fault may be `Damaged` in place of a report: memory ran out after damage was found. It
/// names the first damaged sector of side A, or else of side B. No clause says that memory ran out then.
pub fn check_on<A: Allocator + Copy + Drop, D: Disk>(
    alloc: A,
    disk: D,
) -> Result<(CheckReport<A>, D), (StoreFault, D)>
    ensures reported { IfOk result (λ r. IsReportedBy A r.0.text.items r.0.well (D.view disk)) }
    ensures refused { IfErr result (λ e. IsUnchecked A (D.view disk) (D.view e.1) e.0) }
    ensures calls { IfOk result (λ r. WasRead (D.view disk) (D.view r.1)) }
    ensures some_calls { IfErr result (λ e. WasReadAtMost (e.0 ≡ DiskFault) (D.view disk) (D.view e.1)) }
    ensures kinds { IfErr result (λ e. IsOfStoreOpening e.0) }
{
    let mut disk = disk;
    let checked = match check(alloc, &mut disk) {
        Ok(checked) => checked,
        Err(fault) => return Err((fault, disk)),
    };
    match report_on(alloc, &mut disk, &checked) {
        Ok(report) => Ok((report, disk)),
        Err(fault) => Err((fault.unless_damaged(checked.first_damaged()), disk)),
    }
}

/// Checks both sides of the disk in the file of this name. The disk is synced once, and then only read. It is returned. `tally`
/// counts the sectors that are read.
///
/// # Errors
/// Those of `open_disk`, but `Damaged` only as `check_on` returns it. `Memory` also comes if there is no memory for a text of 1,024 bytes.
pub fn check_disk<'a, F: SectorFile, R: DiskFiles<F> + Clock + Eprint>(
    rt: &R,
    alloc: Global,
    name: &'a str,
    tally: &Tally<'_, R>,
) -> Result<(CheckReport<Global>, FileDisk<F>), Refused<'a, F>>
    ensures reported { IfOk result (λ r. InFile F.view (R.adopted rt.now) name.now (IsReportedBy Global r.0.text.items r.0.well)) }
    ensures refused { IfErr result (IsRefusedIn F.view (R.adopted rt.now) name.now (Reports (IsUnchecked Global))) }
    ensures calls { IfOk result (λ r. IsOnlyRead (calls_of r.1)) }
    ensures reading { IfErr result (IsReadRefused IsOfOpening name.now) }
{
    let disk = adopt_disk(rt, name)?;
    let counted = CountedDisk::new(disk, tally);
    match check_on(alloc, counted) {
        Ok((report, disk)) => Ok((report, disk.into_inner())),
        Err((fault, disk)) => Err(Refused::of_store(fault, disk.into_inner())),
    }
}
