//! The text of what is left of the register on a damaged disk.
ghost use Rattle.std.specs.Prelude.{◌≡◌, ◌⊎◌, ◌++◌, ◌≤◌, ◌<◌, ℕ, IfErr, IfOk, IfSome, IsErrOf, None, OnOk};
ghost use Rattle.std.specs.Io.KnownBytes.{Appends};
ghost use Rattle.sector_disk.specs.Disk.{HasFailed};
ghost use Rattle.sector_disk.specs.Reading.{before_reads};
ghost use Rattle.file_disk.specs.Disk.{calls_of};
ghost use Rattle.checkpoint.specs.Layout.{disk_size};
ghost use Rattle.recovery.specs.declared.fault.StoreFault.TheVariants.{DiskFault, NoMemory};
ghost use Rattle.recovery.specs.Checking.{IsDamagedAt, IsNoDamage};
ghost use Rattle.recovery.specs.Opening.{Fails};
ghost use Rattle.recovery.specs.Opens.{opens};
ghost use Rattle.recovery.specs.Rests.{HasLaterOnDisk, IsDiskRest};
ghost use Rattle.served_disk.specs.Calls.{IsOnlyRead, IsReadRefused, WasRead, WasReadAtMost};
ghost use Rattle.served_disk.specs.Dumping.{IsOfDiskDump, ReportsDump};
ghost use Rattle.served_disk.specs.Named.{InFile, IsRefusedIn};
ghost use Rattle.served_disk.specs.Rests.{HasNoRestText, IsOfRest, IsRestRefused, IsRestReportedOn, IsRestWritten, IsRestWrittenOn};
ghost use Rattle.served_disk.specs.Rests.{lacking_radios_text, lacking_stations_text, lacking_text, left_out_text};
ghost use Rattle.served_disk.specs.Rests.{line_of, line_of_found, stop_text, taken_text, without_damage};

use crate::checking::report_on;
use crate::dumping::dump;
use crate::opening::adopt_disk;
use crate::printing::{LinePart, print};
use crate::showing_figures::side_text;
use crate::{CheckReport, CountedDisk, DiskDumpFault, DiskFiles, Refused, Tally};
use checkpoint::Side;
use file_disk::{FileDisk, SectorFile};
use recovery::{Checked, LeftOut, Rest, StoreFault, check, read_rest};
use register_text::TextSink;
use sector_disk::Disk;
use std::alloc::{Allocator, Global};
use std::io;
use std::io::Write;
use std::rt::Clock;

/// What is reported of a register that is left on a disk.
#[derive(Drop)]
pub struct RestReport<A: Allocator> {
    /// The lines of a check, and one of what is left.
    pub text: Vec<u8, A>,
    /// Whether the disk opens, so that nothing is missing.
    pub whole: bool,
}

/// Writes the side that is left, its epoch, and how many commands its register has accepted.
#[tactic(auto, unfolding(crate::specs::Rests::taken_text))]
fn print_taken<W: Write>(out: &mut W, side: Side, epoch: u64, count: u64) -> io::Result<()>
    ensures { OnOk result (Appends (W.contents out.old) (W.contents out.new) (taken_text side epoch count)) }
{
    let parts = [
        LinePart::Text("rest side "),
        LinePart::Text(side_text(side)),
        LinePart::Text(" epoch "),
        LinePart::Number(epoch),
        LinePart::Text(" count "),
        LinePart::Number(count),
    ];
    print(out, &parts)
}

/// Writes how many rows of a kind are left out, after these words.
#[tactic(auto, unfolding(crate::specs::Rests::lacking_text))]
fn print_lacking<W: Write>(out: &mut W, words: &str, rows: u32) -> io::Result<()>
    ensures { OnOk result (Appends (W.contents out.old) (W.contents out.new) (lacking_text words.now rows)) }
{
    let parts = [LinePart::Text(words), LinePart::Number(u64::from(rows))];
    print(out, &parts)
}

/// Writes how many rules and radios are left out.
#[tactic(auto, unfolding(crate::specs::Rests::lacking_radios_text), using(std::proofs::Common::append_assoc))]
fn print_lacking_radios<W: Write>(out: &mut W, left_out: &LeftOut) -> io::Result<()>
    ensures { OnOk result (Appends (W.contents out.old) (W.contents out.new) (lacking_radios_text left_out.now)) }
{
    print_lacking(out, " lacks rules ", left_out.rules)?;
    print_lacking(out, " radios ", left_out.radios)
}

/// Writes how many items and stations are left out.
#[tactic(auto, unfolding(crate::specs::Rests::lacking_stations_text), using(std::proofs::Common::append_assoc))]
fn print_lacking_stations<W: Write>(out: &mut W, left_out: &LeftOut) -> io::Result<()>
    ensures { OnOk result (Appends (W.contents out.old) (W.contents out.new) (lacking_stations_text left_out.now)) }
{
    print_lacking(out, " items ", left_out.items)?;
    print_lacking(out, " stations ", left_out.stations)
}

/// Writes how many rows are left out.
#[tactic(auto, unfolding(crate::specs::Rests::left_out_text), using(std::proofs::Common::append_assoc))]
fn print_left_out<W: Write>(out: &mut W, left_out: &LeftOut) -> io::Result<()>
    ensures { OnOk result (Appends (W.contents out.old) (W.contents out.new) (left_out_text left_out.now)) }
{
    print_lacking_radios(out, left_out)?;
    print_lacking_stations(out, left_out)
}

/// Writes which records are not applied.
fn print_stop<W: Write>(out: &mut W, stop: Option<u64>, later: u64) -> io::Result<()>
    ensures { OnOk result (Appends (W.contents out.old) (W.contents out.new) (stop_text stop later)) }
{
    match stop {
        None => out.write_all(b" records none\n"),
        Some(sector) => {
            let parts = [
                LinePart::Text(" records from "),
                LinePart::Number(sector),
                LinePart::Text(" and "),
                LinePart::Number(later),
                LinePart::Text(" later\n"),
            ];
            print(out, &parts)
        }
    }
}

/// Writes the line of what is left.
#[tactic(auto, using(std::proofs::Common::append_assoc))]
fn print_rest<A: Allocator + Clone, W: Write>(out: &mut W, rest: &Rest<A>) -> io::Result<()>
    ensures { OnOk result (Appends (W.contents out.old) (W.contents out.new) (line_of rest.now)) }
{
    print_taken(out, rest.side, rest.epoch, rest.register.count())?;
    print_left_out(out, &rest.left_out)?;
    print_stop(out, rest.stop, rest.later)
}

/// Adds the line of what is left to the lines of a check.
fn add_rest<A: Allocator + Clone, B: Allocator>(
    text: &mut Vec<u8, B>,
    rest: &Option<Rest<A>>,
) -> Result<(), StoreFault>
    ensures added { OnOk result (text.new.items ≡ text.old.items ++ line_of_found rest.now) }
    ensures kinds { IfErr result (λ fault. fault ≡ NoMemory) }
{
    let printed = match rest {
        None => text.write_all(b"rest none\n"),
        Some(rest) => print_rest(text, rest),
    };
    match printed {
        Ok(()) => Ok(()),
        Err(_) => Err(StoreFault::NoMemory),
    }
}

/// What is left of a checked disk, and the report on it.
fn read_and_report<A: Allocator + Copy + Drop, D: Disk>(
    alloc: A,
    disk: &mut D,
    checked: &Checked,
) -> Result<(Option<Rest<A>>, RestReport<A>), StoreFault>
    requires room { disk_size checked.now.layout ≤ (D.view disk.old).sectors }
    requires on_disk { (at : ℕ) → IsDamagedAt at checked.now.a ⊎ IsDamagedAt at checked.now.b → at < (D.view disk.old).sectors }
    ensures reported { IfOk result (λ r. IsRestReportedOn A checked.now (line_of_found r.0) r.1.text.items r.1.whole (D.view disk.old)) }
    ensures left { IfOk result (λ r. (D.view disk.old).honest → IsDiskRest A (D.view disk.old).reads r.0) }
    ensures after { IfOk result (λ r. (D.view disk.old).honest → IfSome r.0 (HasLaterOnDisk A (D.view disk.old).reads)) }
    ensures faults { IfErr result (λ fault. (D.view disk.old).honest → Fails fault (opens A (D.view disk.old).reads)) }
    ensures kinds { IfErr result IsNoDamage }
    ensures only_reads { before_reads (D.view disk.new).calls ≡ before_reads (D.view disk.old).calls }
    ensures fault { IsErrOf result DiskFault → HasFailed (D.view disk.old) (D.view disk.new) }
{
    let CheckReport { mut text, .. } = report_on(alloc, disk, checked)?;
    let rest = read_rest(alloc, disk)?;
    match add_rest(&mut text, &rest) {
        Ok(()) => {
            let whole = checked.opened().is_ok();
            Ok((rest, RestReport { text, whole }))
        }
        Err(fault) => {
            drop(rest);
            Err(fault)
        }
    }
}

/// Writes the text of what is left on a checked disk, and makes the report.
fn write_rest<A: Allocator + Copy + Drop, D: Disk, W: TextSink>(
    alloc: A,
    disk: &mut D,
    checked: &Checked,
    out: &mut W,
) -> Result<RestReport<A>, DiskDumpFault>
    requires room { disk_size checked.now.layout ≤ (D.view disk.old).sectors }
    requires on_disk { (at : ℕ) → IsDamagedAt at checked.now.a ⊎ IsDamagedAt at checked.now.b → at < (D.view disk.old).sectors }
    ensures written { IfOk result (λ report. IsRestWrittenOn A W.contents W.took W.flushed out.old out.new checked.now report (D.view disk.old)) }
    ensures refused { IfErr result (IsRestRefused A W.took W.failed out.old out.new (Unit {0}) (D.view disk.old) (D.view disk.new)) }
    ensures only_reads { before_reads (D.view disk.new).calls ≡ before_reads (D.view disk.old).calls }
    ensures kinds { IfErr result IsOfRest }
{
    let (rest, report) = match read_and_report(alloc, disk, checked) {
        Ok(read) => read,
        Err(fault) => return Err(DiskDumpFault::Opening(fault)),
    };
    let Some(rest) = rest else {
        return Ok(report);
    };
    let written = dump(&alloc, &rest.register, out);
    drop(rest);
    match written {
        Ok(()) => Ok(report),
        Err(fault) => Err(DiskDumpFault::Writing(fault)),
    }
}

/// The fault that is reported where damage is no fault. Damage becomes `NoMemory`: a check answers damage only if memory ran out after it.
fn without_damage(fault: StoreFault) -> StoreFault
    ensures { result ≡ without_damage fault }
{
    match fault {
        StoreFault::Damaged(_) => StoreFault::NoMemory,
        other => other,
    }
}

/// Checks both sides of a disk, and writes the text of what is left of its register. The disk is synced once, and then only read. It
/// is returned, also after a fault.
///
/// # Errors
/// `Opening` if there is no layout on the disk, the device has failed, or memory ran out. Nothing is written then. Out of memory hides no
/// missing layout, and damage is no error. `Writing` only if the writer failed, or if memory ran out and the writer did not fail. A prefix
/// of the text is written then.
pub fn rest_on<A: Allocator + Copy + Drop, D: Disk, W: TextSink>(
    alloc: A,
    disk: D,
    out: &mut W,
) -> Result<(RestReport<A>, D), (DiskDumpFault, D)>
    ensures written { IfOk result (λ r. IsRestWritten A W.contents W.took W.flushed out.old out.new r.0 (D.view disk)) }
    ensures refused { IfErr result (λ e. HasNoRestText A W.took W.failed out.old out.new (D.view disk) (D.view e.1) e.0) }
    ensures calls { IfOk result (λ r. WasRead (D.view disk) (D.view r.1)) }
    ensures some_calls { IfErr result (λ e. WasReadAtMost (e.0 ≡ DiskDumpFault.Opening DiskFault) (D.view disk) (D.view e.1)) }
    ensures kinds { IfErr result (λ e. IsOfRest e.0) }
{
    let mut disk = disk;
    let checked = match check(alloc, &mut disk) {
        Ok(checked) => checked,
        Err(fault) => return Err((DiskDumpFault::Opening(without_damage(fault)), disk)),
    };
    match write_rest(alloc, &mut disk, &checked, out) {
        Ok(report) => Ok((report, disk)),
        Err(fault) => Err((fault, disk)),
    }
}

/// Checks both sides of the disk in the file of this name, and writes the text of what is left of its register. The disk is synced once,
/// and then only read. It is returned. `tally` counts the sectors that are read.
///
/// # Errors
/// Those of `open_disk` but `Damaged`; `Memory` may hide damage. `File` with `-` only if the writer failed, and `Memory` only if the writer
/// did not fail. If no disk comes back, nothing is written.
pub fn rest_disk<'a, F: SectorFile, R: DiskFiles<F> + Clock + Eprint, W: TextSink>(
    rt: &R,
    alloc: Global,
    name: &'a str,
    tally: &Tally<'_, R>,
    out: &mut W,
) -> Result<(RestReport<Global>, FileDisk<F>), Refused<'a, F>>
    ensures written { IfOk result (λ r. InFile F.view (R.adopted rt.now) name.now (IsRestWritten Global W.contents W.took W.flushed out.old out.new r.0)) }
    ensures refused { IfErr result (IsRefusedIn F.view (R.adopted rt.now) name.now (ReportsDump (HasNoRestText Global W.took W.failed out.old out.new))) }
    ensures calls { IfOk result (λ r. IsOnlyRead (calls_of r.1)) }
    ensures reading { IfErr result (IsReadRefused IsOfDiskDump name.now) }

    // Nothing is written if the file gives no disk.
    ensures untouched { IfErr result (λ e. e.disk ≡ None → out.new ≡ out.old) }
{
    let disk = adopt_disk(rt, name)?;
    let counted = CountedDisk::new(disk, tally);
    match rest_on(alloc, counted, out) {
        Ok((report, disk)) => Ok((report, disk.into_inner())),
        Err((fault, disk)) => Err(Refused::of_dump(fault, disk.into_inner())),
    }
}
