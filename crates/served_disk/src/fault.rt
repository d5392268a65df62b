//! Why the program did not do what it was asked.
ghost use Rattle.std.specs.Prelude.{◌≡◌, ◌++◌, OnOk, codes, decimal};
ghost use Rattle.std.specs.Io.KnownBytes.{Appends};
ghost use Rattle.served_disk.specs.Faults.{IsOfFile, IsOfRun, fault_status, fault_text, of_settings, of_store, open_cause_text};
ghost use Rattle.served_disk.specs.Faults.{IsOfDump, IsOfLoad, dump_cause_text, dump_line_number_text, dump_line_text, named_text};

use crate::printing::{LinePart, print};
use crate::{DiskDumpFault, PortNames};
use console::RunFault;
use file_disk::{FileFault, OpenCause};
use recovery::StoreFault;
use register_text::{Cause, DumpFault, LoadFault};
use settings::SettingsFault;
use std::io;
use std::io::Write;

/// Why the program did not do what it was asked.
#[derive(Clone, Copy, Debug, PartialEq, Eq)]
pub enum Fault<'a> {
    /// The settings are not the five numbers in TOML.
    Settings,
    /// The file of this name can't be opened, made, read or written, for this cause. A call of an open file has the cause `Other`.
    File(&'a str, OpenCause),
    /// The disk has no label.
    Unformatted,
    /// The settings, or the disk's label, state numbers out of range, or the disk has too few sectors.
    BadGeometry,
    /// The sector of this number does not hold what it must.
    Damaged(u64),
    /// The device failed.
    Device,
    /// Memory ran out.
    Memory,
    /// The register's image has the last epoch, so no checkpoint can follow.
    Epochs,
    /// The file of this name is named twice for a run.
    Twice(&'a str),
    /// The run has more files than the register has stations.
    TooMany,
    /// The station of this number may give orders, but is not served.
    NotServed(u16),
    /// Only one of IN and OUT of a station is `-`.
    HalfLeftOut,
    /// The line of this number of a dump can't be taken.
    DumpLine(u64, Cause),
    /// The dump is cut before the end of the line of this number.
    DumpCut(u64),
}

impl<'a> Fault<'a> {
    /// Why there are no settings.
    pub fn of_settings(fault: SettingsFault) -> Fault<'a>
        ensures { result ≡ of_settings fault }
    {
        match fault {
            SettingsFault::BadSettings => Fault::Settings,
            SettingsFault::NoMemory => Fault::Memory,
        }
    }

    /// Why the file of this name is no disk.
    pub fn of_file(fault: FileFault, name: &'a str) -> Fault<'a>
        ensures { IsOfFile fault name.now result }
    {
        match fault {
            FileFault::NotOpened(cause) => Fault::File(name, cause),
            FileFault::DiskFault => Fault::Device,
            FileFault::NoMemory => Fault::Memory,
            FileFault::KeepsNothing => Fault::Unformatted,
        }
    }

    /// Why a disk gives no register, or is not made ready for one. Opening and formatting never return `Broken`, `EpochsUsedUp` or
    /// `Unready`: only calls on a store do.
    pub fn of_store(fault: StoreFault) -> Fault<'a>
        ensures { result ≡ of_store fault }
    {
        match fault {
            StoreFault::Unformatted => Fault::Unformatted,
            StoreFault::BadGeometry => Fault::BadGeometry,
            StoreFault::Damaged(sector) => Fault::Damaged(sector),
            StoreFault::DiskFault | StoreFault::Broken | StoreFault::Unready => Fault::Device,
            StoreFault::NoMemory => Fault::Memory,
            StoreFault::EpochsUsedUp => Fault::Epochs,
        }
    }

    /// Why the register on a disk was not printed as text.
    pub fn of_dump(fault: DiskDumpFault) -> Fault<'a>
        ensures { IsOfDump fault result }
    {
        match fault {
            DiskDumpFault::Opening(fault) => Fault::of_store(fault),
            DiskDumpFault::Writing(DumpFault::Memory) => Fault::Memory,
            DiskDumpFault::Writing(DumpFault::Write) => Fault::File("-", OpenCause::Other),
        }
    }

    /// Why the dump in the file of this name was not loaded.
    pub fn of_load(fault: LoadFault, name: &'a str) -> Fault<'a>
        ensures { IsOfLoad fault name.now result }
    {
        match fault {
            LoadFault::Memory => Fault::Memory,
            LoadFault::Read => Fault::File(name, OpenCause::Other),
            LoadFault::Line(line, cause) => Fault::DumpLine(line, cause),
            LoadFault::Cut(line) => Fault::DumpCut(line),
        }
    }

    /// Why the lines of a station with these files were not all answered. If the answers wait in memory, a failed write ran out
    /// of memory.
    pub fn of_run(fault: RunFault, names: &PortNames<'a>) -> Fault<'a>
        ensures { IsOfRun fault names.now result }
    {
        match (fault, names.output) {
            (RunFault::Read, _) => Fault::File(names.input, OpenCause::Other),
            (RunFault::Write, Some(output)) => Fault::File(output, OpenCause::Other),
            (RunFault::Write, None) | (RunFault::NoMemory, _) => Fault::Memory,
        }
    }

    /// The exit status: 2 for files and orders that no run may have, 3 for settings and a dump, 4 for a file; 5 for what is on a disk, for
    /// the device and for memory.
    pub fn status(&self) -> u8
        ensures { result ≡ fault_status self.now }
    {
        match self {
            Fault::Twice(_) | Fault::TooMany | Fault::NotServed(_) | Fault::HalfLeftOut => 2,
            Fault::Settings | Fault::DumpLine(..) | Fault::DumpCut(_) => 3,
            Fault::File(..) => 4,
            _ => 5,
        }
    }

    /// Writes the line of the fault. For a file, the line of the cause follows, if the cause is not `Other`.
    pub fn print<W: Write>(&self, out: &mut W) -> io::Result<()>
        ensures { OnOk result (Appends (W.contents out.old) (W.contents out.new) (fault_text self.now)) }
    {
        match self {
            Fault::Settings => print(out, &[LinePart::Text("fault: settings\n")]),
            Fault::File(name, cause) => print_file(out, name, *cause),
            Fault::Unformatted => print(out, &[LinePart::Text("fault: unformatted\n")]),
            Fault::BadGeometry => print(out, &[LinePart::Text("fault: bad geometry\n")]),
            Fault::Damaged(sector) => print_damaged(out, *sector),
            Fault::Device => print(out, &[LinePart::Text("fault: device\n")]),
            Fault::Memory => print(out, &[LinePart::Text("fault: memory\n")]),
            Fault::Epochs => print(out, &[LinePart::Text("fault: epochs\n")]),
            Fault::Twice(name) => print_twice(out, name),
            Fault::TooMany => print(out, &[LinePart::Text("fault: more files than stations\n")]),
            Fault::NotServed(station) => print_not_served(out, *station),
            Fault::HalfLeftOut => print(
                out,
                &[LinePart::Text("fault: only one of IN and OUT is -\n")],
            ),
            Fault::DumpLine(line, cause) => print_dump_line(out, *line, dump_cause_text(*cause)),
            Fault::DumpCut(line) => print_dump_line(out, *line, "cut"),
        }
    }
}

fn print_named<W: Write>(out: &mut W, name: &str) -> io::Result<()>
    ensures { OnOk result (Appends (W.contents out.old) (W.contents out.new) (named_text name.now)) }
{
    let parts = [
        LinePart::Text("fault: file "),
        LinePart::Text(name),
        LinePart::Text("\n"),
    ];
    print(out, &parts)
}

fn print_cause<W: Write>(out: &mut W, cause: OpenCause) -> io::Result<()>
    ensures { OnOk result (Appends (W.contents out.old) (W.contents out.new) (open_cause_text cause)) }
{
    out.write_all(cause_line(cause).as_bytes())
}

fn print_file<W: Write>(out: &mut W, name: &str, cause: OpenCause) -> io::Result<()>
    ensures { OnOk result (Appends (W.contents out.old) (W.contents out.new) (named_text name.now ++ open_cause_text cause)) }
{
    print_named(out, name)?;
    print_cause(out, cause)
}

/// The line of a cause, and no text for `Other`.
fn cause_line(cause: OpenCause) -> &'static str
    ensures { result.now ≡ open_cause_text cause }
{
    match cause {
        OpenCause::Held => "cause: held by another process\n",
        OpenCause::Exists => "cause: exists\n",
        OpenCause::Missing => "cause: no such file\n",
        OpenCause::NotAllowed => "cause: not allowed\n",
        OpenCause::NotAFile => "cause: not a file\n",
        OpenCause::NoSpace => "cause: no space\n",
        OpenCause::Other => "",
    }
}

fn print_twice<W: Write>(out: &mut W, name: &str) -> io::Result<()>
    ensures { OnOk result (Appends (W.contents out.old) (W.contents out.new) (codes "fault: " ++ name.now ++ codes " is named twice\n")) }
{
    let parts = [
        LinePart::Text("fault: "),
        LinePart::Text(name),
        LinePart::Text(" is named twice\n"),
    ];
    print(out, &parts)
}

fn print_not_served<W: Write>(out: &mut W, station: u16) -> io::Result<()>
    ensures { OnOk result (Appends (W.contents out.old) (W.contents out.new)
        (codes "fault: station " ++ decimal station ++ codes " of --orders is not served\n")) }
{
    let parts = [
        LinePart::Text("fault: station "),
        LinePart::Number(u64::from(station)),
        LinePart::Text(" of --orders is not served\n"),
    ];
    print(out, &parts)
}

fn print_damaged<W: Write>(out: &mut W, sector: u64) -> io::Result<()>
    ensures { OnOk result (Appends (W.contents out.old) (W.contents out.new) (codes "fault: damaged sector " ++ decimal sector ++ codes "\n")) }
{
    let parts = [
        LinePart::Text("fault: damaged sector "),
        LinePart::Number(sector),
        LinePart::Text("\n"),
    ];
    print(out, &parts)
}

/// What is wrong with a line of a dump.
fn dump_cause_text(cause: Cause) -> &'static str
    ensures { result.now ≡ dump_cause_text cause }
{
    match cause {
        Cause::Head => "first line",
        Cause::Spelling => "spelling",
        Cause::Place => "place",
    }
}

fn print_dump_line_number<W: Write>(out: &mut W, line: u64) -> io::Result<()>
    ensures { OnOk result (Appends (W.contents out.old) (W.contents out.new) (dump_line_number_text line)) }
{
    let parts = [
        LinePart::Text("fault: dump line "),
        LinePart::Number(line),
        LinePart::Text(": "),
    ];
    print(out, &parts)
}

fn print_dump_line<W: Write>(out: &mut W, line: u64, what: &str) -> io::Result<()>
    ensures { OnOk result (Appends (W.contents out.old) (W.contents out.new) (dump_line_text line what.now)) }
{
    print_dump_line_number(out, line)?;
    print(out, &[LinePart::Text(what), LinePart::Text("\n")])
}
