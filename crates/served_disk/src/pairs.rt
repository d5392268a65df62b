//! The pairs of files of a service: what a station's lines are read from, and what its answers are written to.
ghost use Rattle.std.specs.Prelude.{◌≡◌, ◌++◌, ◌∷◌, [], codes, false, is_err, not, true, IfOk, IfErr, None, Ok, OnErr, OnOk, length};
ghost use Rattle.std.specs.List.{AllZip};
ghost use Rattle.std.specs.Io.{ReadsAtMost, WritesAtMost};
ghost use Rattle.std.specs.Io.KnownBytes.{ReadConsumes};
ghost use Rattle.settings.specs.Naming.{texts};
ghost use Rattle.served_disk.specs.Faults.{OrMemory};
ghost use Rattle.served_disk.specs.Files.{has_half, inputs_in, is_half_left_out, is_left_out};
ghost use Rattle.served_disk.specs.Pairs.{AreNamesBy, AreNamesOf, AreStreams, IsOpening, IsPairOf, IsPortOf, known_by, leaves_out, numbered};
ghost use Rattle.served_disk.specs.declared.fault.Fault.TheVariants.{HalfLeftOut, Memory};
ghost use Rattle.served_disk.specs.declared.notice.Notice.TheVariants.{Started};
ghost use Rattle.served_disk.specs.declared.pairs.Pair.{Pair};

use crate::notice::Notice;
use crate::{Fault, PortNames, StationFiles};
use stations::Port;
use std::alloc::Global;
use std::fs::File;
use std::io;
use std::io::{ErrorKind, Read, Write};
use std::sync::{Mutex, Wait};

/// The files of a pair, as far as they are open.
#[derive(Drop)]
struct OpenFiles {
    /// Whether IN was opened, but OUT could not be.
    lacks_output: bool,
    input: Option<File>,
    output: Option<File>,
}

impl OpenFiles {
    /// Opens IN of this pair, and then OUT.
    fn open<F: StationFiles>(&mut self, files: &F, pair: &Pair<'_>)
        ensures { IsOpening (F.opened files.now) (F.appended files.now) pair.now self.old self.new }
    {
        let Ok(input) = files.open_input(pair.input) else {
            return;
        };
        match files.open_output(pair.output) {
            Ok(output) => {
                self.input = Some(input);
                self.output = Some(output);
            }
            Err(_) => self.lacks_output = true,
        }
    }

    fn read(&mut self, buffer: &mut [u8]) -> io::Result<usize>
        ensures bytes { ReadsAtMost result buffer.new }
        ensures closed { self.old.input ≡ None → is_err result ≡ true }
        ensures output { self.new.output ≡ self.old.output }
        ensures lacks { self.new.lacks_output ≡ self.old.lacks_output }
    {
        match &mut self.input {
            Some(file) => file.read(buffer),
            None => Err(io::Error::from(ErrorKind::NotFound)),
        }
    }

    fn write(&mut self, bytes: &[u8]) -> io::Result<usize>
        ensures bytes { WritesAtMost result bytes.now }
        ensures closed { self.old.output ≡ None → is_err result ≡ true }
        ensures input { self.new.input ≡ self.old.input }
        ensures lacks { self.new.lacks_output ≡ self.old.lacks_output }
    {
        match &mut self.output {
            Some(file) => file.write(bytes),
            None => Err(io::Error::from(ErrorKind::NotFound)),
        }
    }

    fn close(&mut self)
        ensures input { self.new.input ≡ None }
        ensures output { self.new.output ≡ None }
        ensures same { self.new.lacks_output ≡ self.old.lacks_output }
    {
        self.input = None;
        self.output = None;
    }
}

/// Whether the station of this IN and OUT is left out: it has no lines and no answers.
fn is_left_out(input: &str, output: &str) -> bool
    ensures { result ≡ is_left_out input.now output.now }
{
    input == "-" && output == "-"
}

/// Whether only one of this IN and OUT is `-`.
fn is_half_left_out(input: &str, output: &str) -> bool
    ensures { result ≡ is_half_left_out input.now output.now }
{
    (input == "-" || output == "-") && !is_left_out(input, output)
}

/// The files IN and OUT of a station. Its reader opens both before its first line, unless the station is left out. Only the station's
/// thread uses them until that thread has ended, so nobody waits for the lock.
#[derive(Drop)]
pub struct Pair<'a> {
    input: &'a str,
    output: &'a str,
    /// Whether the station has lines: it is not left out.
    is_served: bool,
    files: Mutex<OpenFiles>,
}

impl<'a> Pair<'a> {
    /// The files of these names, not opened yet.
    pub fn new(input: &'a str, output: &'a str) -> Pair<'a>
        ensures { IsPairOf (input.entry, output.entry) result }
    {
        Pair::of_names(input, output, !is_left_out(input, output))
    }

    /// The standard streams, which faults name `-`. They are open. No `PairReader` reads such a pair: by these names the reader would end
    /// at once.
    pub fn of_streams() -> Pair<'a>
        ensures { AreStreams result }
    {
        Pair::of_names("-", "-", true)
    }

    fn of_names(input: &'a str, output: &'a str, is_served: bool) -> Pair<'a>
        ensures input { result.input.now ≡ input.now }
        ensures output { result.output.now ≡ output.now }
        ensures served { result.is_served ≡ is_served }
    {
        Pair {
            input,
            output,
            is_served,
            files: Mutex::new(OpenFiles {
                lacks_output: false,
                input: None,
                output: None,
            }),
        }
    }

    /// Whether the station has lines.
    pub(crate) fn is_served(&self) -> bool
        ensures { result ≡ self.now.is_served }
    {
        self.is_served
    }

    /// The notice that the lines of this station are served.
    pub(crate) fn start_notice(&self, station: u64) -> Notice<'a>
        ensures { result ≡ Started station self.now.input self.now.output }
    {
        Notice::Started {
            station,
            input: self.input,
            output: self.output,
        }
    }

    /// The files that faults of the station's run name. If OUT could not be opened, a fault of reading names OUT, else IN. The clause says
    /// only that it names one of the two.
    pub fn names<R: Wait>(&self, rt: &R) -> PortNames<'a>
        ensures { AreNamesOf self.now result }
    {
        let lacks_output = self.files.lock(rt).lacks_output;
        self.names_by(lacks_output)
    }

    /// The files that faults of the station's run name, by whether OUT could not be opened.
    fn names_by(&self, lacks_output: bool) -> PortNames<'a>
        ensures { AreNamesBy lacks_output self.now result }
    {
        PortNames {
            input: if lacks_output {
                self.output
            } else {
                self.input
            },
            output: Some(self.output),
        }
    }

    /// Opens both files. Returns whether both are open.
    fn open<R: Wait>(&self, rt: &R, host: HostRuntime) -> bool {
        let mut guard = self.files.lock(rt);
        let files = &mut *guard;
        files.open(&host, self);
        files.input.is_some()
    }

    /// Reads from IN.
    fn read<R: Wait>(&self, rt: &R, buffer: &mut [u8]) -> io::Result<usize>
        ensures { ReadsAtMost result buffer.new }
    {
        let mut guard = self.files.lock(rt);
        guard.read(buffer)
    }

    /// Writes to OUT.
    fn write<R: Wait>(&self, rt: &R, bytes: &[u8]) -> io::Result<usize>
        ensures { WritesAtMost result bytes.now }
    {
        let mut guard = self.files.lock(rt);
        guard.write(bytes)
    }

    /// Closes both files.
    pub(crate) fn close<R: Wait>(&self, rt: &R) {
        let mut guard = self.files.lock(rt);
        guard.close();
    }
}

/// Reads from IN of a pair. Of a station that is left out there is nothing to read.
#[derive(Drop)]
pub struct PairReader<'p, 'a, R> {
    rt: &'p R,
    /// What opens the files.
    host: HostRuntime,
    pair: &'p Pair<'a>,
    /// The station's number.
    station: u64,
    /// Whether it is reported that the station's lines are served.
    log: bool,
    /// Whether the pair was opened.
    is_begun: bool,
}

impl<'p, 'a, R: Eprint + Wait> PairReader<'p, 'a, R> {
    /// Opens the pair, and reports that if a log is wanted. A report that fails changes nothing.
    fn begin(&self) {
        let is_open = self.pair.open(self.rt, self.host);
        if is_open && self.log {
            let _ = self
                .pair
                .start_notice(self.station)
                .report(self.rt, self.host.alloc());
        }
    }
}

impl<'p, 'a, R: Eprint + Wait> Read for PairReader<'p, 'a, R> {
    ghost remaining = { λ reader. known_by reader.pair.now };

    fn read(&mut self, buffer: &mut [u8]) -> io::Result<usize>
        ensures bound { ReadsAtMost result buffer.new }
        ensures bytes { ReadConsumes (known_by self.old.pair.now) (known_by self.new.pair.now) result buffer.new }

        // Of a station that is left out there is nothing to read. The reader of any other one has begun; that it opened its pair is tested.
        ensures left_out { leaves_out self.old.pair.now ≡ true → result ≡ Ok 0 }
        ensures begun { leaves_out self.old.pair.now ≡ false → self.new.is_begun ≡ true }
    {
        if is_left_out(self.pair.input, self.pair.output) {
            return Ok(0);
        }
        if !self.is_begun {
            self.is_begun = true;
            self.begin();
        }
        self.pair.read(self.rt, buffer)
    }
}

/// Writes to OUT of a pair, which its reader has opened. Of a station that is left out nothing is written.
#[derive(Drop)]
pub struct PairWriter<'p, 'a, R> {
    rt: &'p R,
    pair: &'p Pair<'a>,
}

impl<'p, 'a, R: Wait> Write for PairWriter<'p, 'a, R> {
    ghost contents = { λ writer. known_by writer.pair.now };

    fn write(&mut self, bytes: &[u8]) -> io::Result<usize> {
        if is_left_out(self.pair.input, self.pair.output) {
            return Err(io::Error::from(ErrorKind::NotFound));
        }
        self.pair.write(self.rt, bytes)
    }

    fn flush(&mut self) -> io::Result<()> {
        Ok(())
    }
}

/// The port of a station that is served by a pair.
pub type PairPort<'p, 'a, R> = Port<PairReader<'p, 'a, R>, PairWriter<'p, 'a, R>>;

/// The pairs of stations 1, 2 and so on. Nothing is opened.
///
/// # Errors
/// `Memory`.
pub fn pairs_of<'a>(alloc: Global, named: &[(&'a str, &'a str)]) -> Result<Vec<Pair<'a>>, Fault<'a>>
    ensures named { OrMemory result (λ pairs. AllZip IsPairOf named.now pairs.items) }
    ensures all { IfOk result (λ pairs. length pairs.items ≡ length named.now) }
{
    let Ok(mut pairs) = Vec::with_capacity(alloc, named.len()) else {
        return Err(Fault::Memory);
    };
    for (input, output) in named {
        pairs.push_reserved(Pair::new(input, output));
    }
    Ok(pairs)
}

/// The pair of standard input and standard output, as station 1's.
///
/// # Errors
/// `Memory`.
pub fn stream_pair<'a>(alloc: Global) -> Result<Vec<Pair<'a>>, Fault<'a>>
    ensures streams { OrMemory result (λ pairs. (pair : Pair) × (pairs.items ≡ pair ∷ []) × AreStreams pair) }
    ensures all { IfOk result (λ pairs. length pairs.items ≡ 1) }
{
    let Ok(mut pairs) = Vec::with_capacity(alloc, 1) else {
        return Err(Fault::Memory);
    };
    pairs.push_reserved(Pair::of_streams());
    Ok(pairs)
}

/// The names of IN of the stations that are not left out, in order.
///
/// # Errors
/// `Memory`.
pub fn inputs_of<'a>(alloc: Global, named: &[(&'a str, &'a str)]) -> Result<Vec<&'a str>, Fault<'a>>
    ensures { OrMemory result (λ inputs. texts inputs.items ≡ inputs_in named.now) }
{
    let mut inputs = Vec::new(alloc);
    for index in 0..named.len() {
        push_input(&mut inputs, named[index])?;
    }
    Ok(inputs)
}

/// Adds the name of IN, unless the station is left out.
fn push_input<'a>(inputs: &mut Vec<&'a str>, pair: (&'a str, &'a str)) -> Result<(), Fault<'a>>
    ensures added { OnOk result (texts inputs.new.items ≡ texts inputs.old.items ++ inputs_in (pair.entry ∷ [])) }
    ensures refused { IfErr result (λ fault. fault ≡ Memory) }
{
    if is_left_out(pair.0, pair.1) {
        return Ok(());
    }
    match inputs.push(pair.0) {
        Ok(()) => Ok(()),
        Err(_) => Err(Fault::Memory),
    }
}

/// Whether a station has `-` for only one of IN and OUT.
fn any_half(named: &[(&str, &str)]) -> bool
    ensures { result ≡ has_half named.now }
{
    named.iter().any(|pair| is_half_left_out(pair.0, pair.1))
}

/// Checks that no station has `-` for only one of IN and OUT.
///
/// # Errors
/// `HalfLeftOut`, exactly if one has.
pub fn check_pairs<'a>(named: &[(&'a str, &'a str)]) -> Result<(), Fault<'a>>
    ensures whole { OnOk result (has_half named.now ≡ false) }
    ensures half { OnErr result (has_half named.now ≡ true) }
    ensures refused { IfErr result (λ fault. fault ≡ HalfLeftOut) }
{
    if any_half(named) {
        Err(Fault::HalfLeftOut)
    } else {
        Ok(())
    }
}

/// The ports of stations 1, 2 and so on. With a log each reports when its files are open.
///
/// # Errors
/// `Memory`.
pub fn ports_of<'p, 'a, R: Eprint + Wait>(
    rt: &'p R,
    host: HostRuntime,
    pairs: &'p [Pair<'a>],
    log: bool,
) -> Result<Vec<PairPort<'p, 'a, R>>, Fault<'a>>
    ensures ports { OrMemory result (λ ports. AllZip (IsPortOf log) (numbered pairs.now) ports.items) }
    ensures all { IfOk result (λ ports. length ports.items ≡ length pairs.now) }
{
    let Ok(mut ports) = Vec::with_capacity(host.alloc(), pairs.len()) else {
        return Err(Fault::Memory);
    };
    for index in 0..pairs.len() {
        let pair = &pairs[index];
        ports.push_reserved(Port {
            reader: PairReader {
                rt,
                host,
                pair,
                station: index as u64 + 1,
                log,
                is_begun: false,
            },
            writer: PairWriter { rt, pair },
        });
    }
    Ok(ports)
}

/// The files that faults of these stations name, in order.
///
/// # Errors
/// `Memory`.
pub fn names_of<'a, R: Wait>(
    rt: &R,
    alloc: Global,
    pairs: &[Pair<'a>],
) -> Result<Vec<PortNames<'a>>, Fault<'a>>
    ensures names { OrMemory result (λ names. AllZip AreNamesOf pairs.now names.items) }
    ensures all { IfOk result (λ names. length names.items ≡ length pairs.now) }
{
    let Ok(mut names) = Vec::with_capacity(alloc, pairs.len()) else {
        return Err(Fault::Memory);
    };
    for pair in pairs {
        names.push_reserved(pair.names(rt));
    }
    Ok(names)
}

/// Writes the files that faults of these stations name into `names` again, once the stations have ended: by then it is known
/// whose OUT could not be opened.
pub fn name_ended<'a, R: Wait>(rt: &R, names: &mut [PortNames<'a>], pairs: &[Pair<'a>])
    requires { length names.old ≡ length pairs.now }
    ensures names { AllZip AreNamesOf pairs.now names.new }
    ensures all { length names.new ≡ length names.old }
{
    for index in 0..pairs.len() {
        names[index] = pairs[index].names(rt);
    }
}
