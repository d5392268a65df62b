//! What a service reports on standard error as it goes on.
ghost use Rattle.std.specs.Prelude.{◌≡◌, OnOk};
ghost use Rattle.std.specs.Io.KnownBytes.{Appends};
ghost use Rattle.served_disk.specs.Notices.{ended_text, notice_text, serving_text, started_text, stations_word};

use crate::Fault;
use crate::printing::{LinePart, print};
use std::alloc::Global;
use std::io::Write;
use std::{io, str};

/// What a service reports. All but a fault is reported only if a log is wanted.
#[derive(Clone, Copy)]
pub(crate) enum Notice<'a> {
    /// A station's run, or the device, has failed.
    Fault(Fault<'a>),
    /// So many stations are served, over a register that has accepted so many commands.
    Serving {
        stations: u64,
        count: u64,
    },
    /// The files of this station are open, and its lines are served.
    Started {
        station: u64,
        input: &'a str,
        output: &'a str,
    },
    /// The run of this station has ended.
    Ended {
        station: u64,
    },
}

impl<'a> Notice<'a> {
    /// Writes the line of the notice; of a fault, also that of its cause.
    pub(crate) fn print<W: Write>(&self, out: &mut W) -> io::Result<()>
        ensures { OnOk result (Appends (W.contents out.old) (W.contents out.new) (notice_text self.now)) }
    {
        match self {
            Notice::Fault(fault) => fault.print(out),
            Notice::Serving { stations, count } => print_serving(out, *stations, *count),
            Notice::Started {
                station,
                input,
                output,
            } => print_started(out, *station, input, output),
            Notice::Ended { station } => print_ended(out, *station),
        }
    }

    /// Writes the notice to standard error, by one write if its text is no longer than 1,024 bytes (tested). `None` if that failed, or if
    /// memory ran out.
    pub(crate) fn report<R: Eprint>(&self, rt: &R, alloc: Global) -> Option<()> {
        let mut line = Vec::new(alloc);
        self.print(&mut line).ok()?;
        let text = str::from_utf8(&line).ok()?;
        eprint!(rt; "{text}").ok()
    }
}

/// The words after the number of stations.
fn stations_word(number: u64) -> &'static str
    ensures { result.now ≡ stations_word number }
{
    if number == 1 {
        " station, count "
    } else {
        " stations, count "
    }
}

fn print_serving<W: Write>(out: &mut W, stations: u64, count: u64) -> io::Result<()>
    ensures { OnOk result (Appends (W.contents out.old) (W.contents out.new) (serving_text stations count)) }
{
    let parts = [
        LinePart::Text("serving "),
        LinePart::Number(stations),
        LinePart::Text(stations_word(stations)),
        LinePart::Number(count),
        LinePart::Text("\n"),
    ];
    print(out, &parts)
}

fn print_started<'x, W: Write>(
    out: &mut W,
    station: u64,
    input: &'x str,
    output: &'x str,
) -> io::Result<()>
    ensures { OnOk result (Appends (W.contents out.old) (W.contents out.new) (started_text station input.now output.now)) }
{
    let parts = [
        LinePart::Text("station "),
        LinePart::Number(station),
        LinePart::Text(" serves "),
        LinePart::Text(input),
        LinePart::Text(" "),
        LinePart::Text(output),
        LinePart::Text("\n"),
    ];
    print(out, &parts)
}

fn print_ended<W: Write>(out: &mut W, station: u64) -> io::Result<()>
    ensures { OnOk result (Appends (W.contents out.old) (W.contents out.new) (ended_text station)) }
{
    let parts = [
        LinePart::Text("station "),
        LinePart::Number(station),
        LinePart::Text(" ended\n"),
    ];
    print(out, &parts)
}
