//! How the runs of stations have ended.
ghost use Rattle.std.specs.Prelude.{◌≡◌, ◌≤◌, Err, MatchBool, OnOk, length};
ghost use Rattle.std.specs.Io.KnownBytes.{Appends};
ghost use Rattle.served_disk.specs.declared.fault.Fault.TheVariants.{Device};
ghost use Rattle.served_disk.specs.Stations.{HasEnded, HasServiceEnded, HaveEnded, end_status, stations_text};

use crate::{Fault, PortNames, print_station};
use console::{Ran, RunFault};
use registration::Station;
use stations::StationRun;
use std::io;
use std::io::Write;

/// The most calls of a reader. A text that has no end by then is refused.
pub const TURNS: u32 = u32::MAX;

/// How the runs of stations have ended.
#[derive(Drop)]
pub struct Served<D, I, O: Drop> {
    /// The disk, as the last call of the store left it.
    pub disk: D,
    /// The run of each station, in order.
    pub runs: Vec<StationRun<I, O>>,
    /// Whether the disk failed.
    pub is_broken: bool,
}

/// Writes the answers of stations 1, 2 and so on, each after its number and the name of its file.
pub fn print_stations<I, W: Write>(
    out: &mut W,
    names: &[PortNames<'_>],
    runs: &[StationRun<I, Vec<u8>>],
) -> io::Result<()>
    requires same { length names.now ≡ length runs.now }
    requires few { length runs.now ≤ 64 }
    ensures { OnOk result (Appends (W.contents out.old) (W.contents out.new) (stations_text names.now runs.now)) }
{
    for index in 0..runs.len() {
        let station = Station::new(index as u16 + 1);
        print_station(out, station, names[index].input, &runs[index].writer)?;
    }
    Ok(())
}

/// How the run of a station with these files has ended: whether an answer reported trouble, or the fault.
pub(crate) fn end_of<'a>(
    names: &PortNames<'a>,
    ended: &Result<Ran, RunFault>,
) -> Result<bool, Fault<'a>>
    ensures { HasEnded names.now ended.now result }
{
    match ended {
        Ok(ran) => Ok(ran.troubled),
        Err(fault) => Err(Fault::of_run(*fault, names)),
    }
}

/// How all runs have ended: the first fault, in order of station; else whether an answer reported trouble.
fn end_of_runs<'a, I, O: Drop>(
    names: &[PortNames<'a>],
    runs: &[StationRun<I, O>],
) -> Result<bool, Fault<'a>>
    requires same { length names.now ≡ length runs.now }
    ensures { HaveEnded names.now runs.now result }
{
    let mut troubled = false;
    for index in 0..runs.len() {
        troubled |= end_of(&names[index], &runs[index].ran)?;
    }
    Ok(troubled)
}

/// How a run of stations has ended: `Device` if the disk failed; else the first fault, in order of station; else whether an answer
/// reported trouble.
pub fn outcome<'a, D, I, O: Drop>(
    names: &[PortNames<'a>],
    served: &Served<D, I, O>,
) -> Result<bool, Fault<'a>>
    requires same { length names.now ≡ length served.now.runs.items }
    ensures { MatchBool served.now.is_broken (result ≡ Err Device) (HaveEnded names.now served.now.runs.items result) }
{
    if served.is_broken {
        return Err(Fault::Device);
    }
    end_of_runs(names, &served.runs)
}

/// The exit status of stations that have ended with this result: that of the fault; else 1 if an answer reported trouble, or 0.
fn end_status(ended: &Result<bool, Fault<'_>>) -> u8
    ensures { result ≡ end_status ended.now }
{
    match ended {
        Ok(troubled) => u8::from(*troubled),
        Err(fault) => fault.status(),
    }
}

/// The result of a service whose stations have reported their faults: `Device` if the disk failed; else the exit status of the first
/// fault, in order of station; else 1 if an answer reported trouble, or 0.
pub fn service_outcome<'a, D, I, O: Drop>(
    names: &[PortNames<'a>],
    served: &Served<D, I, O>,
) -> Result<u8, Fault<'a>>
    requires same { length names.now ≡ length served.now.runs.items }
    ensures { MatchBool served.now.is_broken (result ≡ Err Device) (HasServiceEnded names.now served.now.runs.items result) }
{
    if !served.is_broken {
        return Ok(end_status(&end_of_runs(names, &served.runs)));
    }
    Err(Fault::Device)
}
