//! The answer to the query `service`: the figures of a running service, a line each. Each `put_` adds its text.
ghost use Rattle.std.specs.Prelude.{◌≡◌, ◌≤◌, ◌+◌, ◌++◌, List, OnOk, codes, decimal, length, vec_capacity};
ghost use Rattle.identity.specs.Numbers.{Byte};
ghost use Rattle.console.specs.Service.{IsService, figure_line, service_words, station_begin, station_end, station_line, station_lines, waits_text};
ghost use Rattle.console.specs.declared.figures.StationFigures.{StationFigures as FiguresOf};

use crate::figures::{ServiceFigures, StationFigures, StoreFigures};
use listings::{Part, put_parts};
use std::alloc::{AllocError, Allocator};

/// How many lines there are between the first line, `service COUNT`, and those of the stations.
const SERVICE_LINES: usize = 6;

/// A line with one figure, after `name`, which ends in a space.
#[tactic(auto, using(std::proofs::Common::append_assoc))]
fn put_figure<'a, A: Allocator>(
    out: &mut Vec<u8, A>,
    name: &'a str,
    figure: u64,
) -> Result<(), AllocError>
    ensures ok { OnOk result (out.new.items ≡ out.old.items ++ figure_line name.now figure) }
    ensures capacity { vec_capacity out.old ≤ vec_capacity out.new }
{
    let line: [Part; 3] = [Part::Text(name), Part::Number(figure), Part::Text("\n")];
    put_parts(out, &line)
}

/// The lines before those of the stations. The first has the number of lines that follow it.
#[tactic(auto, using(std::proofs::Common::append_assoc))]
fn put_whole_service<A: Allocator>(
    out: &mut Vec<u8, A>,
    stations: usize,
    rounds: u64,
    store: &StoreFigures,
) -> Result<(), AllocError>
    requires { stations ≤ 64 }
    ensures ok { OnOk result (out.new.items ≡ out.old.items ++ service_words stations rounds store.now) }
    ensures capacity { vec_capacity out.old ≤ vec_capacity out.new }
{
    put_figure(out, "service ", (SERVICE_LINES + stations) as u64)?;
    put_figure(out, "rounds ", rounds)?;
    put_figure(out, "commands ", store.commands)?;
    put_figure(out, "syncs ", store.syncs)?;
    put_figure(out, "checkpoints ", store.checkpoints)?;
    put_figure(out, "epoch ", store.epoch)?;
    put_figure(out, "free ", store.free)
}

/// Whether a station waits, at the end of its line.
fn waits_text(waits: bool) -> &'static str
    ensures { result.now ≡ waits_text waits }
{
    if waits { " waits yes\n" } else { " waits no\n" }
}

/// `station K lines L accepted A`
#[tactic(auto, using(std::proofs::Common::append_assoc))]
fn put_station_begin<A: Allocator>(
    out: &mut Vec<u8, A>,
    number: u64,
    figures: &StationFigures,
) -> Result<(), AllocError>
    ensures ok { OnOk result (out.new.items ≡ out.old.items ++ station_begin number figures.now) }
    ensures capacity { vec_capacity out.old ≤ vec_capacity out.new }
{
    let line: [Part; 6] = [
        Part::Text("station "),
        Part::Number(number),
        Part::Text(" lines "),
        Part::Number(figures.lines),
        Part::Text(" accepted "),
        Part::Number(figures.accepted),
    ];
    put_parts(out, &line)
}

/// ` refused R kept P waits yes`, or `no`
#[tactic(auto, using(std::proofs::Common::append_assoc))]
fn put_station_end<A: Allocator>(
    out: &mut Vec<u8, A>,
    figures: &StationFigures,
) -> Result<(), AllocError>
    ensures ok { OnOk result (out.new.items ≡ out.old.items ++ station_end figures.now) }
    ensures capacity { vec_capacity out.old ≤ vec_capacity out.new }
{
    let line: [Part; 5] = [
        Part::Text(" refused "),
        Part::Number(figures.refused),
        Part::Text(" kept "),
        Part::Number(figures.kept),
        Part::Text(waits_text(figures.waits)),
    ];
    put_parts(out, &line)
}

/// The line of the station of this number.
#[tactic(auto, using(std::proofs::Common::append_assoc))]
fn put_station<A: Allocator>(
    out: &mut Vec<u8, A>,
    number: u64,
    figures: &StationFigures,
) -> Result<(), AllocError>
    ensures ok { OnOk result (out.new.items ≡ out.old.items ++ station_line number figures.now) }
    ensures capacity { vec_capacity out.old ≤ vec_capacity out.new }
{
    put_station_begin(out, number, figures)?;
    put_station_end(out, figures)
}

/// The lines of so many stations, in order.
fn put_stations<A: Allocator>(
    out: &mut Vec<u8, A>,
    service: &ServiceFigures,
    count: usize,
) -> Result<(), AllocError>
    ensures ok { OnOk result ((each : List FiguresOf) × (length each ≡ count) × (out.new.items ≡ out.old.items ++ station_lines 1 each)) }
    ensures capacity { vec_capacity out.old ≤ vec_capacity out.new }
{
    for place in 0..count {
        let figures = service.station(place);
        put_station(out, place as u64 + 1, &figures)?;
    }
    Ok(())
}

/// Adds the answer to `service`: the figures of this service, or that none is running. When memory runs out, some bytes were added.
pub(crate) fn put_service<A: Allocator>(
    out: &mut Vec<u8, A>,
    service: &ServiceFigures,
) -> Result<(), AllocError>
    ensures ok { OnOk result ((lines : List Byte) × IsService lines × (out.new.items ≡ out.old.items ++ lines)) }
    ensures capacity { vec_capacity out.old ≤ vec_capacity out.new }
{
    let count = service.stations();
    if count == 0 {
        return out.extend_from_slice(b"service 0\n");
    }
    let store = service.store();
    put_whole_service(out, count, service.rounds(), &store)?;
    put_stations(out, service, count)
}
