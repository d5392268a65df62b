//! The files of the stations of a run.
ghost use Rattle.std.specs.Prelude.{◌≡◌, ◌≤◌, ◌<◌, None, Some, option_map, OnOk, OnErr, IfErr, IfOk, length, nat_lt, false};
ghost use Rattle.std.specs.List.{AllZip};
ghost use Rattle.std.specs.Option.{option_copied};
ghost use Rattle.settings.specs.Naming.{first_twice, texts};
ghost use Rattle.served_disk.specs.declared.fault.Fault.TheVariants.{NotServed, TooMany};
ghost use Rattle.served_disk.specs.Faults.{OrMemory};
ghost use Rattle.served_disk.specs.Files.{IsNotRead, IsOfFiles, IsOfNames, not_served};
ghost use Rattle.served_disk.specs.Pairs.{IsFilePortOf, names_of_files, numbered};

use crate::{Fault, PortNames, ProgressReport, StationFiles, WatchedReader};
use file_disk::OpenCause;
use recovery::Store;
use registration::Station;
use sector_disk::Disk;
use settings::{NameFault, name_files};
use stations::Port;
use std::alloc::Global;
use std::fs::File;
use std::io::ErrorKind;
use std::rt::Clock;

/// The port of a station whose lines are in a file, and whose answers wait in memory.
pub type FilePort<'p, 'r, C> = Port<WatchedReader<'p, 'r, File, C>, Vec<u8>>;

/// Checks that each file is named once.
///
/// # Errors
/// `Twice` with the first name that came earlier too; `Memory` only if there is no such name.
pub fn check_names<'a>(alloc: Global, names: &[&'a str]) -> Result<(), Fault<'a>>
    ensures distinct { OnOk result (first_twice (texts names.now) ≡ None) }
    ensures refused { IfErr result (IsOfNames names.now) }
{
    match name_files(alloc, names) {
        Ok(places) => {
            drop(places);
            Ok(())
        }
        Err(NameFault::Twice(place)) => Err(Fault::Twice(names[place - 1])),
        Err(NameFault::NoMemory) => Err(Fault::Memory),
    }
}

/// Checks that the register has a station for each file.
///
/// # Errors
/// `TooMany`, exactly if it has fewer.
pub fn check_stations<'a, D: Disk>(store: &Store<Global, D>, files: usize) -> Result<(), Fault<'a>>
    requires sound { store.now.broken ≡ false }
    ensures enough { OnOk result (files ≤ store.now.register.registered.limits.stations) }
    ensures most { OnOk result (files ≤ 64) }
    ensures lacking { OnErr result (store.now.register.registered.limits.stations < files) }
    ensures fault { IfErr result (λ fault. fault ≡ TooMany) }
{
    let stations = store.register().unwrap().limits().stations;
    if files <= stations as usize {
        Ok(())
    } else {
        Err(Fault::TooMany)
    }
}

/// Whether this station has no place among so many that are served.
fn is_beyond(station: u16, served: usize) -> bool
    ensures { result ≡ nat_lt served station }
{
    usize::from(station) > served
}

/// The first of these stations that has no place among so many.
fn first_not_served(named: &[u16], served: usize) -> Option<&u16>
    ensures { option_copied result ≡ not_served served named.now }
{
    named.iter().find(|station| is_beyond(**station, served))
}

/// Checks that none of the stations named for orders has a number larger than `served`, the number of stations that are served.
///
/// # Errors
/// `NotServed` with the first that has a larger number.
pub fn check_orders<'a>(named: &[u16], served: usize) -> Result<(), Fault<'a>>
    ensures served { OnOk result (not_served served named.now ≡ None) }
    ensures refused { IfErr result (λ fault. option_map NotServed (not_served served named.now) ≡ Some fault) }
{
    match first_not_served(named, served) {
        Some(station) => Err(Fault::NotServed(*station)),
        None => Ok(()),
    }
}

/// Why the file of this name was not opened or read, where a call failed with an error of this kind.
pub fn not_read<'a>(kind: ErrorKind, name: &'a str) -> Fault<'a>
    ensures { IsNotRead kind name.now result }
{
    match kind {
        ErrorKind::OutOfMemory => Fault::Memory,
        _ => Fault::File(name, OpenCause::of(kind)),
    }
}

/// The names of the files of stations 1, 2 and so on, whose answers wait in memory.
///
/// # Errors
/// `Memory`.
pub fn file_names<'a>(alloc: Global, files: &[&'a str]) -> Result<Vec<PortNames<'a>>, Fault<'a>>
    ensures named { OrMemory result (λ names. names.items ≡ names_of_files files.now) }
    ensures all { IfOk result (λ names. length names.items ≡ length files.now) }
{
    let Ok(mut names) = Vec::with_capacity(alloc, files.len()) else {
        return Err(Fault::Memory);
    };
    for file in files {
        names.push_reserved(PortNames {
            input: *file,
            output: None,
        });
    }
    Ok(names)
}

/// Opens the files of stations 1, 2 and so on. `progress` counts their lines, and their answers wait in memory.
///
/// # Errors
/// `File` with the first name whose file can't be opened, and `Memory`.
pub fn open_files<'a, 'p, 'r, R: StationFiles, C: Clock + Eprint>(
    rt: &R,
    alloc: Global,
    names: &[&'a str],
    progress: &'p ProgressReport<'r, C>,
) -> Result<Vec<FilePort<'p, 'r, C>>, Fault<'a>>
    requires few { length names.now ≤ 64 }
    ensures opened { IfOk result (λ ports. AllZip (IsFilePortOf (R.opened rt.now)) (numbered names.now) ports.items) }
    ensures all { IfOk result (λ ports. length ports.items ≡ length names.now) }
    ensures refused { IfErr result (IsOfFiles (R.opened rt.now) names.now) }
{
    let Ok(mut ports) = Vec::with_capacity(alloc, names.len()) else {
        return Err(Fault::Memory);
    };
    for index in 0..names.len() {
        let file = match rt.open_input(names[index]) {
            Ok(file) => file,
            Err(error) => return Err(not_read(error.kind(), names[index])),
        };
        let station = Station::new(index as u16 + 1);
        ports.push_reserved(Port {
            reader: WatchedReader::new(file, station, progress),
            writer: Vec::new(alloc),
        });
    }
    Ok(ports)
}
