//! The switch's program: it serves standard input over a new register in memory, or makes, serves, shows, dumps and checks a
//! register that is kept on a disk. It reads the words of its command line, opens the files that these name, and leaves all rules to the crates below.
#![tactic(auto)]

ghost use Rattle.std.specs.Prelude.{◌≡◌, ◌≤◌, ◌⊎◌, ◌-◌, ◌^◌, codes, cond, false, length, slice_get, true, ℕ};
ghost use Rattle.std.specs.Prelude.{Err, IfErr, IfOk, IsErrAnd, MatchResult, Ok, OnOk, Some};
ghost use Rattle.console.specs.Told.{EndsFor, reader_events, writer_events};
ghost use Rattle.registration.specs.Numbers.{Station as StationNumber};
ghost use Rattle.file_disk.specs.declared.fault.OpenCause.TheVariants.{Other};
ghost use Rattle.served_disk.specs.declared.fault.Fault.TheVariants.{Device, Memory};
ghost use Rattle.served_disk.specs.Faults.{Names};
ghost use Rattle.served_disk.specs.Stations.{HaveEnded};
ghost use Rattle.stations.specs.declared.station_run.StationRun.{StationRun};
ghost use Rattle.stations.specs.Orders.{may, may_by};

use centre_core::Register;
use checkpoint::Layout;
use command_line::{Refusal, Request, read_command_line};
use console::{RunFault, Terms, run_under};
use file_disk::{FileDisk, HostFile, OpenCause};
use recovery::Store;
use registration::{Limits, Station};
use sector_disk::Disk;
use served_disk::{
    CountedReader, CountedWriter, Fault, Manner, PortNames, ProgressReport, Served, ServiceWatch,
    SyncedDisk, TURNS, Tally, WatchedDesk, WatchedReader, check_disk, check_names, check_orders,
    check_pairs, check_stations, dump_disk, file_names, format_disk, inputs_of, layout_of,
    load_register, make_disk_with, name_ended, names_of, not_read, open_disk, open_files, outcome,
    pairs_of, ports_of, print_formatted, print_loaded, print_stations, rest_disk, serve_stations,
    service_outcome, show_disk, stream_pair,
};
use snapshots::NewLog;
use stations::{ManyTerms, Orders, Port, Watch};
use std::alloc::{AllocError, Global};
use std::fs::{File, Files};
use std::io::{IsTerminal, Read, Write};
use std::marker::Brand;
use std::process::ExitCode;
use std::rt::Clock;
use std::sync::atomic::AtomicU64;
use std::sync::{Arc, OnceLock, Wait};
use std::thread::{Builder, Threads};
use std::{env, fs, io};

/// How much the register in memory holds at most.
const LIMITS: Limits = Limits {
    rules: 16,
    radios: 16,
    mail: 256,
    stations: 4,
};

fn main(rt: HostRuntime) -> ExitCode {
    let words = match read_words(&rt) {
        Ok(words) => words,
        Err(refusal) => return print_refusal(&rt, &refusal),
    };
    let request = match read_command_line(rt.alloc(), &words) {
        Ok(request) => request,
        Err(refusal) => return print_refusal(&rt, &refusal),
    };
    if !stops_at_fault(&request) {
        return carry_out(&rt, rt, &request, None);
    }
    drop(request);
    let Ok((finish, given)) = new_finish(rt.alloc()) else {
        return exit_code(&rt, Err(Fault::Memory));
    };
    let service = Builder::new()
        .stack_size(STACK)
        .spawn(&rt, move || serve_words(&rt, rt, &words, &given));
    match service {
        Ok(_thread) => *finish.wait(&rt),
        Err(_) => exit_code(&rt, Err(Fault::Memory)),
    }
}

/// Whether a request is to serve until the device fails.
fn stops_at_fault(request: &Request<'_>) -> bool {
    matches!(
        request,
        Request::Serve {
            stop_at_fault: true,
            ..
        }
    )
}

/// The place for the exit code, which the program shares with a service in a thread of its own. The service puts one there when all
/// stations have ended, or when the device has failed. The first counts. The program then ends, and with it all threads that still run.
type Finish = Arc<OnceLock<ExitCode>, Global>;

/// How many bytes the stack of such a service has: as many as that of the program's first thread.
const STACK: usize = 8 << 20;

/// A place for the exit code: one owner of it for the program, and one for the service.
fn new_finish(alloc: Global) -> Result<(Finish, Finish), AllocError> {
    let finish = Arc::new(alloc, OnceLock::new())?;
    let given = finish.clone()?;
    Ok((finish, given))
}

/// Serves by these words, and puts the exit code into `finish`, unless there is one.
fn serve_words<R: Threads + Wait + Sync + Clock + Print + Eprint + Files<File = File>>(
    rt: &R,
    host: HostRuntime,
    words: &[String],
    finish: &OnceLock<ExitCode>,
) {
    let code = match read_command_line(host.alloc(), words) {
        Ok(request) => carry_out(rt, host, &request, Some(finish)),
        Err(refusal) => print_refusal(&host, &refusal),
    };
    let _ = finish.set(rt, code);
}

/// Carries out a request, and returns the exit code. `finish` is where a service puts it if the device fails.
fn carry_out<R: Threads + Wait + Sync + Clock + Print + Eprint + Files<File = File>>(
    rt: &R,
    host: HostRuntime,
    request: &Request<'_>,
    finish: Option<&OnceLock<ExitCode>>,
) -> ExitCode {
    let syncs = AtomicU64::new(0);
    let ended = match request {
        Request::Memory => status_of(serve_memory(&host)),
        Request::Format { settings, disk } => status_of(make_disk(&host, settings, disk)),
        Request::Run {
            disk,
            files,
            orders,
        } => {
            let watched = host.stderr().is_terminal();
            let target = target_of(disk, orders, &syncs);
            status_of(run_files(rt, host.alloc(), target, files, watched))
        }
        Request::Serve {
            disk,
            pairs,
            orders,
            log,
            stop_at_fault: _,
        } => {
            let target = target_of(disk, orders, &syncs);
            let manner = Manner { log: *log, finish };
            serve(rt, host, target, pairs, manner)
        }
        Request::Show { disk, words } => status_of(show_words(&host, disk, words)),
        Request::Dump { disk } => status_of(dump_register(&host, disk)),
        Request::Load {
            dump,
            settings,
            disk,
        } => status_of(load_disk(&host, dump, settings, disk)),
        Request::Check { disk, rest: false } => check_sides(&host, disk),
        Request::Check { disk, rest: true } => print_rest(&host, disk),
    };
    exit_code(&host, ended)
}

/// The words that the program was started with; the first is its name.
fn read_words(rt: &HostRuntime) -> Result<Vec<String>, Refusal> {
    let mut words = Vec::new(rt.alloc());
    for word in env::args(rt)? {
        words.push(word).or(Err(Refusal::NoMemory))?;
    }
    Ok(words)
}

/// Prints help and the version on standard output; prints what is wrong with the words on standard error.
fn print_refusal(rt: &HostRuntime, refusal: &Refusal) -> ExitCode {
    let written = match refusal {
        Refusal::Help(_) | Refusal::Version(_) => print!(rt; "{refusal}"),
        _ => eprint!(rt; "{refusal}"),
    };
    match written {
        Err(_) if refusal.status() == 0 => exit_code(rt, Err(Fault::File("-", OpenCause::Other))),
        _ => ExitCode::from(refusal.status()),
    }
}

/// The exit status of a request that was carried out: 1 if an answer reported trouble, else 0.
fn status_of<'a>(ended: Result<bool, Fault<'a>>) -> Result<u8, Fault<'a>>
    ensures { MatchResult ended.entry (λ troubled. result ≡ Ok (cond troubled 1 0)) (λ fault. result ≡ Err fault) }
{
    ended.map(u8::from)
}

/// Prints a fault on standard error, and returns the exit code.
fn exit_code(rt: &HostRuntime, ended: Result<u8, Fault<'_>>) -> ExitCode {
    match ended {
        Ok(status) => ExitCode::from(status),
        Err(fault) => {
            let _ = fault.print(&mut rt.stderr());
            ExitCode::from(fault.status())
        }
    }
}

/// Answers lines from standard input, as those of station 1, over a new register in memory.
fn serve_memory<'a>(rt: &HostRuntime) -> Result<bool, Fault<'a>> {
    let Ok(register) = Register::new(rt.alloc(), LIMITS) else {
        return Err(Fault::Memory);
    };
    let talks = rt.stdin().is_terminal() || rt.stdout().is_terminal();
    let watched = rt.stderr().is_terminal() && !talks;
    let Ok(progress) = ProgressReport::of_one(rt, rt.alloc(), watched) else {
        drop(register);
        return Err(Fault::Memory);
    };
    let station = Station::new(1);
    let mut desk = WatchedDesk::new(register, station, &progress);
    let mut reader = WatchedReader::new(rt.stdin(), station, &progress);
    let mut writer = io::writer(rt);
    let terms = Terms {
        alloc: rt.alloc(),
        station,
        orders: true,
        turns: TURNS,
    };
    let (ended, _) = run_under(terms, &mut reader, &mut writer, &mut desk);
    progress.end(0, &ended);
    progress.finish();
    match ended {
        Ok(ran) => Ok(ran.troubled),
        Err(RunFault::Read | RunFault::Write) => Err(Fault::File("-", OpenCause::Other)),
        Err(RunFault::NoMemory) => Err(Fault::Memory),
    }
}

/// Makes a disk for an empty register in a new file, by the settings in another file.
fn make_disk<'a>(rt: &HostRuntime, settings: &'a str, disk: &'a str) -> Result<bool, Fault<'a>> {
    let layout = read_layout(rt, settings)?;
    let made = format_disk(rt, &layout, disk)?;
    printed(print_formatted(&mut io::writer(rt), made.sectors()), false)
}

/// Makes a disk in a new file for the register of a dump, by the settings in another file. The dump is read before the disk is
/// made.
fn load_disk<'a>(
    rt: &HostRuntime,
    dump: &'a str,
    settings: &'a str,
    disk: &'a str,
) -> Result<bool, Fault<'a>> {
    let layout = read_layout(rt, settings)?;
    let register = read_dump(rt, layout.limits(), dump)?;
    let made = make_disk_with(rt, &layout, &register, disk);
    drop(register);
    printed(print_loaded(&mut io::writer(rt), made?.sectors()), false)
}

/// The layout of the disk that the settings in a file ask for.
fn read_layout<'a>(rt: &HostRuntime, settings: &'a str) -> Result<Layout, Fault<'a>> {
    match fs::read(rt, settings) {
        Ok(text) => layout_of(rt.alloc(), &text),
        Err(error) => Err(not_read(error.kind(), settings)),
    }
}

/// The register that the dump in a file makes under these limits.
fn read_dump<'a>(
    rt: &HostRuntime,
    limits: Limits,
    dump: &'a str,
) -> Result<Register<Global>, Fault<'a>>
    ensures under { IfOk result (λ register. register.registered.limits ≡ limits) }
{
    let file = match File::open(rt, dump) {
        Ok(file) => file,
        Err(error) => return Err(not_read(error.kind(), dump)),
    };
    let tally = Tally::of_lines(rt, rt.stderr().is_terminal());
    let mut reader = CountedReader::new(file, &tally);
    let loaded = load_register(rt.alloc(), limits, &mut reader, dump);
    tally.finish();
    loaded
}

/// Prints the register on a disk as text.
fn dump_register<'a>(rt: &HostRuntime, disk: &'a str) -> Result<bool, Fault<'a>> {
    let watched = rt.stderr().is_terminal() && !rt.stdout().is_terminal();
    let tally = Tally::of_lines(rt, watched);
    let mut out = CountedWriter::new(io::writer(rt), &tally);
    let dumped = dump_disk(rt, rt.alloc(), disk, &mut out);
    tally.finish();
    let _disk = dumped?;
    Ok(false)
}

/// Prints what a check of a disk finds. `Ok` has the exit status: 5 if a side is damaged or the disk does not open.
fn check_sides<'a>(rt: &HostRuntime, disk: &'a str) -> Result<u8, Fault<'a>> {
    let tally = Tally::of_sectors(rt, rt.stderr().is_terminal());
    let checked = check_disk(rt, rt.alloc(), disk, &tally);
    tally.finish();
    let (report, _disk) = checked?;
    let well = printed(io::writer(rt).write_all(&report.text), report.well)?;
    Ok(if well { 0 } else { 5 })
}

/// Prints what is left of the register on a disk as text, and on standard error what it lacks. `Ok` has the exit status: 5 if the disk
/// does not open.
fn print_rest<'a>(rt: &HostRuntime, disk: &'a str) -> Result<u8, Fault<'a>> {
    let watched = rt.stderr().is_terminal() && !rt.stdout().is_terminal();
    let tally = Tally::of_sectors(rt, watched);
    let rested = rest_disk(rt, rt.alloc(), disk, &tally, &mut io::writer(rt));
    tally.finish();
    let (report, _disk) = rested?;
    let whole = printed(rt.stderr().write_all(&report.text), report.whole)?;
    Ok(if whole { 0 } else { 5 })
}

/// The result of a request whose answer was printed, or could not be.
fn printed<'a>(written: io::Result<()>, troubled: bool) -> Result<bool, Fault<'a>>
    ensures value { IfOk result (λ value. value ≡ troubled) }
    ensures cases { MatchResult written (λ _. result ≡ Ok troubled) (λ _. IsErrAnd result (λ fault. Names fault (codes "-") Other)) }
{
    match written {
        Ok(()) => Ok(troubled),
        Err(_) => Err(Fault::File("-", OpenCause::Other)),
    }
}

/// Opens the register on a disk. It must have this many stations.
fn open_for<'a, 'o, R: Files<File = File>>(
    rt: &R,
    alloc: Global,
    target: ServedDisk<'a, 'o>,
    stations: usize,
) -> Result<Store<Global, ServedFile<'o>>, Fault<'a>>
    ensures sound { IfOk result (λ store. store.broken ≡ false) }
    ensures most { OnOk result (stations ≤ 64) }
{
    let store = open_disk(rt, alloc, target.disk, target.syncs)?;
    match check_stations(&store, stations) {
        Ok(()) => Ok(store),
        Err(fault) => {
            drop(store);
            Err(fault)
        }
    }
}

/// A disk that is served, the stations that may give orders, and where the syncs of the disk are counted. If no station is named, all
/// may give orders.
#[derive(Clone, Copy)]
struct ServedDisk<'a, 'o> {
    disk: &'a str,
    orders: &'o [u16],
    syncs: &'o AtomicU64,
}

fn target_of<'a, 'o>(disk: &'a str, orders: &'o [u16], syncs: &'o AtomicU64) -> ServedDisk<'a, 'o>
    ensures { result.orders ≡ orders.entry }
{
    ServedDisk {
        disk,
        orders,
        syncs,
    }
}

/// The file of a disk that is served.
type ServedFile<'s> = SyncedDisk<'s, FileDisk<HostFile>>;

/// What a run of stations over this disk is given.
fn terms_of<'o>(alloc: Global, target: ServedDisk<'_, 'o>) -> ManyTerms<'o>
    ensures orders { (station : StationNumber) → may result.orders station ≡ may_by target.entry.orders.now station }
    ensures turns { result.turns ≡ 2 ^ 32 - 1 }
{
    ManyTerms {
        alloc,
        orders: Orders::by(target.orders),
        turns: TURNS,
        log: NewLog::new(),
        syncs: target.syncs,
    }
}

/// Serves the lines of each file as those of stations 1, 2 and so on, over the register on a disk, and prints the answers.
fn run_files<'a, R: Threads + Wait + Sync + Clock + Print + Eprint + Files<File = File>>(
    rt: &R,
    alloc: Global,
    target: ServedDisk<'a, '_>,
    files: &[&'a str],
    watched: bool,
) -> Result<bool, Fault<'a>> {
    check_names(alloc, files)?;
    check_orders(target.orders, files.len())?;
    let names = file_names(alloc, files)?;
    let store = open_for(rt, alloc, target, files.len())?;
    let Ok(progress) = ProgressReport::of_many(rt, alloc, watched, files.len()) else {
        drop(store);
        return Err(Fault::Memory);
    };
    let ports = match open_files(rt, alloc, files, &progress) {
        Ok(ports) => ports,
        Err(fault) => {
            drop(store);
            return Err(fault);
        }
    };
    let terms = terms_of(alloc, target);
    let served = serve_ports(rt, terms, store, ports, &progress)?;
    report(rt, &names, &served, &progress)
}

/// Serves the lines of each port as those of stations 1, 2 and so on, over the store. Its one fault is out of memory, before the first
/// line.
fn serve_ports<
    'a,
    's,
    R: Threads + Wait + Clock + Sync,
    I: Read + Send + Drop,
    O: Write + Send + Drop,
    V: Watch + Sync,
>(
    rt: &R,
    terms: ManyTerms<'_>,
    store: Store<Global, ServedFile<'s>>,
    ports: Vec<Port<I, O>>,
    watch: &V,
) -> Result<Served<ServedFile<'s>, I, O>, Fault<'a>>
    requires sound { store.broken ≡ false }
    ensures all { IfOk result (λ served. length served.runs.items ≡ length ports.items) }
    ensures fault { IfErr result (λ fault. fault ≡ Memory) }

    // Why each run ended.
    ensures ends { IfOk result (λ served. (k : ℕ) (run : StationRun I O) → slice_get served.runs.items k ≡ Some run
        → EndsFor terms.entry.turns (reader_events run.passed) (writer_events run.passed) run.ran) }
{
    match serve_stations::<Brand, ServedFile<'s>, R, I, O, V>(rt, terms, store, ports, watch) {
        Ok(served) => Ok(served),
        Err(unserved) => {
            drop(unserved);
            Err(Fault::Memory)
        }
    }
}

/// Prints the last figures and the answers of each station, and returns how all have ended.
fn report<'a, R: Clock + Print + Eprint, D, I>(
    rt: &R,
    names: &[PortNames<'a>],
    served: &Served<D, I, Vec<u8>>,
    progress: &ProgressReport<'_, R>,
) -> Result<bool, Fault<'a>>
    requires same { length names.now ≡ length served.now.runs.items }
    requires few { length names.now ≤ 64 }
    ensures sound { OnOk result (served.now.is_broken ≡ false) }
    ensures broken { served.now.is_broken ≡ true → result ≡ Err Device }
    ensures ended { IfOk result (λ troubled. HaveEnded names.now served.now.runs.items (Ok troubled)) }
    ensures fault { IfErr result (λ fault. (fault ≡ Device) ⊎ HaveEnded names.now served.now.runs.items (Err fault) ⊎ Names fault (codes "-") Other) }
{
    for index in 0..served.runs.len() {
        progress.end(index, &served.runs[index].ran);
    }
    progress.finish();
    let written = print_stations(&mut io::writer(rt), names, &served.runs);
    match outcome(names, served) {
        Ok(troubled) => printed(written, troubled),
        Err(fault) => Err(fault),
    }
}

/// Serves the pairs of files of stations 1, 2 and so on; without any, station 1 by the standard streams. `Ok` has the exit status.
fn serve<'a, R: Threads + Wait + Sync + Clock + Eprint + Files<File = File>>(
    rt: &R,
    host: HostRuntime,
    target: ServedDisk<'a, '_>,
    named: &[(&'a str, &'a str)],
    manner: Manner<'_>,
) -> Result<u8, Fault<'a>> {
    if named.is_empty() {
        serve_streams(rt, host, target, manner)
    } else {
        serve_pairs(rt, host, target, named, manner)
    }
}

/// Serves station 1 over the register on a disk by standard input and standard output. `Ok` has the exit status.
fn serve_streams<'a, R: Threads + Wait + Sync + Clock + Eprint + Files<File = File>>(
    rt: &R,
    host: HostRuntime,
    target: ServedDisk<'a, '_>,
    manner: Manner<'_>,
) -> Result<u8, Fault<'a>> {
    let port = Port {
        reader: host.stdin(),
        writer: host.stdout(),
    };
    serve_port(rt, host.alloc(), target, manner, port)
}

/// Serves station 1 over the register on a disk by this port. `Ok` has the exit status.
fn serve_port<
    'a,
    R: Threads + Wait + Sync + Clock + Eprint + Files<File = File>,
    I: Read + Send + Drop,
    O: Write + Send + Drop,
>(
    rt: &R,
    alloc: Global,
    target: ServedDisk<'a, '_>,
    manner: Manner<'_>,
    port: Port<I, O>,
) -> Result<u8, Fault<'a>> {
    check_orders(target.orders, 1)?;
    let pairs = stream_pair(alloc)?;
    let Ok(mut ports) = Vec::with_capacity(alloc, 1) else {
        return Err(Fault::Memory);
    };
    ports.push_reserved(port);
    let store = open_for(rt, alloc, target, 1)?;
    let watch = ServiceWatch::new(rt, alloc, &pairs, manner);
    watch.begin(count_of(&store));
    watch.start(Station::new(1));
    serve_watched(rt, target, store, ports, &watch)
}

/// Serves the pairs of files of stations 1, 2 and so on, over the register on a disk. A station whose IN and OUT are both `-` is left
/// out. `Ok` has the exit status.
fn serve_pairs<'a, R: Threads + Wait + Sync + Clock + Eprint>(
    rt: &R,
    host: HostRuntime,
    target: ServedDisk<'a, '_>,
    named: &[(&'a str, &'a str)],
    manner: Manner<'_>,
) -> Result<u8, Fault<'a>> {
    let alloc = host.alloc();
    check_pairs(named)?;
    check_orders(target.orders, named.len())?;
    check_names(alloc, &inputs_of(alloc, named)?)?;
    let pairs = pairs_of(alloc, named)?;
    let ports = ports_of(rt, host, &pairs, manner.log)?;
    let store = open_for(&host, alloc, target, named.len())?;
    let watch = ServiceWatch::new(rt, alloc, &pairs, manner);
    watch.begin(count_of(&store));
    serve_watched(rt, target, store, ports, &watch)
}

/// How many commands the register of a store has accepted.
fn count_of(store: &Store<Global, ServedFile<'_>>) -> u64
    requires sound { store.now.broken ≡ false }
    ensures { result ≡ store.now.register.count }
{
    store.register().unwrap().count()
}

/// Serves these ports; each answer is written as it comes. `Ok` has the exit status.
fn serve_watched<
    'a,
    R: Threads + Wait + Sync + Clock + Eprint,
    I: Read + Send + Drop,
    O: Write + Send + Drop,
>(
    rt: &R,
    target: ServedDisk<'_, '_>,
    store: Store<Global, ServedFile<'_>>,
    ports: Vec<Port<I, O>>,
    watch: &ServiceWatch<'_, '_, 'a, R>,
) -> Result<u8, Fault<'a>>
    requires sound { store.broken ≡ false }
    requires same { length ports.items ≡ length watch.now.pairs.now }
{
    let mut names = match names_of(rt, watch.alloc(), watch.pairs()) {
        Ok(names) => names,
        Err(fault) => {
            drop(store);
            return Err(fault);
        }
    };
    let terms = terms_of(watch.alloc(), target);
    let served = serve_ports(rt, terms, store, ports, watch)?;
    name_ended(rt, &mut names, watch.pairs());
    match service_outcome(&names, &served) {
        Err(Fault::Device) if watch.has_told() => Ok(Fault::Device.status()),
        outcome => outcome,
    }
}

/// Prints the answer to a query, given by these words, of the register on a disk.
fn show_words<'a>(rt: &HostRuntime, disk: &'a str, words: &[&str]) -> Result<bool, Fault<'a>> {
    let Ok(line) = words.join(rt.alloc(), " ") else {
        return Err(Fault::Memory);
    };
    let (shown, _disk) = show_disk(rt, rt.alloc(), disk, line.as_bytes())?;
    printed(io::writer(rt).write_all(&shown.text), shown.troubled)
}
