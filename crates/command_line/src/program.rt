//! The definition of the command line for clap: a function for each subcommand, and for each kind of its words.
ghost use Rattle.std.specs.Prelude.{◌≡◌, IfOk, false};
ghost use Rattle.clap.specs.Words.{new_app, rule_of};
ghost use Rattle.command_line.specs.Program as spec;

use clap::{Arg, ArgAction, Command, value_parser};
use std::alloc::{AllocError, Global};

/// The program's name in each usage line, whatever its file is called.
const NAME: &str = "tetra-switch";

const DISK: &str = "The disk file";

const NEW_DISK: &str = "The disk file, which may not exist yet";

const SETTINGS: &str = "The settings: five numbers in TOML";

/// The program with its subcommands.
pub(crate) fn program<'a>(alloc: Global) -> Result<Command<'a>, AllocError>
    ensures { IfOk result (spec.Describes spec.program) }
{
    under_name(alloc)?
        .subcommand(format(alloc)?)?
        .subcommand(run(alloc)?)?
        .subcommand(serve(alloc)?)?
        .subcommand(show(alloc)?)?
        .subcommand(dump(alloc)?)?
        .subcommand(load(alloc)?)?
        .subcommand(check(alloc)?)
}

/// The program without its subcommands, under its name.
fn under_name<'a>(alloc: Global) -> Result<Command<'a>, AllocError>
    ensures { IfOk result (spec.Describes spec.bare) }
{
    bare(alloc).bin_name(NAME)
}

/// The program without its subcommands.
fn bare<'a>(alloc: Global) -> Command<'a>
    ensures { spec.Describes spec.bare result }
{
    named(alloc, NAME, ABOUT, AFTER)
        .override_usage("tetra-switch [COMMAND]")
        .version(VERSION)
        .subcommand_required(true)
        .disable_help_subcommand(true)
}

/// A command with its help texts.
fn named<'a>(alloc: Global, name: &'a str, about: &'a str, after: &'a str) -> Command<'a>
    ensures { spec.Describes (new_app name.now) result }
{
    Command::new(alloc, name).about(about).after_help(after)
}

fn format<'a>(alloc: Global) -> Result<Command<'a>, AllocError>
    ensures { IfOk result (spec.Describes spec.format) }
{
    let settings = one_word(alloc, "SETTINGS", SETTINGS);
    let disk = one_word(alloc, "DISK", NEW_DISK);
    named(alloc, "format", FORMAT, AFTER_FORMAT)
        .arg(settings)?
        .arg(disk)
}

fn run<'a>(alloc: Global) -> Result<Command<'a>, AllocError>
    ensures { IfOk result (spec.Describes spec.run) }
{
    let disk = one_word(alloc, "DISK", DISK);
    let files = some_words(
        alloc,
        "FILE",
        "The lines of station 1, of station 2 and so on",
    );
    named(alloc, "run", RUN, AFTER_RUN)
        .override_usage(RUN_USAGE)
        .arg(disk)?
        .arg(files)?
        .arg(orders(alloc))
}

fn serve<'a>(alloc: Global) -> Result<Command<'a>, AllocError>
    ensures { IfOk result (spec.Describes spec.serve) }
{
    serve_words(alloc)?
        .arg(flag(alloc, "log", LOG))?
        .arg(flag(alloc, "stop-at-fault", STOP_AT_FAULT))
}

/// `serve` without its flags.
fn serve_words<'a>(alloc: Global) -> Result<Command<'a>, AllocError>
    ensures { IfOk result (spec.Describes spec.serve_words) }
{
    let disk = one_word(alloc, "DISK", DISK);
    let ends = any_words(alloc, "END", SERVE_ENDS).value_name("IN OUT");
    named(alloc, "serve", SERVE, AFTER_SERVE)
        .override_usage(SERVE_USAGE)
        .arg(disk)?
        .arg(ends)?
        .arg(orders(alloc))
}

fn show<'a>(alloc: Global) -> Result<Command<'a>, AllocError>
    ensures { IfOk result (spec.Describes spec.show) }
{
    let disk = one_word(alloc, "DISK", DISK);
    let words = some_words(alloc, "WORD", "The words of the query");
    named(alloc, "show", SHOW, AFTER_SHOW).arg(disk)?.arg(words)
}

fn dump<'a>(alloc: Global) -> Result<Command<'a>, AllocError>
    ensures { IfOk result (spec.Describes spec.dump) }
{
    let disk = one_word(alloc, "DISK", DISK);
    named(alloc, "dump", DUMP, AFTER_DUMP).arg(disk)
}

fn load<'a>(alloc: Global) -> Result<Command<'a>, AllocError>
    ensures { IfOk result (spec.Describes spec.load) }
{
    let dump = one_word(alloc, "DUMP", "The text that dump printed");
    let settings = one_word(alloc, "SETTINGS", SETTINGS);
    let disk = one_word(alloc, "DISK", NEW_DISK);
    named(alloc, "load", LOAD, AFTER_LOAD)
        .arg(dump)?
        .arg(settings)?
        .arg(disk)
}

fn check<'a>(alloc: Global) -> Result<Command<'a>, AllocError>
    ensures { IfOk result (spec.Describes spec.check) }
{
    let disk = one_word(alloc, "DISK", DISK);
    named(alloc, "check", CHECK, AFTER_CHECK)
        .override_usage("tetra-switch check [--rest] <DISK>")
        .arg(disk)?
        .arg(flag(alloc, "rest", REST))
}

/// One required word.
fn one_word<'a>(alloc: Global, name: &'a str, help: &'a str) -> Arg<'a>
    ensures rule { rule_of result ≡ spec.one_word name.now }
    ensures local { result.global ≡ false }
{
    Arg::new(alloc, name).required(true).help(help)
}

/// One word or more.
fn some_words<'a>(alloc: Global, name: &'a str, help: &'a str) -> Arg<'a>
    ensures rule { rule_of result ≡ spec.some_words name.now }
    ensures local { result.global ≡ false }
{
    any_words(alloc, name, help).required(true)
}

/// Any number of words, or none.
fn any_words<'a>(alloc: Global, name: &'a str, help: &'a str) -> Arg<'a>
    ensures rule { rule_of result ≡ spec.any_words name.now }
    ensures local { result.global ≡ false }
{
    Arg::new(alloc, name).help(help).num_args(1..)
}

/// `--orders K`, any number of times: K is the number of a station.
fn orders<'a>(alloc: Global) -> Arg<'a>
    ensures rule { rule_of result ≡ spec.orders }
    ensures local { result.global ≡ false }
{
    Arg::new(alloc, "orders")
        .long("orders")
        .action(ArgAction::Append)
        .value_parser(value_parser!(u16).range(1..))
        .value_name("K")
        .help(ORDERS)
}

/// A flag of this name.
fn flag<'a>(alloc: Global, name: &'a str, help: &'a str) -> Arg<'a>
    ensures rule { rule_of result ≡ spec.flag name.now }
    ensures local { result.global ≡ false }
{
    Arg::new(alloc, name)
        .long(name)
        .action(ArgAction::SetTrue)
        .help(help)
}

/// How `run` is called.
const RUN_USAGE: &str = "tetra-switch run [--orders <K>]... <DISK> <FILE>...";

/// How `serve` is called.
pub(crate) const SERVE_USAGE: &str =
    "tetra-switch serve [--orders <K>]... [--log] [--stop-at-fault] <DISK> [<IN> <OUT>]...";

const VERSION: &str = "0.1.0 (disk layouts 1 and 2)";

const ABOUT: &str =
    "The location register and message centre of a TETRA switch. Without a command it answers station 1's lines from \
     standard input, over an empty register in memory.";

const FORMAT: &str = "Makes a disk file for an empty register, and prints how many sectors it has.";

const RUN: &str =
    "Serves the files of many stations at once on a disk file, and prints the answers when all have ended. The first file \
     is station 1's, the second station 2's, and so on.";

const SERVE: &str =
    "Serves stations on a disk file: each answer is written as soon as its command is durable. The first IN and OUT are \
     station 1's, the second station 2's, and so on; - - in place of a pair leaves that station out. Without pairs \
     station 1's lines come from standard input, and the answers go to standard output.";

const SERVE_ENDS: &str =
    "The lines of a station, and its answers: a FIFO, a device or a file; or - - to leave the station out";

const ORDERS: &str =
    "Station K may give orders: rule, unrule, delete and expire. The others may not; without --orders each may";

const LOG: &str = "Report the start and the end of each station on standard error";

const STOP_AT_FAULT: &str = "End with status 5 as soon as the device has failed";

const SHOW: &str = "Answers one query of a disk file, and changes nothing.";

const DUMP: &str =
    "Prints the register of a disk file as text, a line for each entry, and changes nothing.";

const LOAD: &str =
    "Makes a disk file with the register of a dump. The settings may have other limits than the disk that was dumped.";

const CHECK: &str = "Reads both sides of a disk file, prints what is damaged, and changes nothing.";

const REST: &str =
    "Print the register as dump does, without what is damaged; report on standard error what it lacks";

const AFTER: &str = "Example: tetra-switch < station1.txt > answers.txt

Exit status: 0 each line was answered; 1 a line was bad, or an answer was an outage word; 2 the command line is \
     wrong; 3 settings, or a dump; 4 a file; 5 the disk, or no memory.";

const AFTER_FORMAT: &str = "Example: tetra-switch format settings.toml centre.disk

Exit status: 0 the disk file is made; 2 the command line is wrong; 3 the settings are not five numbers in TOML; 4 the \
     settings can't be read, or the disk file exists or can't be made; 5 no disk has these limits, the disk failed, or \
     no memory.";

const AFTER_RUN: &str = "Example: tetra-switch run centre.disk station1.txt station2.txt

Exit status: 0 each line was answered; 1 a line was bad, or an answer was an outage word; 2 the command line is \
     wrong, a file is named twice, there are more files than stations, or --orders names a station that is not served; \
     4 a file can't be read or written; 5 the disk file holds no register or the disk failed, or no memory.";

const AFTER_SERVE: &str = "Example: tetra-switch serve centre.disk station1.in station1.out

Exit status: 0 each line was answered; 1 a line was bad, or an answer was an outage word; 2 the command line is \
     wrong, an IN is named twice, only one of IN and OUT is -, there are more pairs than stations, or --orders names a \
     station that is not served; 4 a file can't be read or written; 5 the disk file holds no register or the disk \
     failed, or no memory.";

const AFTER_SHOW: &str = "Example: tetra-switch show centre.disk where 234-14-2001

Exit status: 0 the query was answered; 1 it is no query, or the answer was an outage word; 2 the command line is \
     wrong; 4 the disk file can't be read; 5 it holds no register or the disk failed, or no memory.";

const AFTER_DUMP: &str = "Example: tetra-switch dump centre.disk > centre.txt

Exit status: 0 the register is printed; 2 the command line is wrong; 4 the disk file can't be read, or the dump can't \
     be written; 5 it holds no register or the disk failed, or no memory.";

const AFTER_LOAD: &str = "Example: tetra-switch load centre.txt settings.toml centre.disk

Exit status: 0 the disk file is made; 2 the command line is wrong; 3 the settings are not five numbers in TOML, or a \
     line of the dump is wrong or does not fit them; 4 the dump or the settings can't be read, or the disk file exists \
     or can't be made; 5 no disk has these limits, the disk failed, or no memory.";

const AFTER_CHECK: &str = "Example: tetra-switch check centre.disk

With --rest: tetra-switch check --rest centre.disk > rest.txt

Exit status: 0 no damage was found (with --rest: nothing lacks); 2 the command line is wrong; 4 the disk file can't be \
     read, or the text can't be written; 5 a sector is damaged, the file holds no register or the disk failed, or no \
     memory.";
