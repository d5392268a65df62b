//! Reads the words of a command line by clap.
ghost use Rattle.std.specs.Prelude.{◌≡◌, ◌⊎◌, ◌*◌, ◌/◌, [], IfOk, IfErr, None, Some, length, map, option_and_then, option_map, take};
ghost use Rattle.clap.specs.Words.{all_of, first_of, found_of, rows_of, subcommand_of, subcommand_rows_of};
ghost use Rattle.command_line.specs.Asked as spec;
ghost use Rattle.command_line.specs.Program.{program};
ghost use Rattle.command_line.specs.declared.request.Refusal.TheVariants.{Missing, NoMemory};

use crate::program::program;
use crate::request::{Refusal, Request, refusal_of};
use clap::ArgMatches;
use std::alloc::{AllocError, Global};
use std::convert::AsStr;

/// The request of a command line, whose first word is the program's name. Without further words it is to serve
/// standard input over a register in memory. Else clap reads the words: `format SETTINGS DISK`,
/// `run [--orders K]... DISK FILE...`, `serve [--orders K]... [--log] [--stop-at-fault] DISK [IN OUT]...`,
/// `show DISK WORD...`, `dump DISK`, `load DUMP SETTINGS DISK` or `check [--rest] DISK`. A word after `--` is never read as a flag.
///
/// # Errors
/// `Help` for `--help` or `-h`, also of a subcommand; `Version` for `--version` or `-V`. `Wrong` or `Missing` for every
/// other command line that is no request. `NoMemory` where memory ran out.
pub fn read_command_line<'a, S: AsStr>(
    alloc: Global,
    words: &'a [S],
) -> Result<Request<'a>, Refusal>
    ensures asked { IfOk result (λ request. spec.Asks (map S.text words.now) (spec.asked_by request)) }
    ensures refused { IfErr result (spec.Refuses (map S.text words.now)) }
{
    if words.len() <= 1 {
        return Ok(Request::Memory);
    }
    let matches = matches_of(alloc, words)?;
    requested(alloc, &matches)
}

/// The result of clap for the words.
fn matches_of<'a, S: AsStr>(alloc: Global, words: &'a [S]) -> Result<ArgMatches<'a>, Refusal>
    ensures taken { IfOk result (λ matches. (spec.faults (map S.text words.now) ≡ [])
        × (subcommand_rows_of matches ≡ subcommand_of program (map S.text words.now))) }
    ensures refused { IfErr result (spec.ReportsOne (spec.faults (map S.text words.now))) }
{
    let command = program(alloc)?;
    match command.try_get_matches_from(words) {
        Ok(matches) => Ok(matches),
        Err(error) => Err(refusal_of(error)),
    }
}

/// The request of clap's result; `Missing` where a word is missing.
fn requested<'a>(alloc: Global, matches: &ArgMatches<'a>) -> Result<Request<'a>, Refusal>
    ensures asked { IfOk result (λ request. option_and_then spec.asked_of (subcommand_rows_of matches.now) ≡ Some (spec.asked_by request)) }
    ensures refused { IfErr result (λ refusal. (refusal ≡ NoMemory)
        ⊎ ((refusal ≡ Missing) × (option_and_then spec.asked_of (subcommand_rows_of matches.now) ≡ None))) }
{
    match request_in(alloc, matches)? {
        Some(request) => Ok(request),
        None => Err(Refusal::Missing),
    }
}

/// The request of the subcommand that clap found; `None` where a word is missing.
fn request_in<'a>(
    alloc: Global,
    matches: &ArgMatches<'a>,
) -> Result<Option<Request<'a>>, AllocError>
    ensures { IfOk result (λ request. option_map spec.asked_by request ≡ option_and_then spec.asked_of (subcommand_rows_of matches.now)) }
{
    match matches.subcommand() {
        Some((name, found)) => request_of(alloc, name, found),
        None => Ok(None),
    }
}

/// The request of a subcommand with the words that clap found; `None` where one is missing.
fn request_of<'a>(
    alloc: Global,
    name: &str,
    found: &ArgMatches<'a>,
) -> Result<Option<Request<'a>>, AllocError>
    ensures { IfOk result (λ request. option_map spec.asked_by request ≡ spec.asked_of (name.now, rows_of (found_of found.now))) }
{
    if name == "format" {
        return Ok(format_of(found));
    }
    if name == "run" {
        return run_of(alloc, found);
    }
    if name == "serve" {
        return serve_of(alloc, found);
    }
    if name == "show" {
        return show_of(alloc, found);
    }
    Ok(dump_load_or_check_of(name, found))
}

/// The request of `dump`, `load` or `check`, with the words that clap found; `None` where one is missing.
fn dump_load_or_check_of<'a>(name: &str, found: &ArgMatches<'a>) -> Option<Request<'a>>
    ensures { option_map spec.asked_by result ≡ spec.dump_load_or_check_in (name.now, rows_of (found_of found.now)) }
{
    if name == "dump" {
        return dump_of(found);
    }
    if name == "load" {
        return load_of(found);
    }
    if name == "check" {
        return check_of(found);
    }
    None
}

fn format_of<'a>(found: &ArgMatches<'a>) -> Option<Request<'a>>
    ensures { option_map spec.asked_by result ≡ spec.format_in (rows_of (found_of found.now)) }
{
    let (settings, disk) = settings_and_disk(found)?;
    Some(Request::Format { settings, disk })
}

fn run_of<'a>(alloc: Global, found: &ArgMatches<'a>) -> Result<Option<Request<'a>>, AllocError>
    ensures { IfOk result (λ request. option_map spec.asked_by request ≡ spec.run_in (rows_of (found_of found.now))) }
{
    let Some(orders) = orders_of(alloc, found)? else {
        return Ok(None);
    };
    match disk_and_words(alloc, found, "FILE")? {
        Some((disk, files)) => Ok(Some(Request::Run {
            disk,
            files,
            orders,
        })),
        None => Ok(None),
    }
}

fn serve_of<'a>(alloc: Global, found: &ArgMatches<'a>) -> Result<Option<Request<'a>>, AllocError>
    ensures { IfOk result (λ request. option_map spec.asked_by request ≡ spec.serve_in (rows_of (found_of found.now))) }
{
    let Some(orders) = orders_of(alloc, found)? else {
        return Ok(None);
    };
    let Some(disk) = word(found, "DISK") else {
        return Ok(None);
    };
    match paired(alloc, all_words(found, "END").unwrap_or(&[]))? {
        Some(pairs) => Ok(Some(Request::Serve {
            disk,
            pairs,
            orders,
            log: flag(found, "log"),
            stop_at_fault: flag(found, "stop-at-fault"),
        })),
        None => Ok(None),
    }
}

/// Whether a flag was given: clap then has the text `true` for it.
fn flag(found: &ArgMatches<'_>, name: &str) -> bool
    ensures { result ≡ spec.is_given name.now (rows_of (found_of found.now)) }
{
    match word(found, name) {
        Some(text) => text == "true",
        None => false,
    }
}

/// The stations that `--orders` names. `None` if a word of it is none, which clap refuses.
fn orders_of<'a>(alloc: Global, found: &ArgMatches<'a>) -> Result<Option<Vec<u16>>, AllocError>
    ensures { IfOk result (λ orders. option_map (λ o. o.items) orders ≡ spec.orders_in (rows_of (found_of found.now))) }
{
    stations_of(alloc, all_words(found, "orders").unwrap_or(&[]))
}

/// The stations that words name; `None` if one is none.
fn stations_of(alloc: Global, words: &[&str]) -> Result<Option<Vec<u16>>, AllocError>
    ensures { IfOk result (λ stations. option_map (λ s. s.items) stations ≡ spec.stations_in (map (λ word. word.now) words.now)) }
{
    let mut stations = Vec::new(alloc);
    for index in 0..words.len() {
        let Some(station) = station_of(words[index]) else {
            return Ok(None);
        };
        stations.push(station)?;
    }
    Ok(Some(stations))
}

/// The station that a word names; `None` if it is no number from 1 to 65,535.
fn station_of(word: &str) -> Option<u16>
    ensures { result ≡ spec.station_in word.now }
{
    match word.parse::<u16>() {
        Ok(number) if number > 0 => Some(number),
        _ => None,
    }
}

/// The words in pairs; `None` if their number is odd.
fn paired<'a>(
    alloc: Global,
    words: &[&'a str],
) -> Result<Option<Vec<(&'a str, &'a str)>>, AllocError>
    ensures { IfOk result (λ pairs. option_map (λ p. spec.pair_texts p.items) pairs ≡ spec.paired (map (λ word. word.now) words.now)) }
{
    let pairs = whole_pairs(alloc, words)?;
    if words.len() % 2 == 0 {
        Ok(Some(pairs))
    } else {
        Ok(None)
    }
}

/// The words in pairs, without the last word if their number is odd.
fn whole_pairs<'a>(alloc: Global, words: &[&'a str]) -> Result<Vec<(&'a str, &'a str)>, AllocError>
    ensures { IfOk result (λ pairs. spec.paired (map (λ word. word.now) (take (2 * (length words.now / 2)) words.now)) ≡ Some (spec.pair_texts pairs.items)) }
{
    let mut pairs = Vec::new(alloc);
    for index in 0..words.len() / 2 {
        pairs.push((words[2 * index], words[2 * index + 1]))?;
    }
    Ok(pairs)
}

fn show_of<'a>(alloc: Global, found: &ArgMatches<'a>) -> Result<Option<Request<'a>>, AllocError>
    ensures { IfOk result (λ request. option_map spec.asked_by request ≡ spec.show_in (rows_of (found_of found.now))) }
{
    match disk_and_words(alloc, found, "WORD")? {
        Some((disk, words)) => Ok(Some(Request::Show { disk, words })),
        None => Ok(None),
    }
}

fn dump_of<'a>(found: &ArgMatches<'a>) -> Option<Request<'a>>
    ensures { option_map spec.asked_by result ≡ spec.dump_in (rows_of (found_of found.now)) }
{
    let disk = word(found, "DISK")?;
    Some(Request::Dump { disk })
}

fn load_of<'a>(found: &ArgMatches<'a>) -> Option<Request<'a>>
    ensures { option_map spec.asked_by result ≡ spec.load_in (rows_of (found_of found.now)) }
{
    let dump = word(found, "DUMP")?;
    let (settings, disk) = settings_and_disk(found)?;
    Some(Request::Load {
        dump,
        settings,
        disk,
    })
}

fn check_of<'a>(found: &ArgMatches<'a>) -> Option<Request<'a>>
    ensures { option_map spec.asked_by result ≡ spec.check_in (rows_of (found_of found.now)) }
{
    let disk = word(found, "DISK")?;
    let rest = flag(found, "rest");
    Some(Request::Check { disk, rest })
}

/// The settings and the disk that clap found.
fn settings_and_disk<'a>(found: &ArgMatches<'a>) -> Option<(&'a str, &'a str)>
    ensures { option_map spec.two_texts result ≡ spec.settings_and_disk (rows_of (found_of found.now)) }
{
    let settings = word(found, "SETTINGS")?;
    let disk = word(found, "DISK")?;
    Some((settings, disk))
}

/// The disk that clap found, and all the words under a name.
fn disk_and_words<'a>(
    alloc: Global,
    found: &ArgMatches<'a>,
    name: &str,
) -> Result<Option<(&'a str, Vec<&'a str>)>, AllocError>
    ensures { IfOk result (λ words. option_map spec.texts_of words ≡ spec.disk_and_words name.now (rows_of (found_of found.now))) }
{
    let Some(disk) = word(found, "DISK") else {
        return Ok(None);
    };
    let Some(words) = all_words(found, name) else {
        return Ok(None);
    };
    let words = Vec::from_slice(alloc, words)?;
    Ok(Some((disk, words)))
}

/// The word that clap found under a name.
fn word<'a>(found: &ArgMatches<'a>, name: &str) -> Option<&'a str>
    ensures { option_map (λ word. word.now) result ≡ first_of name.now (rows_of (found_of found.now)) }
{
    found.get_str(name)
}

/// All the words that clap found under a name.
fn all_words<'m, 'a>(found: &'m ArgMatches<'a>, name: &str) -> Option<&'m [&'a str]>
    ensures { option_map (λ words. map (λ word. word.now) words.now) result ≡ all_of name.now (rows_of (found_of found.now)) }
{
    found.get_strs(name)
}
