//! Refusals: their texts and exit statuses.

use command_line::{Refusal, read_command_line};
use std::alloc::Global;
use std::io;
use std::test::Fail;

/// The refusal of words.
fn refused(alloc: Global, words: &[&str]) -> Result<Refusal, Fail> {
    match read_command_line(alloc, words) {
        Ok(_) => Err(Fail::from("a request")),
        Err(refusal) => Ok(refusal),
    }
}

/// The text of the refusal of words.
fn text_of(alloc: Global, words: &[&str]) -> Result<String, Fail> {
    let refusal = refused(alloc, words)?;
    Ok(format!(in alloc; "{refusal}")?)
}

/// Whether that text has all these parts.
fn text_contains(alloc: Global, words: &[&str], parts: &[&str]) -> Result<bool, Fail> {
    let text = text_of(alloc, words)?;
    for part in parts {
        if !text.as_str().contains(*part) {
            return Ok(false);
        }
    }
    Ok(true)
}

#[test]
fn help_of_the_program(rt: HostRuntime) -> Result<(), Fail> {
    let parts = [
        "Usage: tetra-switch [COMMAND]\n",
        "format",
        "run",
        "serve",
        "show",
        "dump",
        "load",
        "check",
        "--version",
        "Example: tetra-switch < ",
        "Exit status:",
    ];
    assert!(rt; text_contains(rt.alloc(), &["tetra-switch", "--help"], &parts)?);
    Ok(())
}

#[test]
fn help_of_each_subcommand(rt: HostRuntime) -> Result<(), Fail> {
    let alloc = rt.alloc();
    let format = [
        "Usage: tetra-switch format <SETTINGS> <DISK>\n",
        "Example: tetra-switch format ",
        "Exit status:",
    ];
    let run = [
        "Usage: tetra-switch run [--orders <K>]... <DISK> <FILE>...\n",
        "--orders <K>",
        "Example: tetra-switch run ",
        "Exit status:",
    ];
    let serve = [
        "Usage: tetra-switch serve [--orders <K>]... [--log] [--stop-at-fault] <DISK> [<IN> <OUT>]...\n",
        "--orders <K>",
        "--stop-at-fault ",
        "Example: tetra-switch serve ",
        "Exit status:",
    ];
    let show = [
        "Usage: tetra-switch show <DISK> <WORD>...\n",
        "Example: tetra-switch show ",
        "Exit status:",
    ];
    assert!(rt; text_contains(alloc, &["bin/tetra-switch", "format", "--help"], &format)?);
    assert!(rt; text_contains(alloc, &["tetra-switch", "serve", "--help"], &serve)?);
    assert!(rt; text_contains(alloc, &["tetra-switch", "run", "--help"], &run)?);
    assert!(rt; text_contains(alloc, &["tetra-switch", "show", "--help"], &show)?);
    Ok(())
}

#[test]
fn help_of_dump_load_and_check(rt: HostRuntime) -> Result<(), Fail> {
    let alloc = rt.alloc();
    let dump = [
        "Usage: tetra-switch dump <DISK>\n",
        "Example: tetra-switch dump ",
        "Exit status:",
    ];
    let load = [
        "Usage: tetra-switch load <DUMP> <SETTINGS> <DISK>\n",
        "Example: tetra-switch load ",
        "Exit status:",
    ];
    let check = [
        "Usage: tetra-switch check [--rest] <DISK>\n",
        "Example: tetra-switch check ",
        "Exit status:",
    ];
    assert!(rt; text_contains(alloc, &["tetra-switch", "dump", "--help"], &dump)?);
    assert!(rt; text_contains(alloc, &["tetra-switch", "load", "--help"], &load)?);
    assert!(rt; text_contains(alloc, &["tetra-switch", "check", "--help"], &check)?);
    Ok(())
}

#[test]
fn usage_names_the_program(rt: HostRuntime) -> Result<(), Fail> {
    let run = ["\n\nUsage: tetra-switch run [--orders <K>]... <DISK> <FILE>...\n\n"];
    assert!(rt; text_contains(rt.alloc(), &["/a/tetra_switch.old", "run", "d"], &run)?);
    Ok(())
}

#[test]
fn last_in_without_out(rt: HostRuntime) -> Result<(), Fail> {
    let text = text_of(rt.alloc(), &["t", "serve", "d", "1.in", "1.out", "2.in"])?;
    let wanted =
        "error: the last IN has no OUT\n\nUsage: tetra-switch serve [--orders <K>]... [--log] [--stop-at-fault] <DISK> [<IN> <OUT>]...\n\nFor more information, try '--help'.\n";
    assert!(rt; text.as_str() == wanted);
    Ok(())
}

#[test]
fn orders_of_no_station(rt: HostRuntime) -> Result<(), Fail> {
    let text = text_of(rt.alloc(), &["t", "serve", "--orders", "0", "d"])?;
    let wanted =
        "error: invalid value '0' for '--orders <K>': 0 is not in 1..=65535\n\nFor more information, try '--help'.\n";
    assert!(rt; text.as_str() == wanted);
    Ok(())
}

#[test]
fn version(rt: HostRuntime) -> Result<(), Fail> {
    let text = text_of(rt.alloc(), &["tetra-switch", "--version"])?;
    assert!(rt; text.as_str() == "tetra-switch 0.1.0 (disk layouts 1 and 2)\n");
    Ok(())
}

#[test]
fn statuses(rt: HostRuntime) -> Result<(), Fail> {
    let alloc = rt.alloc();
    assert!(rt; refused(alloc, &["t", "--help"])?.status() == 0);
    assert!(rt; refused(alloc, &["t", "--version"])?.status() == 0);
    assert!(rt; refused(alloc, &["t", "run", "d"])?.status() == 2);
    assert!(rt; Refusal::Missing.status() == 2 && Refusal::NoMemory.status() == 5);
    Ok(())
}

#[test]
fn words_that_are_no_text(rt: HostRuntime) {
    let no_text = Refusal::from(io::Error::from(io::ErrorKind::InvalidData));
    let no_memory = Refusal::from(io::Error::from(io::ErrorKind::OutOfMemory));
    assert!(rt; no_text.status() == 2 && no_memory.status() == 5);
}
