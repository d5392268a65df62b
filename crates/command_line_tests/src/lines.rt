//! Command lines and their requests.

use command_line::{Refusal, Request, read_command_line};
use std::alloc::{AllocError, Global};
use std::test::Fail;

/// The words after the program's name, and their request or refusal.
const LINES: &str = "\
format settings.toml centre.disk = format settings.toml centre.disk
format - s = format - s
format -- -s --help = format -s --help
format s -- d = format s d
format  d = format  d
run centre.disk station1.txt = run centre.disk station1.txt
run run format = run run format
run -- centre.disk -x = run centre.disk -x
run d a b = run d a b
run d a b a = run d a b a
run d a -- -b = run d a -b
serve d = serve d
serve centre.disk 1.in 1.out = serve centre.disk 1.in 1.out
serve d a b c d = serve d a b c d
serve d a a a a = serve d a a a a
serve d - - = serve d - -
serve -- d -a -b = serve d -a -b
serve d a b -- -c -d = serve d a b -c -d
serve d  b = serve d  b
serve d - - a b = serve d - - a b
serve --orders 3 d = serve d orders 3
serve d --orders 3 = serve d orders 3
serve --orders=3 d a b = serve d a b orders 3
serve --orders 3 --orders 1 d a b = serve d a b orders 3 1
serve --orders 3 d a b --orders 3 = serve d a b orders 3 3
serve d a --orders 3 b = serve d a b orders 3
serve --orders 1 -- d a b = serve d a b orders 1
serve d -- --orders 3 = serve d --orders 3
serve --orders 65535 d = serve d orders 65535
serve --orders 007 d = serve d orders 7
serve --orders +7 d = serve d orders 7
serve --log d = serve d log
serve d a b --log = serve d a b log
serve --stop-at-fault d a b = serve d a b stop
serve --log --orders 2 d --stop-at-fault a b = serve d a b orders 2 log stop
serve d -- --log --stop-at-fault = serve d --log --stop-at-fault
run --orders 2 d a = run d a orders 2
run d a b --orders 2 --orders 1 = run d a b orders 2 1
show centre.disk count = show centre.disk count
show centre.disk where 234-14-2001 = show centre.disk where 234-14-2001
show d 1 0 rule 234-14-0/24 1 99 1 3600 = show d 1 0 rule 234-14-0/24 1 99 1 3600
show d where -- -x = show d where -x
show d  where = show d  where
dump centre.disk = dump centre.disk
dump dump = dump dump
dump - = dump -
dump -- -d = dump -d
dump -- --help = dump --help
load centre.txt settings.toml centre.disk = load centre.txt settings.toml centre.disk
load load dump load = load load dump load
load - s d = load - s d
load -- -t -s -d = load -t -s -d
load t -- s -d = load t s -d
load t s -- --help = load t s --help
load  s d = load  s d
check centre.disk = check centre.disk
check check = check check
check dump = check dump
check - = check -
check -- -x = check -x
check -- --help = check --help
check --rest centre.disk = check centre.disk rest
check d --rest = check d rest
check --rest -- -x = check -x rest
check --rest -- --rest = check --rest rest
check -- --rest = check --rest
--help = help
-h = help
-hx = help
--help x = help
--help --version = help
format --help = help
format -h = help
format s d --help = help
run --help = help
serve --help = help
serve d a --help = help
show --help = help
show d where --help = help
dump --help = help
dump -h = help
dump d --help = help
load --help = help
load t s d --help = help
check --help = help
check -h = help
check d --help = help
check --rest --help = help
--version = version
-V = version
--version --help = version
 = wrong
- = wrong
-- = wrong
-- format s d = wrong
x = wrong
-x = wrong
--x = wrong
--help=x = wrong
--version=1 = wrong
--hel = wrong
help = wrong
help format = wrong
serve = wrong
Format s d = wrong
form s d = wrong
format = wrong
format s = wrong
format -- s = wrong
format s d x = wrong
format s d x --help = wrong
format -x s d = wrong
format --settings s d = wrong
format --version = wrong
run = wrong
run d = wrong
run d -- = wrong
run d -1 = wrong
run d a --turns 3 = wrong
run --orders 2 d = wrong
run --orders d a = wrong
run d a --orders = wrong
serve --orders 0 d = wrong
serve --orders -1 d = wrong
serve --orders=-1 d = wrong
serve --orders 65536 d = wrong
serve --orders 1,2 d = wrong
serve --orders 1x d = wrong
serve --orders= d = wrong
serve --orders  d = wrong
serve --order 1 d = wrong
serve --orders 1 = wrong
serve --log = wrong
serve --log --log d = wrong
serve --log=true d = wrong
serve --stop-at-fault= d = wrong
serve --stop d = wrong
run --log d a = wrong
run --stop-at-fault d a = wrong
--log serve d = wrong
serve --log d a = missing
serve -- d --log = missing
show --orders 1 d count = wrong
--orders 1 serve d = wrong
serve --orders 1 d a = missing
serve -x = wrong
serve d -x = wrong
serve d a b -x = wrong
serve d a = missing
serve d a b c = missing
serve d a -- b c = missing
show = wrong
show d = wrong
show d -- = wrong
show d where -x = wrong
show --disk d count = wrong
dump = wrong
dump -- = wrong
dump d e = wrong
dump d -- e = wrong
dump d where = wrong
dump -d = wrong
dump --disk d = wrong
dump d --version = wrong
Dump d = wrong
dum d = wrong
load = wrong
load t = wrong
load t s = wrong
load t s -- = wrong
load -- t s = wrong
load t s d x = wrong
load t s d -- x = wrong
load t s d x --help = wrong
load -t s d = wrong
load t --settings s d = wrong
loads t s d = wrong
check = wrong
check -- = wrong
check d e = wrong
check d -- e = wrong
check --rest = wrong
check --rest d e = wrong
check --rest --rest d = wrong
check --rest=d = wrong
check --res d = wrong
dump --rest d = wrong
check -x = wrong
check --disk d = wrong
check d --version = wrong
Check d = wrong
chec d = wrong";

/// Appends the words of each pair.
fn push_pairs(text: &mut String, pairs: &[(&str, &str)]) -> Result<(), AllocError> {
    for (input, output) in pairs {
        push_words(text, &[*input, *output])?;
    }
    Ok(())
}

fn push_words(text: &mut String, words: &[&str]) -> Result<(), AllocError> {
    for word in words {
        text.push_str(" ")?;
        text.push_str(word)?;
    }
    Ok(())
}

/// Appends the stations that may give orders, if any are named.
fn push_orders(text: &mut String, orders: &[u16]) -> Result<(), AllocError> {
    if orders.is_empty() {
        return Ok(());
    }
    text.push_str(" orders")?;
    for station in orders {
        text.push_str(" ")?;
        push_number(text, *station)?;
    }
    Ok(())
}

/// Appends the word of a flag that was given.
fn push_flag(text: &mut String, given: bool, word: &str) -> Result<(), AllocError> {
    if given {
        text.push_str(word)?;
    }
    Ok(())
}

/// Appends a number in decimal, without zeros before it.
fn push_number(text: &mut String, number: u16) -> Result<(), AllocError> {
    let mut has_begun = false;
    for place in [10_000, 1_000, 100, 10, 1] {
        if has_begun || number >= place {
            text.push(char::from(b'0' + (number / place % 10) as u8))?;
            has_begun = true;
        }
    }
    Ok(())
}

/// A request, as its words.
fn request_text(alloc: Global, request: &Request<'_>) -> Result<String, AllocError> {
    let mut text = String::new(alloc);
    match request {
        Request::Memory => text.push_str("memory")?,
        Request::Format { settings, disk } => {
            text.push_str("format")?;
            push_words(&mut text, &[*settings, *disk])?;
        }
        Request::Run {
            disk,
            files,
            orders,
        } => {
            text.push_str("run")?;
            push_words(&mut text, &[*disk])?;
            push_words(&mut text, files.as_slice())?;
            push_orders(&mut text, orders.as_slice())?;
        }
        Request::Serve {
            disk,
            pairs,
            orders,
            log,
            stop_at_fault,
        } => {
            text.push_str("serve")?;
            push_words(&mut text, &[*disk])?;
            push_pairs(&mut text, pairs.as_slice())?;
            push_orders(&mut text, orders.as_slice())?;
            push_flag(&mut text, *log, " log")?;
            push_flag(&mut text, *stop_at_fault, " stop")?;
        }
        Request::Show { disk, words } => {
            text.push_str("show")?;
            push_words(&mut text, &[*disk])?;
            push_words(&mut text, words.as_slice())?;
        }
        Request::Dump { disk } => {
            text.push_str("dump")?;
            push_words(&mut text, &[*disk])?;
        }
        Request::Load {
            dump,
            settings,
            disk,
        } => {
            text.push_str("load")?;
            push_words(&mut text, &[*dump, *settings, *disk])?;
        }
        Request::Check { disk, rest } => {
            text.push_str("check")?;
            push_words(&mut text, &[*disk])?;
            push_flag(&mut text, *rest, " rest")?;
        }
    }
    Ok(text)
}

fn refusal_name(refusal: &Refusal) -> &'static str {
    match refusal {
        Refusal::Help(_) => "help",
        Refusal::Version(_) => "version",
        Refusal::Wrong(_) => "wrong",
        Refusal::Missing => "missing",
        Refusal::NoText => "no text",
        Refusal::NoMemory => "no memory",
    }
}

/// The request or the refusal of words, as a text.
fn answer(alloc: Global, words: &[&str]) -> Result<String, AllocError> {
    match read_command_line(alloc, words) {
        Ok(request) => request_text(alloc, &request),
        Err(refusal) => String::from_str(alloc, refusal_name(&refusal)),
    }
}

/// Whether the words of a line have the result after ` = `.
fn is_answered(alloc: Global, line: &str) -> Result<bool, Fail> {
    let (given, wanted) = line.split_once(" = ").ok_or("a line without =")?;
    let mut words = Vec::new(alloc);
    words.push("tetra-switch")?;
    for word in given.split(' ') {
        words.push(word)?;
    }
    Ok(answer(alloc, words.as_slice())?.as_str() == wanted)
}

/// The first line with another result.
fn first_wrong(alloc: Global) -> Result<Option<&'static str>, Fail> {
    for line in LINES.lines() {
        if !is_answered(alloc, line)? {
            return Ok(Some(line));
        }
    }
    Ok(None)
}

#[test]
fn words_and_requests(rt: HostRuntime) -> Result<(), Fail> {
    assert_eq!(rt; first_wrong(rt.alloc())?, None);
    Ok(())
}

#[test]
fn no_words(rt: HostRuntime) -> Result<(), Fail> {
    let alloc = rt.alloc();
    assert!(rt; answer(alloc, &[])?.as_str() == "memory");
    assert!(rt; answer(alloc, &["--help"])?.as_str() == "memory");
    Ok(())
}
