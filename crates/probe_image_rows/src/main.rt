//! Prints what a loader makes of the sectors of images, case by case, for `tests/disks/image_rows.py`. It reads standard
//! input and writes standard output, and knows nothing of disks.
//!
//! A case is a line of limits (rules, radios, items, stations), a line for each sector, and an empty line. A sector's line has
//! its bytes in hexadecimal digits, without the zeros at its end. The answer is `bad N` if sector N is the first that is not
//! taken or is missing. Else it is `image EPOCH COUNT` and the rows of the register as such lines. An empty line follows.
#![tactic(auto)]

use centre_core::Register;
use image_rows::{Loader, rows};
use registration::Limits;
use std::alloc::{AllocError, Allocator, Global};
use std::io::{self, BufRead, BufReader, BufWriter, Write};

/// The next word as a number.
fn number<'a>(words: &mut std::str::Split<'a, char>) -> Option<u32> {
    words.next()?.parse().ok()
}

/// The limits on a line.
fn limits(line: &str) -> Option<Limits> {
    let mut words = line.split(' ');
    let rules = number(&mut words)?;
    let radios = number(&mut words)?;
    let mail = number(&mut words)?;
    let stations = number(&mut words)?;
    Limits::new(rules, radios, mail, stations)
}

/// The sector that begins with these bytes; what is past 512 of them is left out.
fn sector(bytes: &[u8]) -> [u8; 512] {
    let mut sector = [0; 512];
    for (to, byte) in sector.iter_mut().zip(bytes) {
        *to = *byte;
    }
    sector
}

/// The bytes of a sector without the zeros at its end.
fn trimmed(sector: &[u8; 512]) -> &[u8] {
    let end = sector.iter().rposition(|byte| *byte != 0);
    &sector[..end.map_or(0, |last| last + 1)]
}

/// Offers sectors to a loader until it refuses one, and returns how many it took.
fn offer<A: Allocator + Clone>(
    loader: &mut Loader<A>,
    sectors: &[[u8; 512]],
) -> Result<usize, AllocError> {
    for (taken, sector) in sectors.iter().enumerate() {
        if !loader.take(sector)? {
            return Ok(taken);
        }
    }
    Ok(sectors.len())
}

/// Writes the rows of a register.
fn print_rows<W: Write>(
    alloc: Global,
    out: &mut W,
    epoch: u64,
    register: &Register<Global>,
) -> io::Result<()> {
    for row in rows(register, epoch, alloc)?.iter() {
        let digits = hex::encode(alloc, trimmed(row))?;
        writeln!(out, "{digits}")?;
    }
    Ok(())
}

/// Writes what a loader made of the sectors: the word, and then the image or how many sectors it took.
fn print<W: Write>(
    alloc: Global,
    out: &mut W,
    word: &str,
    taken: usize,
    image: &Option<(u64, Register<Global>)>,
) -> io::Result<()> {
    match image {
        Some((epoch, register)) => {
            writeln!(out, "{word} {epoch} {}", register.count())?;
            print_rows(alloc, out, *epoch, register)
        }
        None => writeln!(out, "{word} {taken}"),
    }
}

/// Answers a case.
fn answer<W: Write>(
    alloc: Global,
    out: &mut W,
    limits: Limits,
    sectors: &[[u8; 512]],
) -> io::Result<()> {
    let mut loader = Loader::new(alloc, limits)?;
    let taken = offer(&mut loader, sectors);
    let word = if loader.is_whole() { "image" } else { "bad" };
    let image = loader.finish();
    let printed = match taken {
        Ok(taken) => print(alloc, out, word, taken, &image),
        Err(e) => Err(e.into()),
    };
    drop(image);
    printed
}

/// The case that is being read.
#[derive(Drop)]
struct Case {
    limits: Option<Limits>,
    sectors: Vec<[u8; 512], Global>,
}

impl Case {
    /// Takes a line, and answers the case if the line ends it.
    fn take_line<W: Write>(&mut self, alloc: Global, out: &mut W, line: &str) -> io::Result<()> {
        let Some(case_limits) = self.limits else {
            self.limits = limits(line);
            return self
                .limits
                .map(|_| ())
                .ok_or(io::ErrorKind::InvalidData.into());
        };
        if line.is_empty() {
            answer(alloc, out, case_limits, &self.sectors)?;
            self.limits = None;
            self.sectors.clear();
            return writeln!(out);
        }
        let Ok(bytes) = hex::decode(alloc, line) else {
            return Err(io::ErrorKind::InvalidData.into());
        };
        self.sectors.push(sector(&bytes))?;
        Ok(())
    }
}

fn main(rt: HostRuntime) -> io::Result<()> {
    let alloc = rt.alloc();
    let mut out = BufWriter::new(alloc, io::writer(&rt))?;
    let mut case = Case {
        limits: None,
        sectors: Vec::new(alloc),
    };
    for line in BufReader::new(alloc, rt.reader())?.lines(alloc) {
        case.take_line(alloc, &mut out, &line?)?;
    }
    out.flush()
}
