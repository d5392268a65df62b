//! What the program writes beside the answers.
ghost use Rattle.std.specs.Prelude.{◌≡◌, ◌++◌, OnOk, codes, decimal};
ghost use Rattle.std.specs.Io.KnownBytes.{Appends};
ghost use Rattle.served_disk.specs.Printing.{formatted_text, loaded_text, part_text, parts_text, sectors_text, station_text};

use itoa::Buffer;
use registration::Station;
use std::io;
use std::io::Write;

/// A part of a line that is printed.
#[derive(Clone, Copy)]
pub(crate) enum LinePart<'a> {
    Text(&'a str),
    Number(u64),
}

fn print_part<W: Write>(out: &mut W, part: &LinePart) -> io::Result<()>
    ensures { OnOk result (Appends (W.contents out.old) (W.contents out.new) (part_text part.now)) }
{
    match part {
        LinePart::Text(text) => out.write_all(text.as_bytes()),
        LinePart::Number(number) => {
            let mut digits = Buffer::new();
            out.write_all(digits.format(*number).as_bytes())
        }
    }
}

/// Writes these parts, one after the other.
pub(crate) fn print<W: Write>(out: &mut W, parts: &[LinePart]) -> io::Result<()>
    ensures { OnOk result (Appends (W.contents out.old) (W.contents out.new) (parts_text parts.now)) }
{
    for part in parts {
        print_part(out, part)?;
    }
    Ok(())
}

/// Writes what was done, and of how many sectors the disk is.
#[tactic(auto, using(std::proofs::Common::append_assoc))]
fn print_sectors<W: Write>(out: &mut W, done: &str, sectors: u64) -> io::Result<()>
    ensures { OnOk result (Appends (W.contents out.old) (W.contents out.new) (sectors_text done.now sectors)) }
{
    let parts = [
        LinePart::Text(done),
        LinePart::Number(sectors),
        LinePart::Text(" sectors\n"),
    ];
    print(out, &parts)
}

/// Writes that a disk of this many sectors was made for an empty register.
pub fn print_formatted<W: Write>(out: &mut W, sectors: u64) -> io::Result<()>
    ensures { OnOk result (Appends (W.contents out.old) (W.contents out.new) (formatted_text sectors)) }
{
    print_sectors(out, "formatted ", sectors)
}

/// Writes that a disk of this many sectors was made for a register that was loaded.
pub fn print_loaded<W: Write>(out: &mut W, sectors: u64) -> io::Result<()>
    ensures { OnOk result (Appends (W.contents out.old) (W.contents out.new) (loaded_text sectors)) }
{
    print_sectors(out, "loaded ", sectors)
}

/// Writes a station, and the name of the file that its lines were in.
fn print_name<W: Write>(out: &mut W, station: Station, name: &str) -> io::Result<()>
    ensures { OnOk result (Appends (W.contents out.old) (W.contents out.new) (station_text station name.now)) }
{
    let parts = [
        LinePart::Text("station "),
        LinePart::Number(u64::from(station.number())),
        LinePart::Text(" "),
        LinePart::Text(name),
        LinePart::Text("\n"),
    ];
    print(out, &parts)
}

/// Writes a station, the name of the file that its lines were in, and its answers.
pub fn print_station<W: Write>(
    out: &mut W,
    station: Station,
    name: &str,
    answers: &[u8],
) -> io::Result<()>
    ensures { OnOk result (Appends (W.contents out.old) (W.contents out.new) (station_text station name.now ++ answers.now)) }
{
    print_name(out, station, name)?;
    out.write_all(answers)
}
