//! The figures of a disk, as a line.
ghost use Rattle.std.specs.Prelude.{◌≡◌, IfOk, OnOk};
ghost use Rattle.std.specs.Io.KnownBytes.{Appends};
ghost use Rattle.served_disk.specs.Showing.{AreFigures, epochs_text, figures_line, half_text, side_text};

use crate::Shown;
use crate::printing::{LinePart, print};
use crate::showing::ROOM;
use checkpoint::Side;
use recovery::Figures;
use std::alloc::{AllocError, Allocator};
use std::io;
use std::io::Write;

/// The letter of a side.
pub(crate) fn side_text(side: Side) -> &'static str
    ensures { result.now ≡ side_text side }
{
    match side {
        Side::A => "A",
        Side::B => "B",
    }
}

/// Writes the beginning of a line of figures: its first word, the layout, the side and the epochs.
fn print_epochs<W: Write>(out: &mut W, word: &str, figures: &Figures) -> io::Result<()>
    ensures { OnOk result (Appends (W.contents out.old) (W.contents out.new) (epochs_text word.now figures.now)) }
{
    let parts = [
        LinePart::Text(word),
        LinePart::Text(" layout "),
        LinePart::Number(u64::from(figures.layout)),
        LinePart::Text(" side "),
        LinePart::Text(side_text(figures.side)),
        LinePart::Text(" epoch "),
        LinePart::Number(figures.epoch),
        LinePart::Text(" left "),
        LinePart::Number(figures.epochs_left),
    ];
    print(out, &parts)
}

/// Writes the rest of the line: the first closed gate of the half, how many sectors the half has from that gate on, and how many commands
/// were accepted.
fn print_half<W: Write>(out: &mut W, figures: &Figures) -> io::Result<()>
    ensures { OnOk result (Appends (W.contents out.old) (W.contents out.new) (half_text figures.now)) }
{
    let parts = [
        LinePart::Text(" gate "),
        LinePart::Number(figures.gate),
        LinePart::Text(" free "),
        LinePart::Number(figures.free),
        LinePart::Text(" count "),
        LinePart::Number(figures.count),
        LinePart::Text("\n"),
    ];
    print(out, &parts)
}

/// Writes a line of a disk's figures, with this first word.
#[tactic(auto, using(std::proofs::Common::append_assoc))]
pub(crate) fn print_figures<W: Write>(out: &mut W, word: &str, figures: &Figures) -> io::Result<()>
    ensures { OnOk result (Appends (W.contents out.old) (W.contents out.new) (figures_line word.now figures.now)) }
{
    print_epochs(out, word, figures)?;
    print_half(out, figures)
}

/// Makes the line of a disk's figures.
///
/// # Errors
/// There is no memory for a text of 1,024 bytes.
pub(crate) fn show_figures<A: Allocator + Drop>(
    alloc: A,
    figures: &Figures,
) -> Result<Shown<A>, AllocError>
    ensures shown { IfOk result (λ shown. AreFigures figures.now shown.text.items shown.troubled) }
{
    let mut text = Vec::with_capacity(alloc, ROOM)?;
    match print_figures(&mut text, "disk", figures) {
        Ok(()) => Ok(Shown {
            text,
            troubled: false,
        }),
        Err(_) => Err(AllocError),
    }
}
