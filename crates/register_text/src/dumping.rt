//! A register's text, written to any writer.
ghost use Rattle.std.specs.Prelude.{◌≡◌, ◌++◌, [], IfErr, OnOk, codes, map as each};
ghost use Rattle.std.specs.Io.KnownBytes.{Appends, Keeps, append_known};
ghost use Rattle.register_text.specs.Dump.{ended, register_bytes};
ghost use Rattle.register_text.specs.Inside.Going.{IsHeld, IsRefused};
ghost use Rattle.register_text.specs.Passing.{IsUnwritten, IsWritten};
ghost use Rattle.image_rows.specs.Rows.{rows_of};
ghost use Rattle.register_text.specs.Lines.{row_line};
ghost use Rattle.register_text.specs.Text.{head_line};

use crate::TextSink;
use crate::head::print_head;
use crate::writer::line_after;
use centre_core::Register;
use centre_core::laws::registers;
use registration::Limits;
use std::alloc::{AllocError, Allocator};

/// The text is written once it has so many bytes.
const PIECE: usize = 32768;

/// Why the text of a register is not written.
#[derive(Clone, Copy, Debug, PartialEq, Eq)]
pub enum DumpFault {
    /// Out of memory.
    Memory,
    /// The writer failed.
    Write,
}

fn put_first_line<A: Allocator>(text: &mut Vec<u8, A>, limits: &Limits) -> Result<(), AllocError>
    ensures { OnOk result (text.new.items ≡ text.old.items ++ (head_line limits.now ++ codes "\n")) }
{
    print_head(text, limits)?;
    text.extend_from_slice(b"\n")
}

// Writes the text, and empties it.
fn write_out<W: TextSink, A: Allocator>(out: &mut W, text: &mut Vec<u8, A>) -> Result<(), DumpFault>
    ensures ok { OnOk result (Appends (W.contents out.old) (W.contents out.new) text.old.items) }
    ensures empty { OnOk result (text.new.items ≡ []) }
    ensures took { OnOk result (W.took out.old text.old.items out.new) }
    ensures refused { IfErr result (IsRefused W.failed out.old out.new) }
{
    let Ok(()) = out.write_text(text) else {
        return Err(DumpFault::Write);
    };
    text.clear();
    Ok(())
}

// Writes the text, and empties it, if it has at least `PIECE` bytes.
#[tactic(auto, using(crate::proofs::Written::same, crate::proofs::Written::passed, crate::proofs::Passing::not_called, crate::proofs::Passing::out_taken))]
fn pass_on<W: TextSink, A: Allocator>(out: &mut W, text: &mut Vec<u8, A>) -> Result<(), DumpFault>
    ensures known { OnOk result (Keeps (append_known (W.contents out.old) text.old.items) (append_known (W.contents out.new) text.new.items)) }
    ensures held { OnOk result (IsHeld W.took out.old text.old.items out.new text.new.items []) }
    ensures refused { IfErr result (IsRefused W.failed out.old out.new) }
{
    if text.len() < PIECE {
        return Ok(());
    }
    write_out(out, text)
}

// Appends the lines of all rows to the text, which is written whenever it is long enough. The last lines may still be in it.
fn write_rows<A: Allocator + Clone, B: Allocator + Clone, W: TextSink>(
    alloc: &B,
    out: &mut W,
    text: &mut Vec<u8, B>,
    register: &Register<A>,
) -> Result<(), DumpFault>
    ensures known { OnOk result (Appends (append_known (W.contents out.old) text.old.items) (append_known (W.contents out.new) text.new.items)
        (ended (each row_line (rows_of 1 register.now)))) }
    ensures held { OnOk result (IsHeld W.took out.old text.old.items out.new text.new.items (ended (each row_line (rows_of 1 register.now)))) }
    ensures unwritten { IfErr result (IsUnwritten W.took W.failed (text.old.items ++ ended (each row_line (rows_of 1 register.now))) out.old out.new) }
{
    registers(register);
    let mut after = None;
    for _ in 0..u64::MAX {
        let Ok(next) = line_after(text, alloc, register, after) else {
            return Err(DumpFault::Memory);
        };
        match next {
            None => return Ok(()),
            Some(place) => {
                pass_on(out, text)?;
                after = Some(place);
            }
        }
    }
    Ok(())
}

/// Writes the whole text of a register, and flushes the writer. Only a buffer of some lines and a copy of a PDU need memory.
///
/// # Errors
/// `Write` only if the writer failed, and `Memory` only if the writer did not fail. After a fault a prefix of the text is written.
pub fn write_register<A: Allocator + Clone, B: Allocator + Clone, W: TextSink>(
    alloc: &B,
    out: &mut W,
    register: &Register<A>,
) -> Result<(), DumpFault>
    ensures known { OnOk result (Appends (W.contents out.old) (W.contents out.new) (register_bytes register.now)) }
    // Over any writer: what it took, and why no more.
    ensures written { OnOk result (IsWritten W.took W.flushed (register_bytes register.now) out.old out.new) }
    ensures unwritten { IfErr result (IsUnwritten W.took W.failed (register_bytes register.now) out.old out.new) }
{
    let Ok(own) = alloc.clone() else {
        return Err(DumpFault::Memory);
    };
    let mut text = Vec::new(own);
    let Ok(()) = put_first_line(&mut text, &register.limits()) else {
        return Err(DumpFault::Memory);
    };
    write_rows(alloc, out, &mut text, register)?;
    write_out(out, &mut text)?;
    match out.flush_text() {
        Ok(()) => Ok(()),
        Err(_) => Err(DumpFault::Write),
    }
}
