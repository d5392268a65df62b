//! The lines of a register one after another. Beside the text, only a copy of a PDU needs memory.
ghost use Rattle.std.specs.Prelude.{◌≡◌, ◌++◌, IfOk, OnErr, OnOk, option_map};
ghost use Rattle.image_rows.specs.RowReading.{row_in};
ghost use Rattle.image_rows.specs.Walking.{place_of, row_after};
ghost use Rattle.register_text.specs.Text.{row_ended};

use crate::printing::print_row;
use centre_core::Register;
use centre_core::laws::registers;
use identity::put_whole;
use image_rows::{RowPlace, read_row, row_after};
use std::alloc::{AllocError, Allocator};

// Appends the line of a sector's row, with its line feed; nothing for a sector that is no row.
fn put_line<A: Allocator, B: Allocator + Clone>(
    out: &mut Vec<u8, A>,
    alloc: &B,
    sector: &[u8; 512],
) -> Result<(), AllocError>
    ensures ok { OnOk result (out.new.items ≡ out.old.items ++ row_ended (row_in sector.now)) }
    ensures err { OnErr result (out.new.items ≡ out.old.items) }
{
    let before = out.len();
    let Some(row) = read_row(sector) else {
        return Ok(());
    };
    print_row(out, alloc, row)?;
    let put = out.extend_from_slice(b"\n");
    put_whole(out, before, put)
}

/// Appends the line of the register's first row after the place `after`, or of its first row for `None`, with its line feed. It
/// returns that row's place. After the last row it appends nothing and returns `None`. If memory runs out, `out` is as before.
pub fn line_after<A: Allocator, B: Allocator + Clone, C: Allocator + Clone>(
    out: &mut Vec<u8, A>,
    alloc: &B,
    register: &Register<C>,
    after: Option<RowPlace>,
) -> Result<Option<RowPlace>, AllocError>
    ensures place { IfOk result (λ next. next ≡ option_map place_of (row_after 1 register.now after)) }
    ensures ok { OnOk result (out.new.items ≡ out.old.items ++ row_ended (row_after 1 register.now after)) }
    ensures err { OnErr result (out.new.items ≡ out.old.items) }
{
    registers(register);
    match row_after(register, 1, after) {
        None => Ok(None),
        Some(next) => {
            put_line(out, alloc, &next.1)?;
            Ok(Some(next.0))
        }
    }
}
