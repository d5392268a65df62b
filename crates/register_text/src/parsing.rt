//! Rows, parsed from lines.
ghost use Rattle.std.specs.Prelude.{◌≡◌, IfOk, map};
ghost use Rattle.std.specs.Option.{is_some};
ghost use Rattle.console.specs.Reading.{words};
ghost use Rattle.image_rows.specs.RowViews.{row_view};
ghost use Rattle.register_text.specs.Lines.{row_line};
ghost use Rattle.register_text.specs.Reading.{found_row, line_row, sector_in};
ghost use Rattle.std.specs.Str.{bytes_eq};

use crate::fields::sector_in;
use crate::printing::print_row;
use image_rows::{ReadRow, read_row};
use std::alloc::{AllocError, Allocator};

pub(crate) fn words<A: Allocator>(alloc: A, line: &[u8]) -> Result<Vec<&[u8], A>, AllocError>
    ensures { IfOk result (λ list. map (λ w. w.now) list.items ≡ words line.now) }
{
    line.split(|byte| *byte == b' ').collect(alloc)
}

// The bytes of the row that a line gives, not yet checked.
fn line_sector<A: Allocator + Clone>(
    alloc: &A,
    line: &[u8],
) -> Result<Option<[u8; 512]>, AllocError>
    ensures { IfOk result (λ sector. sector ≡ sector_in (words line.now)) }
{
    let words = words(alloc.clone()?, line)?;
    sector_in(alloc.clone()?, &words)
}

// Whether the line is the row's line.
fn is_line_of<A: Allocator + Clone>(
    alloc: &A,
    line: &[u8],
    row: ReadRow<'_>,
) -> Result<bool, AllocError>
    ensures { IfOk result (λ is. is ≡ bytes_eq (row_line (row_view row.entry)) line.now) }
{
    let mut text = Vec::new(alloc.clone()?);
    print_row(&mut text, alloc, row)?;
    Ok(text.as_slice() == line)
}

/// The sector of the row that a line spells, or `None` if it spells none. The line is without its line feed, and equals
/// the row's line byte by byte.
#[tactic(auto, unfolding(crate::specs::Reading::line_row))]
pub fn parse_row<A: Allocator + Clone>(
    alloc: &A,
    line: &[u8],
) -> Result<Option<[u8; 512]>, AllocError>
    ensures row { IfOk result (λ sector. found_row sector ≡ line_row line.now) }
    ensures none { IfOk result (λ sector. is_some sector ≡ is_some (line_row line.now)) }
{
    let Some(sector) = line_sector(alloc, line)? else {
        return Ok(None);
    };
    let Some(row) = read_row(&sector) else {
        return Ok(None);
    };
    if is_line_of(alloc, line, row)? {
        Ok(Some(sector))
    } else {
        Ok(None)
    }
}
