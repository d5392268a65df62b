//! Makes a register of the lines of its text, taken one after another.
ghost use Rattle.std.specs.Prelude.{◌≡◌, IfErr, IfOk, IfSome, None, Ok, OnErr, OnOk, Some, false, true};
ghost use Rattle.image_rows.specs.RowReading.{row_in};
ghost use Rattle.image_rows.specs.RowViews.{row_view};
ghost use Rattle.register_text.specs.Faults.{IsFault};
ghost use Rattle.register_text.specs.Inside.Going.{stated_from};
ghost use Rattle.register_text.specs.Reading.{line_row};
ghost use Rattle.register_text.specs.Text.{agrees_with, count_after, is_as_stated, is_head, line_count};
ghost use Rattle.register_text.specs.Text.{head_taken, line_taken, or_spelling, text_begun, text_finished, with_rows};

use crate::cause::Cause;
use crate::head::{count_in, is_head};
use crate::parsing::parse_row;
use centre_core::Register;
use image_rows::{Header, Loader, ReadRow, read_row};
use registration::Limits;
use std::alloc::{AllocError, Allocator};
use std::marker::Model;

/// Why a line was not taken.
#[derive(Clone, Copy, Debug, PartialEq, Eq)]
pub enum TakeFault {
    /// Out of memory.
    Memory,
    /// The line is at fault.
    Line(Cause),
}

/// Takes the lines of a register's text one after another, without their line feeds.
#[derive(Drop)]
pub struct TextLoader<A: Allocator> {
    alloc: A,
    /// How many lines follow, if a line `dump N` stated it. `None` again once the header was taken.
    stated: Option<u64>,
    is_headed: bool,
    loader: Loader<A>,
}

impl<A: Allocator> Model for TextLoader<A> {
    ghost use Rattle.register_text.specs.Text.{TextLoading};
    ghost use Rattle.register_text.specs.Inside.Codes.{coded_text_loading};

    ghost Value = { TextLoading };

    ghost coded = { coded_text_loading };

    ghost view = { λ l. record { stated = l.stated; headed = l.is_headed; rows = l.loader } };
}

// The number that a line states, if none before it did.
fn count_after(stated: Option<u64>, line: &[u8]) -> Option<u64>
    ensures { result ≡ count_after stated line.now }
{
    match stated {
        None => count_in(line),
        Some(_) => None,
    }
}

// How many lines a text has with this header.
fn line_count(header: &Header) -> u64
    ensures { result ≡ line_count header.now }
{
    let rows = u64::from(header.rules)
        + u64::from(header.radios)
        + u64::from(header.mail)
        + u64::from(header.served);
    2 + rows
}

// Whether a row agrees with the number of lines that was stated.
fn row_agrees(stated: u64, row: &ReadRow<'_>) -> bool
    ensures { result ≡ agrees_with stated (row_view row.now) }
{
    match row {
        ReadRow::Header(header) => stated == line_count(header),
        _ => true,
    }
}

// Whether the row of a sector agrees with the number of lines that was stated.
fn agrees_with(stated: u64, sector: &[u8; 512]) -> bool
    ensures { IfSome (row_in sector.now) (λ row. result ≡ agrees_with stated row) }
{
    match read_row(sector) {
        Some(row) => row_agrees(stated, &row),
        None => true,
    }
}

fn is_as_stated(stated: Option<u64>, sector: &[u8; 512]) -> bool
    ensures { IfSome (row_in sector.now) (λ row. result ≡ is_as_stated stated row) }
{
    match stated {
        None => true,
        Some(stated) => agrees_with(stated, sector),
    }
}

// Takes the row of a sector, if it agrees with what was stated and may come next. Returns whether it was taken.
#[tactic(auto, using(crate::proofs::Taking::stated_made, crate::proofs::Taking::stated_refused, crate::proofs::Taking::stated_unlike))]
fn take_stated<A: Allocator + Clone>(
    stated: Option<u64>,
    loader: &mut Loader<A>,
    sector: &[u8; 512],
) -> Result<bool, AllocError>
    ensures taken { IfOk result (λ taken. taken ≡ true → stated_from stated loader.old sector.now ≡ Some loader.new) }
    ensures refused { IfOk result (λ taken. taken ≡ false → (stated_from stated loader.old sector.now ≡ None) × (loader.new ≡ loader.old)) }
    ensures err { OnErr result (loader.new ≡ loader.old) }
{
    if is_as_stated(stated, sector) {
        loader.take(sector)
    } else {
        Ok(false)
    }
}

// Takes the line of a row.
#[tactic(auto, using(crate::proofs::Taking::row_made, crate::proofs::Taking::row_refused, crate::proofs::Taking::no_row))]
fn take_row<A: Allocator + Clone>(
    alloc: &A,
    stated: Option<u64>,
    loader: &mut Loader<A>,
    line: &[u8],
) -> Result<(), TakeFault>
    ensures ok { OnOk result (or_spelling stated loader.old (line_row line.now) ≡ with_rows loader.new) }
    ensures fault { IfErr result (λ fault. IsFault (or_spelling stated loader.old (line_row line.now)) fault) }
    ensures same { OnErr result (loader.new ≡ loader.old) }
{
    let Ok(sector) = parse_row(alloc, line) else {
        return Err(TakeFault::Memory);
    };
    let Some(sector) = sector else {
        return Err(TakeFault::Line(Cause::Spelling));
    };
    let Ok(taken) = take_stated(stated, loader, &sector) else {
        return Err(TakeFault::Memory);
    };
    if !taken {
        return Err(TakeFault::Line(Cause::Place));
    }
    Ok(())
}

impl<A: Allocator + Clone> TextLoader<A> {
    /// A loader that has taken no line yet, for a register with these limits.
    pub fn new(alloc: A, limits: Limits) -> Result<Self, AllocError>
        ensures { IfOk result (λ loader. loader ≡ text_begun limits) }
    {
        Ok(TextLoader {
            loader: Loader::new(alloc.clone()?, limits)?,
            stated: None,
            is_headed: false,
            alloc,
        })
    }

    /// Takes the next line. A line `dump N` may come before the first line; the header must then be that of a text of N lines. A fault
    /// leaves the loader unchanged. So after `Memory` the same line may be tried again.
    #[tactic(auto, unfolding(crate::specs::Text::line_taken))]
    pub fn take(&mut self, line: &[u8]) -> Result<(), TakeFault>
        ensures ok { OnOk result (line_taken self.old line.now ≡ Ok self.new) }
        ensures fault { IfErr result (λ fault. IsFault (line_taken self.old line.now) fault) }
        ensures same { OnErr result (self.new ≡ self.old) }
    {
        if self.is_headed {
            take_row(&self.alloc, self.stated, &mut self.loader, line)?;
            self.stated = None;
            return Ok(());
        }
        match count_after(self.stated, line) {
            None => self.take_head(line),
            Some(count) => {
                self.stated = Some(count);
                Ok(())
            }
        }
    }

    // Takes the first line.
    fn take_head(&mut self, line: &[u8]) -> Result<(), TakeFault>
        ensures ok { OnOk result (head_taken self.old.stated self.old.rows (is_head line.now) ≡ Ok self.new) }
        ensures fault { IfErr result (λ fault. IsFault (head_taken self.old.stated self.old.rows (is_head line.now)) fault) }
        ensures same { OnErr result (self.new ≡ self.old) }
    {
        let Ok(is_first) = is_head(&self.alloc, line) else {
            return Err(TakeFault::Memory);
        };
        if !is_first {
            return Err(TakeFault::Line(Cause::Head));
        }
        self.is_headed = true;
        Ok(())
    }

    /// Whether the first line was taken.
    pub(crate) fn is_headed(&self) -> bool
        ensures { result ≡ self.now.headed }
    {
        self.is_headed
    }

    /// The register, if all its lines were taken.
    pub fn finish(self) -> Option<Register<A>>
        ensures { result ≡ text_finished self }
    {
        let TextLoader { loader, .. } = self;
        match loader.finish() {
            Some((_, register)) => Some(register),
            None => None,
        }
    }
}
