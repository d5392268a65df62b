//! Makes a register of the rows of its image, taken one after another.
ghost use Rattle.std.specs.Prelude.{◌≡◌, IfOk, IfSome, IsSome, IsTrue, None, OnErr, Some, false, option_map, replicate, true};
ghost use Rattle.std.specs.Option.{is_some};
ghost use Rattle.image_rows.specs.RowReading.{row_in};
ghost use Rattle.image_rows.specs.Loading.{begun, finished};
ghost use Rattle.image_rows.specs.Held.{needs_memory, taken_from};

use crate::judging::all_done;
use crate::{Header, putting, read_row};
use centre_core::{LastAccepted, Parts, Register};
use group_attach::Groups;
use mailbox::Mail;
use registration::{Limits, Registry};
use std::alloc::{AllocError, Allocator};
use std::marker::Model;

/// Takes the rows of an image one after another.
#[derive(Drop)]
pub struct Loader<A: Allocator> {
    header: Option<Header>,
    parts: Parts<A>,
}

impl<A: Allocator> Model for Loader<A> {
    ghost use Rattle.image_rows.specs.Loading.{Loading};
    ghost use Rattle.image_rows.specs.Held.{IsLoaded, loading};
    ghost use Rattle.image_rows.specs.Inside.Codes.{coded_loading};

    ghost Value = { Loading };

    ghost coded = { coded_loading };

    ghost view = { λ l. loading l.header l.parts };

    ghost invariant = { λ l. IsLoaded (loading l.header l.parts) };
}

// A list for so many stations, none with an accepted command.
fn none_kept<A: Allocator + Clone>(
    alloc: &A,
    stations: u32,
) -> Result<Vec<Option<LastAccepted<A>>, A>, AllocError>
    ensures { IfOk result (λ served. served.items ≡ replicate stations None) }
{
    let mut served = Vec::new(alloc.clone()?);
    for _ in 0..stations {
        served.push(None)?;
    }
    Ok(served)
}

impl<A: Allocator + Clone> Loader<A> {
    /// A loader that has taken no row yet.
    pub fn new(alloc: A, limits: Limits) -> Result<Self, AllocError>
        ensures { IfOk result (λ loader. loader ≡ begun limits) }
    {
        Ok(Loader {
            header: None,
            parts: Parts {
                registry: Registry::new(alloc.clone()?, limits)?,
                groups: Groups::new(alloc.clone()?),
                mail: Mail::new(alloc.clone()?, limits),
                served: none_kept(&alloc, limits.stations)?,
                count: 0,
                alloc,
            },
        })
    }

    /// Takes the next row, and returns whether it did. A row that it does not take changes nothing.
    pub fn take(&mut self, row: &[u8; 512]) -> Result<bool, AllocError>
        ensures taken { IfOk result (λ taken. taken ≡ true → taken_from self.old row.now ≡ Some self.new) }
        ensures refused { IfOk result (λ taken. taken ≡ false → (taken_from self.old row.now ≡ None) × (self.new ≡ self.old)) }
        ensures err { OnErr result (self.new ≡ self.old) }
        ensures memory { OnErr result (IsSome (taken_from self.old row.now)) }
        ensures needed { OnErr result (IfSome (row_in row.now) (λ r. IsTrue (needs_memory r))) }
    {
        match read_row(row) {
            None => Ok(false),
            Some(row) => putting::take(&mut self.header, &mut self.parts, row),
        }
    }

    /// Whether all rows of the image have come.
    pub fn is_whole(&self) -> bool
        ensures { result ≡ is_some (finished self.now) }
    {
        match &self.header {
            None => false,
            Some(header) => all_done(header, &self.parts),
        }
    }

    /// The epoch and the register, once all rows have come.
    pub fn finish(self) -> Option<(u64, Register<A>)>
        ensures { result ≡ finished self }
    {
        let Some(epoch) = self.epoch() else {
            drop(self);
            return None;
        };
        Some((epoch, Register::from_parts(self.parts)))
    }

    // The epoch, once all rows have come.
    fn epoch(&self) -> Option<u64>
        ensures { finished self.now ≡ option_map (λ epoch. (epoch, self.now.state)) result }
    {
        let Some(header) = self.header else {
            return None;
        };
        if !all_done(&header, &self.parts) {
            return None;
        }
        Some(header.epoch)
    }
}
