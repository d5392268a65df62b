// The sector that a row is written into.
ghost use Rattle.std.specs.Prelude.{◌≡◌, ◌≤◌, ◌+◌, ◌-◌, ◌++◌, [], length, take, drop};
ghost use Rattle.image_rows.specs.RowText.{padded};

use command_bytes::ByteSink;
use std::marker::Model;

/// Bytes at the start of a sector, with zeros after them.
#[derive(Drop)]
pub struct SectorText {
    sector: [u8; 512],
    len: usize,
}

impl Model for SectorText {
    ghost use Rattle.std.specs.Prelude.{◌≡◌, ◌≤◌, ◌-◌, ℕ, List, take, drop, replicate};

    ghost Value = { List ℕ };

    ghost view = { λ s. take s.len s.sector };

    ghost invariant = { λ s. (s.len ≤ 512) × (drop s.len s.sector ≡ replicate (512 - s.len) 0) };
}

// Overwrites the bytes from `at` on.
fn put_at(sector: &mut [u8], at: usize, bytes: &[u8])
    requires { at + length bytes.now ≤ length sector.old }
    ensures { sector.new ≡ take at sector.old ++ bytes.now ++ drop (at + length bytes.now) sector.old }
{
    sector[at..at + bytes.len()].copy_from_slice(bytes);
}

impl SectorText {
    /// No bytes.
    pub fn new() -> SectorText
        ensures { result ≡ [] }
    {
        SectorText {
            sector: [0; 512],
            len: 0,
        }
    }

    /// The sector: the bytes, with zeros after them.
    pub fn finish(self) -> [u8; 512]
        ensures { result ≡ padded self }
    {
        self.sector
    }
}

impl ByteSink for SectorText {
    ghost use Rattle.std.specs.Prelude.{◌-◌, length};

    ghost held = { λ s. s };

    ghost room = { λ s. 512 - length s };

    fn put(&mut self, bytes: &[u8]) {
        put_at(&mut self.sector, self.len, bytes);
        self.len += bytes.len();
    }
}
