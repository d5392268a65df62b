// The parts of a run of sectors.
ghost use Rattle.std.specs.Prelude.{◌≡◌, ◌≤◌, ◌+◌, ◌*◌, length};
ghost use Rattle.sector_disk.specs.Filling.{part_of};

/// The bytes of the sector k of a run.
pub fn sector_in(bytes: &[u8], k: usize) -> &[u8; 512]
    requires { 512 * k + 512 ≤ length bytes.now }
    ensures { result.now ≡ part_of bytes.now k }
{
    bytes[512 * k..].first_chunk::<512>().unwrap()
}
