//! A count that goes on from 0 after the greatest number.
ghost use Rattle.snapshots.specs.Counts.{IsNext};

/// The number after this one: 0 after the greatest.
pub fn next_count(count: u64) -> u64
    ensures { IsNext count result }
{
    if count == u64::MAX {
        return 0;
    }
    count + 1
}
