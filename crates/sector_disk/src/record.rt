// The record that a disk in memory keeps of its calls.
ghost use Rattle.std.specs.Prelude.{◌≡◌, ◌⊎◌, ◌-◌, ◌^◌, ◌<◌, ◌≤◌, [], ◌∷◌, ◌++◌, Err, IfOk, Ok, OnErr, OnOk, if◌then◌else◌, nat_lt, vec_len};
ghost use Rattle.std.specs.Vec.{vec_capacity};
ghost use Rattle.sector_disk.specs.Disk.{one_failure_more};
ghost use Rattle.sector_disk.specs.declared.disk.DiskError.TheVariants.{DiskFault};

use crate::DiskError;
use std::alloc::{AllocError, Allocator};

#[derive(Drop)]
pub(crate) enum Call {
    Read(u64),
    Write(u64, [u8; 512]),
    Sync,
}

// The calls that were answered, in order, and how many were refused because there was no room.
#[derive(Drop)]
pub(crate) struct Record<A: Allocator> {
    calls: Vec<Call, A>,
    room: usize,
    failures: u64,
    ghost roomy: { room ≤ vec_capacity calls },
    ghost counted: { failures ≤ 2 ^ 64 - 1 },
}

impl<A: Allocator> Record<A> {
    pub(crate) fn new(alloc: A, room: usize) -> Result<Self, AllocError>
        ensures { IfOk result (λ made. (made.calls.items ≡ []) × (made.room ≡ room) × (made.failures ≡ 0)) }
    {
        let calls = Vec::with_capacity(alloc, room)?;
        Ok(Record {
            calls,
            room,
            failures: 0,
        })
    }

    // Adds a call, or counts a failure where there is no room.
    pub(crate) fn note(&mut self, call: Call) -> Result<(), DiskError>
        ensures answer { result ≡ (if nat_lt (vec_len self.old.calls) self.old.room then Ok tt else Err DiskFault) }
        ensures noted { OnOk result (self.new.calls.items ≡ self.old.calls.items ++ call ∷ []) }
        ensures refused { OnErr result (self.new.calls ≡ self.old.calls) }
        ensures failures { self.new.failures
            ≡ (if nat_lt (vec_len self.old.calls) self.old.room then self.old.failures else one_failure_more self.old.failures) }
        ensures failed { OnErr result ((self.old.failures < self.new.failures) ⊎ (self.new.failures ≡ 2 ^ 64 - 1)) }
        ensures later { self.old.failures ≤ self.new.failures }
        ensures room { self.new.room ≡ self.old.room }
    {
        if self.calls.len() < self.room && self.calls.push(call).is_ok() {
            return Ok(());
        }
        self.failures = self.failures.saturating_add(1);
        Err(DiskError::DiskFault)
    }

    // Forgets the calls.
    pub(crate) fn clear(&mut self)
        ensures calls { self.new.calls.items ≡ [] }
        ensures kept { (self.new.room ≡ self.old.room) × (self.new.failures ≡ self.old.failures) }
    {
        self.calls.clear();
    }

    pub(crate) fn failures(&self) -> u64
        ensures { result ≡ self.now.failures }
    {
        self.failures
    }
}
