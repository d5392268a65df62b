//! Laws on the program's calls together, by their clauses alone.
//! This function does nothing: calling it gives its clauses.

ghost use Rattle.centre_core.specs.State.{State};
ghost use Rattle.registration.specs.declared.limits.Limits.{Limits};
ghost use Rattle.register_text.specs.declared.load_fault.LoadFault.{LoadFault};
ghost use Rattle.served_disk.specs.RoundTrip.{Copy, HasNoPlace, IsDumpRefused, IsOfDump, KeepsRegister, ReadsBack};

use register_text::{TextSink, TextSource, laws};
use sector_disk::Disk;
use std::alloc::Allocator;

/// A disk that is made of the dump of another, as `dump_on`, `load_register` and `make_disk_with` say, opens to the same register under
/// the new disk's limits, also after a stop at any moment. A load refuses the dump only if memory ran out, the dump was not read, or the
/// register has no place under the limits of the load.
pub fn dumped_and_loaded<A: Allocator, D: Disk, W: TextSink, R: TextSource>()
    // The reader gives what the writer holds.
    ensures known { (copy : Copy A D.view W.contents W.took W.flushed) (reader : R) → ReadsBack copy (R.remaining reader) → KeepsRegister copy }

    // The reader gave the text that was dumped.
    ensures same_text { (copy : Copy A D.view W.contents W.took W.flushed) → IsOfDump copy → KeepsRegister copy }
    ensures refused { (limits : Limits) (s : State) (fault : LoadFault) → IsDumpRefused limits s fault → HasNoPlace limits s fault }
{
    laws::register_bytes();
}
