//! The text of the register on a disk.
ghost use Rattle.std.specs.Prelude.{◌≡◌, IfErr, IfOk, None, OnOk};
ghost use Rattle.file_disk.specs.Disk.{calls_of};
ghost use Rattle.recovery.specs.declared.fault.StoreFault.TheVariants.{DiskFault};
ghost use Rattle.register_text.specs.Dump.{register_bytes};
ghost use Rattle.register_text.specs.Passing.{IsUnwritten, IsWritten};
ghost use Rattle.served_disk.specs.Calls.{IsOnlyRead, IsReadRefused, WasRead, WasReadAtMost};
ghost use Rattle.served_disk.specs.Dumping.{IsDumped, IsDumpedBy, IsOfDiskDump, IsOfDumping, IsUndumped, ReportsDump};
ghost use Rattle.served_disk.specs.Named.{InFile, IsRefusedIn};

use crate::opening::adopt_disk;
use crate::{DiskFiles, Refused};
use centre_core::Register;
use centre_core::laws::registers;
use file_disk::{FileDisk, SectorFile};
use recovery::{Store, StoreFault};
use register_text::{DumpFault, TextSink, write_register};
use sector_disk::Disk;
use std::alloc::{Allocator, Global};

/// Why the register on a disk was not dumped.
#[derive(Clone, Copy, Debug, PartialEq, Eq)]
pub enum DiskDumpFault {
    /// The disk gives no register.
    Opening(StoreFault),
    /// The register's text was not written.
    Writing(DumpFault),
}

/// Writes the text of a register.
pub(crate) fn dump<A: Allocator + Clone, B: Allocator + Clone, W: TextSink>(
    alloc: &A,
    register: &Register<B>,
    out: &mut W,
) -> Result<(), DumpFault>
    ensures dumped { OnOk result (IsDumped (W.contents out.old) (W.contents out.new) register.now) }
    ensures written { OnOk result (IsWritten W.took W.flushed (register_bytes register.now) out.old out.new) }
    ensures unwritten { IfErr result (IsUnwritten W.took W.failed (register_bytes register.now) out.old out.new) }
{
    registers(register);
    write_register(alloc, out, register)
}

/// Writes the text of the register that is kept on a disk. The disk is synced once, and then only read. It is returned, also
/// after a fault.
///
/// # Errors
/// `Opening` for a fault of what is on the disk, for a device that has failed, and if memory ran out. Nothing is written then. Out of
/// memory hides no bad row or record that was read. `Writing` only if the writer failed, or if memory ran out and the writer did not
/// fail. A prefix of the text is written then.
pub fn dump_on<A: Allocator + Copy + Drop, D: Disk, W: TextSink>(
    alloc: A,
    disk: D,
    out: &mut W,
) -> Result<D, (DiskDumpFault, D)>
    ensures dumped { IfOk result (λ d. IsDumpedBy A W.contents W.took W.flushed out.old out.new (D.view disk)) }
    ensures refused { IfErr result (λ e. IsUndumped A W.took W.failed out.old out.new (D.view disk) (D.view e.1) e.0) }
    ensures calls { IfOk result (λ d. WasRead (D.view disk) (D.view d)) }
    ensures some_calls { IfErr result (λ e. WasReadAtMost (e.0 ≡ DiskDumpFault.Opening DiskFault) (D.view disk) (D.view e.1)) }
    ensures kinds { IfErr result (λ e. IsOfDumping e.0) }
{
    let store = match Store::open(alloc, disk) {
        Ok(store) => store,
        Err((fault, disk)) => return Err((DiskDumpFault::Opening(fault), disk)),
    };
    let dumped = dump(&alloc, store.register().unwrap(), out);
    let disk = store.into_disk();
    match dumped {
        Ok(()) => Ok(disk),
        Err(fault) => Err((DiskDumpFault::Writing(fault), disk)),
    }
}

/// Writes the text of the register on the disk in the file of this name. The disk is synced once, and then only read. It is
/// returned.
///
/// # Errors
/// Those of `open_disk`. `File` with `-` only if the writer failed, and `Memory` only if the writer did not fail. If no disk comes back,
/// nothing is written.
pub fn dump_disk<'a, F: SectorFile, R: DiskFiles<F>, W: TextSink>(
    rt: &R,
    alloc: Global,
    name: &'a str,
    out: &mut W,
) -> Result<FileDisk<F>, Refused<'a, F>>
    ensures dumped { IfOk result (λ d. InFile F.view (R.adopted rt.now) name.now (IsDumpedBy Global W.contents W.took W.flushed out.old out.new)) }
    ensures refused { IfErr result (IsRefusedIn F.view (R.adopted rt.now) name.now (ReportsDump (IsUndumped Global W.took W.failed out.old out.new))) }
    ensures calls { IfOk result (λ disk. IsOnlyRead (calls_of disk)) }
    ensures reading { IfErr result (IsReadRefused IsOfDiskDump name.now) }

    // Nothing is written if the file gives no disk.
    ensures untouched { IfErr result (λ e. e.disk ≡ None → out.new ≡ out.old) }
{
    let disk = adopt_disk(rt, name)?;
    match dump_on(alloc, disk, out) {
        Ok(disk) => Ok(disk),
        Err((fault, disk)) => Err(Refused::of_dump(fault, disk)),
    }
}
