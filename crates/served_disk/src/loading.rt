//! A register that is loaded from a dump.
ghost use Rattle.std.specs.Prelude.{◌≡◌, IfErr, IfOk, IfSome};
ghost use Rattle.centre_core.specs.State.{State};
ghost use Rattle.image_rows.specs.Rows.{rows_of};
ghost use Rattle.register_text.specs.Dump.{IsAll, text_read};
ghost use Rattle.register_text.specs.Passing.{IsUnread, IsWhole};
ghost use Rattle.register_text.specs.Text.{IsUnder};
ghost use Rattle.served_disk.specs.Loading.{IsDumpOf, IsOfLoading, IsReadAs, IsReadIn, ReportsLoad};

use crate::Fault;
use centre_core::Register;
use register_text::{TextSource, laws, read_register};
use registration::Limits;
use std::alloc::Global;

/// The register that a dump makes under these limits. The dump is read to its end; `name` is that of its file.
///
/// # Errors
/// `DumpLine` for the first line that can't be taken, and `DumpCut` if the dump is cut. `File` only if the reader failed or gave no end, and
/// no line is at fault in what the reader gave. `Memory` only if no line is at fault in what it gave before its last call.
pub fn load_register<'a, R: TextSource>(
    alloc: Global,
    limits: Limits,
    reader: &mut R,
    name: &'a str,
) -> Result<Register<Global>, Fault<'a>>
    ensures loaded { IfOk result (IsReadIn (IsAll (R.remaining reader.old)) limits) }
    ensures under { IfOk result (λ register. register.registered.limits ≡ limits) }

    // From the text of a register, that register is loaded, under these limits.
    ensures dumped { (s : State) → IsDumpOf s (R.remaining reader.old)
        → IfOk result (λ register. IsUnder limits (rows_of 1 s) register) }
    ensures refused { IfErr result (λ fault. IfSome (R.remaining reader.old) (λ text. IsReadAs (text_read limits text) fault)) }
    ensures kinds { IfErr result (IsOfLoading name.now) }

    // Over any reader: what it gave, and why no more.
    ensures whole { IfOk result (IsReadIn (IsWhole R.gave R.ended reader.old reader.new) limits) }
    ensures unread { IfErr result (ReportsLoad (IsUnread R.gave R.ended R.failed (text_read limits) reader.old reader.new) name.now) }
{
    laws::register_bytes();
    match read_register(alloc, limits, reader) {
        Ok(register) => Ok(register),
        Err(fault) => Err(Fault::of_load(fault, name)),
    }
}
