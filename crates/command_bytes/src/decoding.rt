// Commands, read from bytes and copied.
ghost use Rattle.std.specs.Prelude.{◌≡◌, IfOk, IfSome, IfNone, IsSome, OnErr, option_map};
ghost use Rattle.centre_core.specs.Asked.{Asked};
ghost use Rattle.centre_core.specs.Ranges.{pdu_of};
ghost use Rattle.command_bytes.specs.Reading.{command_of, first_command, pdu_in};
ghost use Rattle.command_bytes.specs.Text.{Spells};
ghost use Rattle.identity.specs.Packed.{AreBytes};

use crate::command::{first, read_whole};
use centre_core::Command;
use std::alloc::{AllocError, Allocator};

/// The command that the bytes begin with, and the bytes after it; `None` where they begin with no command.
///
/// `AllocError` comes only where there is a command, and it has a PDU.
pub fn decode_first<A: Allocator>(
    alloc: A,
    bytes: &[u8],
) -> Result<Option<(Command<A>, &[u8])>, AllocError>
    ensures exact { IfOk result (λ found. option_map (λ x. (x.0, x.1.now)) found ≡ first_command bytes.now) }
    ensures memory { OnErr result (IsSome (pdu_in (option_map (λ x. x.0) (first_command {A = A} bytes.now)))) }
{
    let Some((found, rest)) = first::<A>(bytes) else {
        return Ok(None);
    };
    Ok(Some((found.copy(alloc)?, rest)))
}

/// The bytes after the command that these begin with, as `decode_first` gives them. It never allocates.
pub fn after_first<A: Allocator>(bytes: &[u8]) -> Option<&[u8]>
    ensures { option_map (λ rest. rest.now) result ≡ option_map (λ x. x.1) (first_command {A = A} bytes.now) }
{
    let (_, rest) = first::<A>(bytes)?;
    Some(rest)
}

// `decode`, with clauses that cite the definition that reads.
fn decode_whole<A: Allocator>(alloc: A, bytes: &[u8]) -> Result<Option<Command<A>>, AllocError>
    ensures exact { IfOk result (λ found. found ≡ command_of bytes.now) }
    ensures memory { OnErr result (IsSome (pdu_in (command_of {A = A} bytes.now))) }
    ensures are { AreBytes bytes.now }
{
    let Some(found) = read_whole::<A>(bytes) else {
        return Ok(None);
    };
    Ok(Some(found.copy(alloc)?))
}

/// The command that all of the bytes spell.
///
/// It is `None` where a value is out of its range, a padding bit is 1, the tag is unknown, or bytes are missing or left
/// over. `AllocError` comes only where the bytes spell a command that has a PDU.
pub fn decode<A: Allocator>(alloc: A, bytes: &[u8]) -> Result<Option<Command<A>>, AllocError>
    ensures found { IfOk result (λ found. IfSome found (λ command. Spells command bytes.now)) }
    ensures none { IfOk result (λ found. IfNone found ((command : Asked A) → Spells command bytes.now → ⊥)) }
    ensures memory { OnErr result ((command : Asked A) × Spells command bytes.now × IsSome (pdu_of command.body)) }
    ensures exact { IfOk result (λ found. found ≡ command_of bytes.now) }
{
    decode_whole(alloc, bytes)
}
