//! Laws on the bytes of commands. They hold of all bytes and all commands.

ghost use Rattle.std.specs.Prelude.{◌≡◌, ◌≤◌, ◌++◌, ℕ, List, [], Some, length};
ghost use Rattle.centre_core.specs.Asked.{Asked};
ghost use Rattle.identity.specs.Packed.{AreBytes};
ghost use Rattle.command_bytes.specs.Reading.{command_of, first_command};
ghost use Rattle.command_bytes.specs.Text.{IsCommand, Spells, command_text, longest};

use std::alloc::Allocator;

/// Bytes spell at most one command.
pub fn spelled_once<A: Allocator>()
    ensures { (c d : Asked A) (bytes : List ℕ) → Spells c bytes → Spells d bytes → c ≡ d }
{}

/// No command's text is a prefix of another's.
pub fn none_begins_another<A: Allocator>()
    ensures { (c d : Asked A) (text other more : List ℕ) → Spells c text → Spells d other → other ≡ text ++ more
        → (c ≡ d) × (more ≡ []) }
{}

/// What is written is read back, alone or with any bytes after it. What is read is spelled so.
pub fn read_back<A: Allocator>()
    ensures whole { (c : Asked A) → IsCommand c → command_of (command_text c) ≡ Some c }
    ensures first { (c : Asked A) (rest : List ℕ) → IsCommand c → first_command (command_text c ++ rest) ≡ Some (c, rest) }
    ensures only { (c : Asked A) (bytes rest : List ℕ) → AreBytes bytes → first_command bytes ≡ Some (c, rest)
        → IsCommand c × (bytes ≡ command_text c ++ rest) }
{}

/// No command's text is longer than `longest`.
pub fn longest<A: Allocator>()
    ensures { (c : Asked A) (bytes : List ℕ) → Spells c bytes → length bytes ≤ longest }
{}
