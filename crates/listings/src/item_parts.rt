//! The parts of an item's line that listings and answers share. When memory runs out, a prefix of the text was added.
ghost use Rattle.std.specs.Prelude.{◌≡◌, ◌≤◌, ◌<◌, ◌+◌, ◌++◌, OnOk, OnErr, length, vec_len, vec_capacity};
ghost use Rattle.identity.specs.NumberText.{IsPrefixOf};
ghost use Rattle.listings.specs.Lines.{item_end, key_text};

use crate::part::{Part, put_parts};
use crate::words::kind_word;
use identity::Gtsi;
use mailbox::Key;
use std::alloc::{AllocError, Allocator};

/// Adds an item's key without its destination: message or report, its source, and the message reference.
#[tactic(auto, using(std::proofs::Common::append_assoc))]
pub fn put_key<A: Allocator>(out: &mut Vec<u8, A>, key: Key) -> Result<(), AllocError>
    ensures ok { OnOk result (out.new.items ≡ out.old.items ++ key_text key) }
    ensures err { OnErr result (IsPrefixOf out.old.items out.new.items) }
    ensures full { OnErr result (vec_capacity out.old < vec_len out.old + length (key_text key)) }
    ensures capacity { vec_capacity out.old ≤ vec_capacity out.new }
{
    let words: [Part; 5] = [
        Part::Text(kind_word(key.kind)),
        Part::Text(" "),
        Part::Radio(key.source),
        Part::Text(" "),
        Part::Number(u64::from(key.reference.number())),
    ];
    put_parts(out, &words)
}

/// Adds the end of an item's line, which names the group of a copy, with the line feed.
#[tactic(auto, using(std::proofs::Common::append_assoc))]
pub fn put_item_end<A: Allocator>(
    out: &mut Vec<u8, A>,
    group: Option<Gtsi>,
) -> Result<(), AllocError>
    ensures ok { OnOk result (out.new.items ≡ out.old.items ++ item_end group) }
    ensures err { OnErr result (IsPrefixOf out.old.items out.new.items) }
    ensures full { OnErr result (vec_capacity out.old < vec_len out.old + length (item_end group)) }
    ensures capacity { vec_capacity out.old ≤ vec_capacity out.new }
{
    let Some(group) = group else {
        let end: [Part; 1] = [Part::Text("\n")];
        return put_parts(out, &end);
    };
    let end: [Part; 3] = [Part::Text(" "), Part::Group(group), Part::Text("\n")];
    put_parts(out, &end)
}
