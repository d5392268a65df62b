//! How full a register is, as a line. Each `put_` adds its text; when memory runs out, a prefix of it.
ghost use Rattle.std.specs.Prelude.{◌≡◌, ◌≤◌, ◌<◌, ◌+◌, ◌++◌, OnOk, OnErr, codes, count_by, length, vec_len, vec_capacity};
ghost use Rattle.std.specs.Option.{is_some};
ghost use Rattle.identity.specs.NumberText.{IsPrefixOf};
ghost use Rattle.listings.specs.Fullest.{fullest};
ghost use Rattle.listings.specs.Inside.Fuller.{fuller};
ghost use Rattle.listings.specs.Parts.{answer_room};
ghost use Rattle.listings.specs.Texts.{fullest_words, room_words, used_words};

use crate::part::{Part, put_parts};
use centre_core::{LastAccepted, Register};
use identity::Itsi;
use mailbox::Mail;
use std::alloc::{AllocError, Allocator};

/// The most items that may wait for one destination.
const MOST_FOR_ONE: u64 = 128;

/// The fuller of two mailboxes, by how many items wait; the first if they are as full.
fn fuller(first: Option<(Itsi, usize)>, destination: Itsi, count: usize) -> Option<(Itsi, usize)>
    ensures { result ≡ fuller first (destination, count) }
{
    match first {
        Some((_, most)) if count <= most => first,
        _ => Some((destination, count)),
    }
}

/// The destination for which most items wait, and how many; of several the one whose first item comes first.
fn fullest<B: Allocator>(mail: &Mail<B>) -> Option<(Itsi, usize)>
    ensures { result ≡ fullest mail.now.items }
{
    mailbox::laws::in_order(mail);
    let mut kept = None;
    let mut after = None;
    for _ in 0..mail.len() {
        let Some(item) = mail.next(after) else {
            return kept;
        };
        let key = item.key();
        let count = mail.items_of(key.destination).len();
        kept = fuller(kept, key.destination, count);
        after = Some((item.number(), key));
    }
    kept
}

/// How many stations have an accepted command.
pub(crate) fn used_stations<B: Allocator>(served: &[Option<LastAccepted<B>>]) -> usize
    ensures { result ≡ count_by is_some served.now }
{
    served.iter().filter(|last| last.is_some()).count()
}

#[tactic(auto, using(std::proofs::Common::append_assoc))]
fn put_used<A: Allocator, B: Allocator + Clone>(
    out: &mut Vec<u8, A>,
    register: &Register<B>,
) -> Result<(), AllocError>
    ensures ok { OnOk result (out.new.items ≡ out.old.items ++ used_words register.now) }
    ensures err { OnErr result (IsPrefixOf out.old.items out.new.items) }
    ensures full { OnErr result (vec_capacity out.old < vec_len out.old + length (used_words register.now)) }
    ensures capacity { vec_capacity out.old ≤ vec_capacity out.new }
    ensures fits { OnOk result (vec_len out.new + 512 ≤ vec_len out.old + answer_room) }
    ensures line { OnErr result (vec_capacity out.old < vec_len out.old + answer_room) }
{
    let registry = register.registry();
    let limits = registry.limits();
    let line: [Part; 16] = [
        Part::Text("room rules "),
        Part::Number(u64::from(registry.rule_count())),
        Part::Text("/"),
        Part::Number(u64::from(limits.rules)),
        Part::Text(" radios "),
        Part::Number(u64::from(registry.radio_count())),
        Part::Text("/"),
        Part::Number(u64::from(limits.radios)),
        Part::Text(" items "),
        Part::Number(register.mail().len() as u64),
        Part::Text("/"),
        Part::Number(u64::from(limits.mail)),
        Part::Text(" stations "),
        Part::Number(used_stations(register.served()) as u64),
        Part::Text("/"),
        Part::Number(u64::from(limits.stations)),
    ];
    put_parts(out, &line)
}

#[tactic(auto, using(std::proofs::Common::append_assoc))]
fn put_fullest<A: Allocator>(
    out: &mut Vec<u8, A>,
    fullest: Option<(Itsi, usize)>,
) -> Result<(), AllocError>
    ensures ok { OnOk result (out.new.items ≡ out.old.items ++ (codes " fullest " ++ fullest_words fullest ++ codes "\n")) }
    ensures err { OnErr result (IsPrefixOf out.old.items out.new.items) }
    ensures full { OnErr result (vec_capacity out.old < vec_len out.old + length (codes " fullest " ++ fullest_words fullest ++ codes "\n")) }
    ensures capacity { vec_capacity out.old ≤ vec_capacity out.new }
    ensures line { OnErr result (vec_capacity out.old < vec_len out.old + 512) }
{
    let Some((destination, count)) = fullest else {
        let end: [Part; 1] = [Part::Text(" fullest none\n")];
        return put_parts(out, &end);
    };
    let end: [Part; 7] = [
        Part::Text(" fullest "),
        Part::Radio(destination),
        Part::Text(" "),
        Part::Number(count as u64),
        Part::Text("/"),
        Part::Number(MOST_FOR_ONE),
        Part::Text("\n"),
    ];
    put_parts(out, &end)
}

/// Adds the line of what is used of each limit, and of the fullest mailbox.
#[tactic(auto, using(identity::proofs::Printed::printed))]
pub(crate) fn put_room<A: Allocator, B: Allocator + Clone>(
    out: &mut Vec<u8, A>,
    register: &Register<B>,
) -> Result<(), AllocError>
    ensures ok { OnOk result (out.new.items ≡ out.old.items ++ (room_words register.now ++ codes "\n")) }
    ensures err { OnErr result (IsPrefixOf out.old.items out.new.items) }
    ensures full { OnErr result (vec_capacity out.old < vec_len out.old + length (room_words register.now ++ codes "\n")) }
    ensures capacity { vec_capacity out.old ≤ vec_capacity out.new }
    ensures line { OnErr result (vec_capacity out.old < vec_len out.old + answer_room) }
{
    put_used(out, register)?;
    put_fullest(out, fullest(register.mail()))
}
