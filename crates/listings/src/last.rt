//! A station's last accepted command, as a line.
ghost use Rattle.std.specs.Prelude.{◌≡◌, ◌≤◌, ◌<◌, ◌+◌, ◌++◌, IfSome, OnOk, OnErr, codes, decimal, length, vec_len, vec_capacity};
ghost use Rattle.std.specs.Option.{option_copied};
ghost use Rattle.identity.specs.NumberText.{IsPrefixOf};
ghost use Rattle.centre_core.specs.Ranges.{IsShort};
ghost use Rattle.centre_core.specs.Step.{last_at};
ghost use Rattle.listings.specs.Parts.{answer_room};
ghost use Rattle.listings.specs.Texts.{last_words};

use crate::part::{Part, pdu_part, put_parts};
use centre_core::laws::registers;
use centre_core::{LastAccepted, Register};
use registration::Station;
use std::alloc::{AllocError, Allocator};

/// The entry of a station's last accepted command, if there is one.
fn last_of<B: Allocator>(register: &Register<B>, station: Station) -> Option<&LastAccepted<B>>
    ensures last { option_copied result ≡ last_at register.now station }
    ensures short { IfSome (last_at register.now station) (λ last. IsShort last.pdu) }
{
    registers(register);
    let number = usize::from(station.number());
    let served = register.served();
    if number == 0 || number > served.len() {
        return None;
    }
    served[number - 1].as_ref()
}

/// Adds the line of a station's last accepted command.
#[tactic(auto, using(std::proofs::Common::append_assoc))]
pub(crate) fn put_last<A: Allocator, B: Allocator>(
    out: &mut Vec<u8, A>,
    register: &Register<B>,
    station: Station,
) -> Result<(), AllocError>
    ensures ok { OnOk result (out.new.items ≡ out.old.items
        ++ (codes "last " ++ decimal station ++ codes " " ++ last_words (last_at register.now station) ++ codes "\n")) }
    ensures err { OnErr result (IsPrefixOf out.old.items out.new.items) }
    ensures full { OnErr result (vec_capacity out.old < vec_len out.old
        + length (codes "last " ++ decimal station ++ codes " " ++ last_words (last_at register.now station) ++ codes "\n")) }
    ensures capacity { vec_capacity out.old ≤ vec_capacity out.new }
    ensures line { OnErr result (vec_capacity out.old < vec_len out.old + answer_room) }
{
    let number = u64::from(station.number());
    let Some(last) = last_of(register, station) else {
        let line: [Part; 3] = [
            Part::Text("last "),
            Part::Number(number),
            Part::Text(" none\n"),
        ];
        return put_parts(out, &line);
    };
    put_parts(
        out,
        &[
            Part::Text("last "),
            Part::Number(number),
            Part::Text(" "),
            Part::Number(u64::from(last.sequence.number())),
            Part::Text(" "),
            Part::Number(last.number),
            Part::Text(" "),
            pdu_part(&last.pdu),
            Part::Text("\n"),
        ],
    )
}
