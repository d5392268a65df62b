//! The first line of a register's text.
ghost use Rattle.std.specs.Prelude.{◌≡◌, ◌++◌, IfOk, OnOk, OnErr, map, option_map};
ghost use Rattle.identity.specs.NumberText.{IsPrefixOf};
ghost use Rattle.console.specs.Reading.{words};
ghost use Rattle.register_text.specs.Reading.{most_4, number_in};
ghost use Rattle.register_text.specs.Text.{head_in, head_line, head_of, head_text, count_in, count_of, is_head, limits_in};

use crate::fields::number_in;
use crate::parsing::words;
use identity::put_whole;
use listings::{Part, put_parts};
use registration::Limits;
use std::alloc::{AllocError, Allocator};

/// The numbers of a first line: the limits of the register whose text it is.
#[derive(Clone, Copy)]
struct Numbers {
    rules: u64,
    radios: u64,
    mail: u64,
    stations: u64,
}

fn put_head<A: Allocator>(out: &mut Vec<u8, A>, numbers: &Numbers) -> Result<(), AllocError>
    ensures ok { OnOk result (out.new.items ≡ out.old.items ++ head_text numbers.now.rules numbers.now.radios numbers.now.mail numbers.now.stations) }
    ensures err { OnErr result (IsPrefixOf out.old.items out.new.items) }
{
    let line: [Part; 8] = [
        Part::Text("tetra-switch register 1 rules "),
        Part::Number(numbers.rules),
        Part::Text(" radios "),
        Part::Number(numbers.radios),
        Part::Text(" items "),
        Part::Number(numbers.mail),
        Part::Text(" stations "),
        Part::Number(numbers.stations),
    ];
    put_parts(out, &line)
}

/// Appends the first line of the text of a register with these limits, without its line feed. If memory runs out,
/// `out` is as before.
pub fn print_head<A: Allocator>(out: &mut Vec<u8, A>, limits: &Limits) -> Result<(), AllocError>
    ensures ok { OnOk result (out.new.items ≡ out.old.items ++ head_line limits.now) }
    ensures err { OnErr result (out.new.items ≡ out.old.items) }
{
    let before = out.len();
    let numbers = Numbers {
        rules: u64::from(limits.rules),
        radios: u64::from(limits.radios),
        mail: u64::from(limits.mail),
        stations: u64::from(limits.stations),
    };
    let put = put_head(out, &numbers);
    put_whole(out, before, put)
}

fn numbers_from(rules: &[u8], radios: &[u8], mail: &[u8], stations: &[u8]) -> Option<Numbers>
    ensures { option_map (λ n. head_text n.rules n.radios n.mail n.stations) result
        ≡ head_of (number_in most_4 rules.now) (number_in most_4 radios.now) (number_in most_4 mail.now) (number_in most_4 stations.now) }
{
    let most = u64::from(u32::MAX);
    let (Some(rules), Some(radios), Some(mail), Some(stations)) = (
        number_in(rules, most),
        number_in(radios, most),
        number_in(mail, most),
        number_in(stations, most),
    ) else {
        return None;
    };
    Some(Numbers {
        rules,
        radios,
        mail,
        stations,
    })
}

// The numbers of the words `rules N radios N items N stations N`.
fn limits_in(words: &[&[u8]]) -> Option<Numbers>
    ensures { option_map (λ n. head_text n.rules n.radios n.mail n.stations) result ≡ limits_in (map (λ w. w.now) words.now) }
{
    match words {
        [_, rules, _, radios, _, mail, _, stations] => numbers_from(rules, radios, mail, stations),
        _ => None,
    }
}

// The numbers of all words of a first line.
fn numbers_in(words: &[&[u8]]) -> Option<Numbers>
    ensures { option_map (λ n. head_text n.rules n.radios n.mail n.stations) result ≡ head_in (map (λ w. w.now) words.now) }
{
    match words {
        [_, _, _, numbers @ ..] => limits_in(numbers),
        _ => None,
    }
}

fn numbers_of<A: Allocator>(alloc: A, line: &[u8]) -> Result<Option<Numbers>, AllocError>
    ensures { IfOk result (λ numbers. option_map (λ n. head_text n.rules n.radios n.mail n.stations) numbers ≡ head_in (words line.now)) }
{
    let words = words(alloc, line)?;
    Ok(numbers_in(&words))
}

fn count_of(word: &[u8], number: &[u8]) -> Option<u64>
    ensures { result ≡ count_of word.now number.now }
{
    if word == b"dump ".as_slice() {
        number_in(number, u64::MAX)
    } else {
        None
    }
}

/// The number of lines that follow, if a line states it: `dump N`.
#[tactic(auto, using(crate::proofs::Counted::none_short, crate::proofs::Counted::count_read))]
pub(crate) fn count_in(line: &[u8]) -> Option<u64>
    ensures { result ≡ count_in line.now }
{
    if line.len() < 5 {
        return None;
    }
    count_of(&line[..5], &line[5..])
}

/// Whether a line may be the first: it is byte by byte the first line of some register's text.
#[tactic(auto, unfolding(crate::specs::Text::is_head))]
pub(crate) fn is_head<A: Allocator + Clone>(alloc: &A, line: &[u8]) -> Result<bool, AllocError>
    ensures { IfOk result (λ is. is ≡ is_head line.now) }
{
    let Some(numbers) = numbers_of(alloc.clone()?, line)? else {
        return Ok(false);
    };
    let mut text = Vec::new(alloc.clone()?);
    put_head(&mut text, &numbers)?;
    Ok(text.as_slice() == line)
}
