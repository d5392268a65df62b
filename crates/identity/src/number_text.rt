//! Numbers as text: decimal digits without leading zeros.

ghost use Rattle.std.specs.Prelude.{◌≡◌, ◌<◌, ◌≤◌, ◌^◌, ◌+◌, ◌++◌, ◌∷◌, [], ◌==◌, ◌/◌, ◌%◌, Some, None, OnOk, OnErr, IsTrue, decimal};
ghost use Rattle.std.specs.Prelude.{nat_le, option_map, position, length, take, get_or, true, false, vec_len, vec_capacity, if◌then◌else◌, IfSome};
ghost use Rattle.std.specs.Prelude.{drop};
ghost use Rattle.std.specs.Char.{is_ascii_digit};
ghost use Rattle.identity.specs.Inside.EightDigits.{two_before, eight_of};
ghost use Rattle.std.specs.List.{list_all};
ghost use Rattle.identity.specs.NumberText.{is_number, value, reading_number, cut, number_before, is_number_end};

use crate::Fault;
use itoa::Buffer;
use std::alloc::{AllocError, Allocator};

fn first(text: &[u8], mark: u8) -> Option<usize>
    ensures { result ≡ position (λ b. b == mark) text.now }
{
    text.iter().position(|byte| *byte == mark)
}

/// What is before the first byte `mark`, and what is after it.
#[inline(always)]
pub(crate) fn cut(text: &[u8], mark: u8) -> Option<(&[u8], &[u8])>
    ensures { option_map (λ parts. (parts.0.now, parts.1.now)) result ≡ cut mark text.now }
{
    match first(text, mark) {
        None => None,
        Some(at) => Some((&text[..at], &text[at + 1..])),
    }
}

fn all_digits(text: &[u8]) -> bool
    ensures { result ≡ list_all is_ascii_digit text.now }
{
    text.iter().all(|byte| byte.is_ascii_digit())
}

/// Whether the text has the form of a number, of any size.
#[tactic(auto, using(crate::proofs::NumberText::number_empty, crate::proofs::NumberText::number_zero, crate::proofs::NumberText::number_form))]
pub(crate) fn is_number(text: &[u8]) -> bool
    ensures { result ≡ is_number text.now }
{
    if text.is_empty() {
        return false;
    }
    if text[0] == b'0' {
        return text.len() == 1;
    }
    all_digits(text)
}

/// How many digits a short number has at most: it is below 2^60.
const DIGITS: usize = 15;

/// The value of a few digits.
#[inline(always)]
fn short_value(digits: &[u8]) -> u64
    requires digits { IsTrue (list_all is_ascii_digit digits.now) }
    requires few { length digits.now ≤ 15 }
    ensures { result ≡ value digits.now }
{
    let mut value = 0;
    for digit in digits {
        value = 10 * value + u64::from(*digit - b'0');
    }
    value
}

/// The value of a digit; above 9 where the byte is none.
#[inline(always)]
fn digit_of(byte: u8) -> u64
    ensures digit { is_ascii_digit byte ≡ nat_le result 9 }
    ensures value { result ≤ 9 → result + 48 ≡ byte }
{
    u64::from(byte).wrapping_sub(48)
}

/// The value of a few bytes, where all of them are digits.
#[inline(always)]
fn digits_in(text: &[u8]) -> Option<u64>
    requires few { length text.now ≤ 15 }
    ensures { result ≡ (if list_all is_ascii_digit text.now then Some (value text.now) else None) }
{
    let mut value = 0;
    for byte in text {
        let digit = digit_of(*byte);
        if digit > 9 {
            return None;
        }
        value = 10 * value + digit;
    }
    Some(value)
}

/// The number of a text of a few bytes, where it has the form of a number.
#[inline(always)]
#[tactic(auto, using(crate::proofs::NumberText::short_forms))]
pub(crate) fn short_number(text: &[u8]) -> Option<u64>
    requires few { length text.now ≤ 15 }
    ensures { result ≡ (if is_number text.now then Some (value text.now) else None) }
{
    if text.is_empty() {
        return None;
    }
    if text[0] == b'0' {
        return if text.len() == 1 { Some(0) } else { None };
    }
    digits_in(text)
}

/// Whether a dash ends a number, where all bytes before it are digits.
#[inline(always)]
fn ends_number(text: &[u8], at: usize) -> bool
    requires inside { at < length text.now }
    ensures { result ≡ is_number_end text.now at }
{
    text[at] == b'-' && (at == 1 || text[0] > b'0')
}

/// The number that a byte ends, and what is after it, where all bytes before it are digits, of this value, and it is none.
#[inline(always)]
fn after_number(text: &[u8], at: usize, number: u64) -> Option<(u64, &[u8])>
    requires inside { at < length text.now }
    requires digits { list_all is_ascii_digit (take at text.now) ≡ true }
    requires end { is_ascii_digit (get_or text.now at 0) ≡ false }
    requires number { number ≡ value (take at text.now) }
    ensures value { option_map (λ parts. (parts.0, parts.1.now)) result ≡ number_before 45 text.now }
    ensures shorter { IfSome result (λ parts. length parts.1.now + 2 ≤ length text.now) }
{
    if ends_number(text, at) {
        Some((number, &text[at + 1..]))
    } else {
        None
    }
}

/// As [`number_before_dash`], where the first bytes are digits, and `head` is their value.
fn number_from(text: &[u8], from: usize, head: u64) -> Option<(u64, &[u8])>
    requires few { length text.now ≤ 19 }
    requires inside { from ≤ length text.now }
    requires digits { list_all is_ascii_digit (take from text.now) ≡ true }
    requires head { head ≡ value (take from text.now) }
    ensures value { option_map (λ parts. (parts.0, parts.1.now)) result ≡ number_before 45 text.now }
    ensures shorter { IfSome result (λ parts. length parts.1.now + 2 ≤ length text.now) }
{
    let mut number = head;
    for at in from..text.len() {
        let digit = digit_of(text[at]);
        if digit > 9 {
            return after_number(text, at, number);
        }
        number = 10 * number + digit;
    }
    None
}

/// How many digits a code of an identity has at most.
const CODE: usize = 5;

/// The number before the first `-` of a short text, and what is after that, in one pass over the bytes before.
#[inline(always)]
pub(crate) fn number_before_dash(text: &[u8]) -> Option<(u64, &[u8])>
    requires few { length text.now ≤ 19 }
    ensures value { option_map (λ parts. (parts.0, parts.1.now)) result ≡ number_before 45 text.now }
    ensures shorter { IfSome result (λ parts. length parts.1.now + 2 ≤ length text.now) }
{
    if text.len() <= CODE {
        return number_from(text, 0, 0);
    }
    let mut number = 0;
    for at in 0..CODE {
        let digit = digit_of(text[at]);
        if digit > 9 {
            return after_number(text, at, number);
        }
        number = 10 * number + digit;
    }
    number_from(text, CODE, number)
}

/// The value of digits, where it is at most `most`.
#[inline(always)]
pub(crate) fn value_of(digits: &[u8], most: u128) -> Option<u128>
    requires form { IsTrue (is_number digits.now) }
    requires room { most < 2 ^ 120 }
    ensures { result ≡ (if nat_le (value digits.now) most then Some (value digits.now) else None) }
{
    let prefix = digits.len().min(DIGITS);
    let mut value = u128::from(short_value(&digits[..prefix]));
    for at in prefix..digits.len() {
        if value > most {
            return None;
        }
        value = 10 * value + u128::from(digits[at] - b'0');
    }
    if value <= most { Some(value) } else { None }
}

/// As [`parse_number`], for a text of any length.
#[tactic(auto, unfolding(crate::specs::NumberText::reading_number))]
fn long_number(text: &[u8], most: u64) -> Result<u64, Fault>
    ensures { result ≡ reading_number most text.now }
{
    if !is_number(text) {
        return Err(Fault::BadText);
    }
    match value_of(text, u128::from(most)) {
        Some(value) => Ok(value as u64),
        None => Err(Fault::OutOfRange),
    }
}

/// The number of a text, in decimal without leading zeros. `Fault::BadText` where the text has not that form, else
/// `Fault::OutOfRange` where the number is above `most`.
#[inline(always)]
#[tactic(auto, unfolding(crate::specs::NumberText::reading_number))]
pub fn parse_number(text: &[u8], most: u64) -> Result<u64, Fault>
    ensures { result ≡ reading_number most text.now }
{
    if text.len() > DIGITS {
        return long_number(text, most);
    }
    match short_number(text) {
        Some(value) if value <= most => Ok(value),
        Some(_) => Err(Fault::OutOfRange),
        None => Err(Fault::BadText),
    }
}

/// The byte of a digit.
#[inline(always)]
fn digit(value: u32) -> u8
    requires { value < 10 }
    ensures { result ≡ 48 + value }
{
    b'0' + value as u8
}

/// The two digits of each number below 100.
static PAIRS: [[u8; 2]; 100] = [
    *b"00", *b"01", *b"02", *b"03", *b"04", *b"05", *b"06", *b"07", *b"08", *b"09", *b"10", *b"11",
    *b"12", *b"13", *b"14", *b"15", *b"16", *b"17", *b"18", *b"19", *b"20", *b"21", *b"22", *b"23",
    *b"24", *b"25", *b"26", *b"27", *b"28", *b"29", *b"30", *b"31", *b"32", *b"33", *b"34", *b"35",
    *b"36", *b"37", *b"38", *b"39", *b"40", *b"41", *b"42", *b"43", *b"44", *b"45", *b"46", *b"47",
    *b"48", *b"49", *b"50", *b"51", *b"52", *b"53", *b"54", *b"55", *b"56", *b"57", *b"58", *b"59",
    *b"60", *b"61", *b"62", *b"63", *b"64", *b"65", *b"66", *b"67", *b"68", *b"69", *b"70", *b"71",
    *b"72", *b"73", *b"74", *b"75", *b"76", *b"77", *b"78", *b"79", *b"80", *b"81", *b"82", *b"83",
    *b"84", *b"85", *b"86", *b"87", *b"88", *b"89", *b"90", *b"91", *b"92", *b"93", *b"94", *b"95",
    *b"96", *b"97", *b"98", *b"99",
];

/// The two digits of a number below 100.
#[inline(always)]
fn pair(value: u32) -> [u8; 2]
    requires { value < 100 }
    ensures { result ≡ two_before value [] }
{
    PAIRS[value as usize]
}

/// The byte of the first digit of two.
#[inline(always)]
pub(crate) fn tens(value: u32) -> u8
    requires { value < 100 }
    ensures { result ≡ 48 + value / 10 }
{
    pair(value)[0]
}

/// The byte of the second digit of two.
#[inline(always)]
pub(crate) fn ones(value: u32) -> u8
    requires { value < 100 }
    ensures { result ≡ 48 + value % 10 }
{
    pair(value)[1]
}

/// The eight digits of a number, with zeros before it.
#[inline(always)]
fn eight_digits(number: u32) -> [u8; 8]
    requires { number < 100000000 }
    ensures { result ≡ eight_of number }
{
    let (high, low) = (number / 10_000, number % 10_000);
    let (first, second) = (pair(high / 100), pair(high % 100));
    let (third, fourth) = (pair(low / 100), pair(low % 100));
    [
        first[0], first[1], second[0], second[1], third[0], third[1], fourth[0], fourth[1],
    ]
}

/// How many zeros there are before a number of eight digits.
#[inline(always)]
#[tactic(auto, using(crate::proofs::ShortNumbers::shown_digits))]
fn zeros_before(number: u32) -> usize
    requires { number < 100000000 }
    ensures some { result ≤ 7 }
    ensures code { number < 100000 → 3 ≤ result }
    ensures text { decimal number ≡ drop result (eight_of number) }
{
    if number >= 10_000 {
        return match number {
            10_000_000.. => 0,
            1_000_000.. => 1,
            100_000.. => 2,
            _ => 3,
        };
    }
    match number {
        1000.. => 4,
        100.. => 5,
        10.. => 6,
        _ => 7,
    }
}

/// Puts a number before the place `end`, where there are eight bytes. It returns where the number begins.
#[inline(always)]
pub(crate) fn put_before(text: &mut [u8; 24], end: usize, number: u32) -> usize
    requires number { number < 100000000 }
    requires low { 8 ≤ end }
    requires high { end ≤ 24 }
    ensures some { result < end }
    ensures eight { end ≤ result + 8 }
    ensures code { number < 100000 → end ≤ result + 5 }
    ensures text { drop result text.new ≡ decimal number ++ drop end text.old }
{
    text[end - 8..end].copy_from_slice(&eight_digits(number));
    end - 8 + zeros_before(number)
}

/// As [`put_before`], and puts a dash after the number.
#[inline(always)]
pub(crate) fn put_code_before(text: &mut [u8; 24], end: usize, number: u32) -> usize
    requires number { number < 100000 }
    requires low { 9 ≤ end }
    requires high { end ≤ 24 }
    ensures some { result < end }
    ensures code { end ≤ result + 6 }
    ensures text { drop result text.new ≡ decimal number ++ 45 ∷ drop end text.old }
{
    text[end - 1] = b'-';
    put_before(text, end - 1, number)
}

/// Appends a number of one to four digits.
#[inline(always)]
#[tactic(auto, using(crate::proofs::ShortNumbers::few_digits))]
fn put_few<A: Allocator>(out: &mut Vec<u8, A>, number: u32) -> Result<(), AllocError>
    requires { number < 10000 }
    ensures ok { OnOk result (out.new.items ≡ out.old.items ++ decimal number) }
    ensures err { OnErr result (out.new.items ≡ out.old.items) }
    ensures full { OnErr result (vec_capacity out.old < vec_len out.old + length (decimal number)) }
    ensures capacity { vec_capacity out.old ≤ vec_capacity out.new }
{
    if number < 10 {
        return out.extend_from_slice(&[digit(number)]);
    }
    if number < 100 {
        return out.extend_from_slice(&[tens(number), ones(number)]);
    }
    let (first, last) = (number / 100, number % 100);
    if number < 1000 {
        return out.extend_from_slice(&[digit(first), tens(last), ones(last)]);
    }
    out.extend_from_slice(&[tens(first), ones(first), tens(last), ones(last)])
}

/// Appends a number of five to eight digits.
#[tactic(auto, using(crate::proofs::ShortNumbers::many_digits))]
fn put_many<A: Allocator>(out: &mut Vec<u8, A>, number: u32) -> Result<(), AllocError>
    requires low { 10000 ≤ number }
    requires high { number < 100000000 }
    ensures ok { OnOk result (out.new.items ≡ out.old.items ++ decimal number) }
    ensures err { OnErr result (out.new.items ≡ out.old.items) }
    ensures full { OnErr result (vec_capacity out.old < vec_len out.old + length (decimal number)) }
    ensures capacity { vec_capacity out.old ≤ vec_capacity out.new }
{
    let (high, low) = (number / 10_000, number % 10_000);
    let (third, fourth) = (low / 100, low % 100);
    let [e, f, g, h] = [tens(third), ones(third), tens(fourth), ones(fourth)];
    if high < 10 {
        return out.extend_from_slice(&[digit(high), e, f, g, h]);
    }
    if high < 100 {
        return out.extend_from_slice(&[tens(high), ones(high), e, f, g, h]);
    }
    let (first, second) = (high / 100, high % 100);
    let (c, d) = (tens(second), ones(second));
    if high < 1000 {
        return out.extend_from_slice(&[digit(first), c, d, e, f, g, h]);
    }
    out.extend_from_slice(&[tens(first), ones(first), c, d, e, f, g, h])
}

/// Appends a number in decimal. It fails only where the capacity of `out` is too small for the text and the allocator
/// is out of memory. Then `out` is unchanged. Each print call does so.
#[inline(always)]
pub fn print_number<A: Allocator>(out: &mut Vec<u8, A>, number: u64) -> Result<(), AllocError>
    ensures ok { OnOk result (out.new.items ≡ out.old.items ++ decimal number) }
    ensures err { OnErr result (out.new.items ≡ out.old.items) }
    ensures full { OnErr result (vec_capacity out.old < vec_len out.old + length (decimal number)) }
    ensures capacity { vec_capacity out.old ≤ vec_capacity out.new }
{
    if number < 10_000 {
        return put_few(out, number as u32);
    }
    if number < 100_000_000 {
        return put_many(out, number as u32);
    }
    out.extend_from_slice(Buffer::new().format(number).as_bytes())
}

/// Where `put` is an error, removes what was appended after the first `before` bytes. It returns `put`.
pub fn put_whole<A: Allocator>(
    out: &mut Vec<u8, A>,
    before: usize,
    put: Result<(), AllocError>,
) -> Result<(), AllocError>
    ensures same { result ≡ put }
    ensures ok { OnOk put (out.new.items ≡ out.old.items) }
    ensures err { OnErr put (out.new.items ≡ take before out.old.items) }
    ensures capacity { vec_capacity out.new ≡ vec_capacity out.old }
{
    if put.is_err() {
        out.truncate(before);
    }
    put
}
