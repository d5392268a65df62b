//! Strings of bits as text.

ghost use Rattle.std.specs.Prelude.{◌≡◌, ◌<◌, ◌≤◌, ◌^◌, ◌*◌, ◌+◌, ◌-◌, ◌/◌, ◌%◌, ◌++◌, ◌∷◌, ◌⊎◌, true, false, replicate, OnOk, OnErr};
ghost use Rattle.std.specs.Prelude.{IfOk, IfErr, IfSome, Ok, Err, IsTrue, IsOkAnd, option_map, length, take, drop, vec_len, vec_capacity, ◌==◌};
ghost use Rattle.std.specs.Prelude.{decimal, []};
ghost use Rattle.std.specs.Char.{digit_value, is_ascii_hexdigit};
ghost use Rattle.std.specs.Fmt.{digit_glyph};
ghost use Rattle.std.specs.List.{list_all};
ghost use Rattle.identity.specs.Number.{num, number};
ghost use Rattle.identity.specs.Packed.{bits_of as packed_bits};
ghost use Rattle.identity.specs.NumberText.{is_number, value, IsPrefixOf};
ghost use Rattle.identity.specs.BitsText.{hex_of, bits_text, digit_bits, bits_len, is_filled, reading_bits};
ghost use Rattle.identity.specs.Inside.ReadDigits.{reading_digits};
ghost use Rattle.identity.specs.declared.fault.Fault.TheVariants.{NoMemory};

use crate::hex_digits::{digit_of, is_digit, number_of, pair_of};
use crate::number_text::{
    cut, is_number, ones, parse_number, print_number, put_whole, tens, value_of,
};
use crate::{BitReader, Bits, Fault};
use std::alloc::{AllocError, Allocator};

/// The most bits of a PDU, and of a string of bits that is read as text.
pub const MOST_BITS: usize = 2048;

/// Whether all bytes are hexadecimal digits.
#[inline(never)]
fn all_hexadecimal(text: &[u8]) -> bool
    ensures { result ≡ list_all is_ascii_hexdigit text.now }
{
    text.iter().all(|byte| is_digit(*byte))
}

/// Whether the last `fill` bits of hexadecimal digits are 0.
#[inline(always)]
fn ends_in_zeros(digits: &[u8], fill: u32) -> bool
    requires hexadecimal { IsTrue (list_all is_ascii_hexdigit digits.now) }
    requires few { fill < 4 }
    requires room { fill ≤ 4 * length digits.now }
    ensures { result ≡ (number (drop (4 * length digits.now - fill) (digit_bits digits.now)) == 0) }
{
    match digits.last() {
        None => true,
        Some(last) => digit_of(*last) % (1 << fill) == 0,
    }
}

/// How many bits a text has, by its count and its digits; `None` where its form is not good.
#[inline(always)]
#[tactic(auto, unfolding(crate::specs::BitsText::bits_len, crate::specs::BitsText::is_filled))]
fn bits_len(count: &[u8], digits: &[u8]) -> Option<u128>
    ensures value { result ≡ bits_len count.now digits.now }
    ensures form { IfSome result (λ n. IsTrue (list_all is_ascii_hexdigit digits.now) × IsTrue (is_filled n digits.now)) }
{
    if !is_number(count) || !all_hexadecimal(digits) {
        return None;
    }
    let room = 4 * digits.len() as u128;
    let Some(len) = value_of(count, room) else {
        return None;
    };
    let fill = room - len;
    if fill < 4 && ends_in_zeros(digits, fill as u32) {
        Some(len)
    } else {
        None
    }
}

/// The byte of two hexadecimal digits.
fn byte_of(high: u8, low: u8) -> u8
    requires high { IsTrue (is_ascii_hexdigit high) }
    requires low { IsTrue (is_ascii_hexdigit low) }
    ensures { num 8 result ≡ num 4 (digit_value high) ++ num 4 (digit_value low) }
{
    (16 * digit_of(high) + digit_of(low)) as u8
}

/// The bytes of hexadecimal digits. Where the number of digits is odd, the low half of the last byte is 0.
#[inline(always)]
fn bytes_of<A: Allocator>(alloc: A, digits: &[u8]) -> Result<Vec<u8, A>, AllocError>
    requires { IsTrue (list_all is_ascii_hexdigit digits.now) }
    ensures bits { IfOk result (λ bytes. packed_bits bytes.items ≡ digit_bits digits.now ++ replicate (4 * (length digits.now % 2)) false) }
{
    let mut bytes = Vec::with_capacity(alloc, digits.len().div_ceil(2))?;
    for i in 0..digits.len() / 2 {
        bytes.push(byte_of(digits[2 * i], digits[2 * i + 1]))?;
    }
    if digits.len() % 2 == 1 {
        bytes.push((16 * digit_of(digits[digits.len() - 1])) as u8)?;
    }
    Ok(bytes)
}

/// The first `len` bits of more hexadecimal digits than have room in place.
#[inline(always)]
fn bits_of<A: Allocator>(alloc: A, digits: &[u8], len: usize) -> Result<Bits<A>, Fault>
    requires many { 16 < length digits.now }
    requires hexadecimal { IsTrue (list_all is_ascii_hexdigit digits.now) }
    requires filled { IsTrue (is_filled len digits.now) }
    ensures ok { IfOk result (λ bits. bits ≡ take len (digit_bits digits.now)) }
    ensures err { IfErr result (λ e. e ≡ NoMemory) }
    ensures memory { OnErr result (64 < length (take len (digit_bits digits.now))) }
{
    Ok(Bits::packed(bytes_of(alloc, digits)?, len))
}

/// The bits of a count and more digits than have room in place.
#[tactic(auto, unfolding(crate::specs::Inside::ReadDigits::reading_digits))]
fn long_bits<A: Allocator>(alloc: A, count: &[u8], digits: &[u8]) -> Result<Bits<A>, Fault>
    requires many { 16 < length digits.now }
    ensures ok { IfOk result (λ bits. reading_digits count.now digits.now ≡ Ok bits) }
    ensures err { IfErr result (λ e. (reading_digits count.now digits.now ≡ Err e) ⊎ ((e ≡ NoMemory) × IsOkAnd (reading_digits count.now digits.now) (λ bits. 64 < length bits))) }
{
    let Some(len) = bits_len(count, digits) else {
        return Err(Fault::BadText);
    };
    if len > MOST_BITS as u128 {
        return Err(Fault::OutOfRange);
    }
    bits_of(alloc, digits, len as usize)
}

/// The most digits whose bits are kept without memory.
const FEW_DIGITS: usize = 16;

/// Whether so many bits need a few digits, whose number is `value`, and what fills the last one is 0.
#[inline(always)]
fn fills(len: u64, digits: &[u8], value: u64) -> bool
    requires few { length digits.now ≤ 16 }
    requires room { len ≤ 4 * length digits.now }
    requires number { value ≡ number (digit_bits digits.now) }
    ensures { result ≡ is_filled len digits.now }
{
    let fill = 4 * digits.len() as u64 - len;
    fill < 4 && value % (1 << fill) == 0
}

/// How many bits a text of a few digits has, and the number of the digits; `None` where its form is not good.
#[inline(always)]
fn short_form(count: &[u8], digits: &[u8]) -> Option<(u64, u64)>
    requires few { length digits.now ≤ 16 }
    ensures len { option_map (λ form. form.0) result ≡ bits_len count.now digits.now }
    ensures filled { IfSome result (λ form. IsTrue (is_filled form.0 digits.now)) }
    ensures number { IfSome result (λ form. form.1 ≡ number (digit_bits digits.now)) }
{
    let Some(value) = number_of(digits) else {
        return None;
    };
    let Ok(len) = parse_number(count, 4 * digits.len() as u64) else {
        return None;
    };
    if fills(len, digits, value) {
        Some((len, value))
    } else {
        None
    }
}

/// The bits of a few digits, by their number, and zeros after them.
#[inline(always)]
fn eight_bytes(value: u64, digits: usize) -> [u8; 8]
    requires few { digits ≤ 16 }
    requires fits { value < 2 ^ (4 * digits) }
    ensures { packed_bits result ≡ num (4 * digits) value ++ replicate (64 - 4 * digits) false }
{
    (value << ((64 - 4 * digits) % 64)).to_be_bytes()
}

/// The bits of a count and a few digits. This takes no memory.
#[inline(always)]
#[tactic(auto, unfolding(crate::specs::Inside::ReadDigits::reading_digits))]
fn short_bits<A: Allocator>(alloc: A, count: &[u8], digits: &[u8]) -> Result<Bits<A>, Fault>
    requires few { length digits.now ≤ 16 }
    ensures ok { IfOk result (λ bits. reading_digits count.now digits.now ≡ Ok bits) }
    ensures err { IfErr result (λ e. reading_digits count.now digits.now ≡ Err e) }
{
    let Some((len, value)) = short_form(count, digits) else {
        return Err(Fault::BadText);
    };
    Ok(Bits::short(alloc, eight_bytes(value, digits.len()), len as usize))
}

/// The bits of a text `bits:HEX`, at most [`MOST_BITS`] of them. `Fault::BadText` where the text has not that form,
/// else `Fault::OutOfRange` where the bits are more. `Fault::NoMemory` is reported only for a good text, of
/// more than 64 bits.
#[inline(always)]
#[tactic(auto, unfolding(crate::specs::BitsText::reading_bits, crate::specs::BitsText::bits_form, crate::specs::Inside::ReadDigits::reading_digits))]
pub fn parse_bits<A: Allocator>(alloc: A, text: &[u8]) -> Result<Bits<A>, Fault>
    ensures ok { IfOk result (λ bits. reading_bits text.now ≡ Ok bits) }
    ensures err { IfErr result (λ e. (reading_bits text.now ≡ Err e) ⊎ ((e ≡ NoMemory) × IsOkAnd (reading_bits text.now) (λ bits. 64 < length bits))) }
{
    let Some((count, digits)) = cut(text, b':') else {
        return Err(Fault::BadText);
    };
    if digits.len() <= FEW_DIGITS {
        return short_bits(alloc, count, digits);
    }
    long_bits(alloc, count, digits)
}

/// The capital digit of a value.
fn glyph(value: u64) -> u8
    requires { value < 16 }
    ensures value { result ≡ digit_glyph true value }
    ensures ascii { result < 128 }
{
    if value < 10 {
        b'0' + value as u8
    } else {
        b'A' - 10 + value as u8
    }
}

/// The `width` bits of `value`, filled up to four bits by zeros at the end.
fn filled(value: u64, width: u32) -> u64
    requires width { width ≤ 4 }
    requires fits { value < 2 ^ width }
    ensures value { result ≡ value * 2 ^ (4 - width) }
    ensures small { result < 16 }
{
    match width {
        0 => 16 * value,
        1 => 8 * value,
        2 => 4 * value,
        3 => 2 * value,
        _ => value,
    }
}

/// The digit of the next four bits, or of those that are left.
pub(crate) fn next_digit(reader: &mut BitReader<'_>) -> u8
    requires { 0 < length reader.old }
    ensures digit { hex_of reader.old ≡ result ∷ hex_of reader.new }
    ensures ascii { result < 128 }
    ensures shorter { length reader.new < length reader.old }
{
    let width = reader.left().min(4) as u32;
    let value = reader.take(width).unwrap();
    glyph(filled(value, width))
}

/// Writes the digits of bytes, as many as there is room for.
fn write_pairs(digits: &mut [u8], bytes: &[u8])
    requires { length digits.old ≤ 2 * length bytes.now }
    ensures { digits.new ≡ take (length digits.old) (hex_of (packed_bits bytes.now)) }
{
    let whole = digits.len() / 2;
    for i in 0..whole {
        digits[2 * i..2 * i + 2].copy_from_slice(&pair_of(bytes[i]));
    }
    if digits.len() % 2 == 1 {
        digits[2 * whole] = pair_of(bytes[whole])[0];
    }
}

/// Appends the digits of bits.
fn put_hex<A: Allocator, B: Allocator>(
    out: &mut Vec<u8, A>,
    bits: &Bits<B>,
) -> Result<(), AllocError>
    ensures ok { OnOk result (out.new.items ≡ out.old.items ++ hex_of bits.now) }
    ensures err { OnErr result (out.new.items ≡ out.old.items) }
    ensures full { OnErr result (vec_capacity out.old < vec_len out.old + length (hex_of bits.now)) }
    ensures capacity { vec_capacity out.old ≤ vec_capacity out.new }
{
    let before = out.len();
    out.resize(before + bits.len().div_ceil(4), 0)?;
    write_pairs(&mut out[before..], bits.as_bytes());
    Ok(())
}

/// Three bytes, and the digits of eight after them.
#[inline(always)]
fn text_of(head: [u8; 3], bytes: [u8; 8]) -> [u8; 19]
    ensures { result ≡ head ++ hex_of (packed_bits bytes) }
{
    let (first, second) = (pair_of(bytes[0]), pair_of(bytes[1]));
    let (third, fourth) = (pair_of(bytes[2]), pair_of(bytes[3]));
    let (fifth, sixth) = (pair_of(bytes[4]), pair_of(bytes[5]));
    let (seventh, eighth) = (pair_of(bytes[6]), pair_of(bytes[7]));
    [
        head[0], head[1], head[2], first[0], first[1], second[0], second[1], third[0], third[1],
        fourth[0], fourth[1], fifth[0], fifth[1], sixth[0], sixth[1], seventh[0], seventh[1],
        eighth[0], eighth[1],
    ]
}

/// How many of the two digits of a number below 100 are not shown.
#[inline(always)]
#[tactic(auto, using(crate::proofs::ShortNumbers::few_digits))]
fn not_shown(number: u32) -> usize
    requires { number < 100 }
    ensures few { result ≤ 1 }
    ensures text { decimal number ≡ drop result ((48 + number / 10) ∷ (48 + number % 10) ∷ []) }
{
    if number < 10 { 1 } else { 0 }
}

/// Appends the text of bits that are kept in place, at once.
#[inline(always)]
fn put_few_bits<A: Allocator, B: Allocator>(
    out: &mut Vec<u8, A>,
    bits: &Bits<B>,
) -> Result<(), AllocError>
    requires few { length bits.now ≤ 64 }
    ensures ok { OnOk result (out.new.items ≡ out.old.items ++ bits_text bits.now) }
    ensures err { OnErr result (out.new.items ≡ out.old.items) }
    ensures full { OnErr result (vec_capacity out.old < vec_len out.old + length (bits_text bits.now)) }
    ensures capacity { vec_capacity out.old ≤ vec_capacity out.new }
{
    let len = bits.len() as u32;
    let text = text_of([tens(len), ones(len), b':'], bits.in_place());
    out.extend_from_slice(&text[not_shown(len)..3 + bits.len().div_ceil(4)])
}

#[tactic(auto, unfolding(crate::specs::BitsText::bits_text), using(crate::proofs::Printed::printed))]
fn put_bits<A: Allocator, B: Allocator>(
    out: &mut Vec<u8, A>,
    bits: &Bits<B>,
) -> Result<(), AllocError>
    ensures ok { OnOk result (out.new.items ≡ out.old.items ++ bits_text bits.now) }
    ensures err { OnErr result (IsPrefixOf out.old.items out.new.items) }
    ensures full { OnErr result (vec_capacity out.old < vec_len out.old + length (bits_text bits.now)) }
    ensures capacity { vec_capacity out.old ≤ vec_capacity out.new }
{
    print_number(out, bits.len() as u64)?;
    out.push(b':')?;
    put_hex(out, bits)
}

/// Appends the text `bits:HEX` of bits.
#[inline(always)]
pub fn print_bits<A: Allocator, B: Allocator>(
    out: &mut Vec<u8, A>,
    bits: &Bits<B>,
) -> Result<(), AllocError>
    ensures ok { OnOk result (out.new.items ≡ out.old.items ++ bits_text bits.now) }
    ensures err { OnErr result (out.new.items ≡ out.old.items) }
    ensures full { OnErr result (vec_capacity out.old < vec_len out.old + length (bits_text bits.now)) }
    ensures capacity { vec_capacity out.old ≤ vec_capacity out.new }
{
    if bits.len() <= 64 {
        return put_few_bits(out, bits);
    }
    let before = out.len();
    let put = put_bits(out, bits);
    put_whole(out, before, put)
}
