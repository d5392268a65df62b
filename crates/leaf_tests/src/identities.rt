//! Each call of `identity` once, with ample memory, and texts at the limits of form and range.

use identity::{
    BitReader, BitWriter, Bits, Fault, Gtsi, Itsi, Prefix, parse_bits, parse_gtsi, parse_itsi,
    parse_number, parse_prefix, print_bits, print_gtsi, print_itsi, print_number, print_prefix,
};
use std::alloc::{AllocError, Global};
use std::test::Fail;

fn written(alloc: Global) -> Result<Bits<Global>, Fault> {
    let mut writer = BitWriter::new(alloc);
    writer.put(0x98, 10)?;
    writer.finish().try_copy(alloc)
}

/// Whether the bits are read in parts of four and six.
fn are_taken(bits: &Bits<Global>) -> Result<bool, Fault> {
    let mut reader = BitReader::new(bits);
    let (first, rest) = (reader.take(4)?, reader.cut(6)?.take(6)?);
    Ok((first, rest, reader.left()) == (2, 24, 0))
}

fn have_places(bits: &Bits<Global>) -> bool {
    bits.len() == 10 && bits.get(2) && !bits.get(3)
}

fn are_put_and_taken(alloc: Global) -> Result<bool, Fault> {
    let bits = written(alloc)?;
    Ok(have_places(&bits) && are_taken(&bits)?)
}

#[test]
fn bits_are_put_and_taken(rt: HostRuntime) -> Result<(), Fail> {
    assert!(rt; are_put_and_taken(rt.alloc())?);
    Ok(())
}

/// Bits of other values and lengths.
const OTHERS: [&str; 3] = ["10:260", "11:264", "9:260"];

/// Whether the bits differ from those of this text.
fn differs(alloc: Global, bits: &Bits<Global>, text: &str) -> bool {
    match parse_bits(alloc, text.as_bytes()) {
        Ok(other) => *bits != other && !bits.same(&other),
        Err(_) => false,
    }
}

fn is_same_copy(alloc: Global, bits: &Bits<Global>) -> bool {
    match bits.try_copy(&alloc) {
        Ok(copy) => bits.same(&copy),
        Err(_) => false,
    }
}

fn is_made_of_its_bytes(alloc: Global, bits: &Bits<Global>) -> bool {
    match Bits::from_packed(&alloc, bits.as_bytes(), bits.len()) {
        Ok(made) => bits.same(&made),
        Err(_) => false,
    }
}

fn are_packed(alloc: Global) -> Result<bool, Fault> {
    let bits = parse_bits(alloc, "10:264".as_bytes())?;
    let packed = bits.as_bytes() == [0x26, 0x40].as_slice()
        && is_same_copy(alloc, &bits)
        && is_made_of_its_bytes(alloc, &bits);
    Ok(packed && OTHERS.iter().all(|text| differs(alloc, &bits, text)))
}

#[test]
fn bits_are_packed_and_compared(rt: HostRuntime) -> Result<(), Fail> {
    assert!(rt; are_packed(rt.alloc())?);
    Ok(())
}

fn is_itsi(parts: (u32, u32, u32), number: u64) -> bool {
    let Some(itsi) = Itsi::new(parts.0, parts.1, parts.2) else {
        return false;
    };
    (itsi.mcc(), itsi.mnc(), itsi.ssi()) == parts
        && itsi.number() == number
        && Itsi::from_number(number) == Some(itsi)
}

fn is_gtsi(parts: (u32, u32, u32), number: u64) -> bool {
    let Some(gtsi) = Gtsi::new(parts.0, parts.1, parts.2) else {
        return false;
    };
    (gtsi.mcc(), gtsi.mnc(), gtsi.ssi()) == parts
        && gtsi.number() == number
        && Gtsi::from_number(number) == Some(gtsi)
}

fn is_nothing_beyond() -> bool {
    Itsi::new(1024, 0, 0).is_none()
        && Gtsi::new(0, 1 << 14, 0).is_none()
        && Itsi::from_number(1 << 48).is_none()
        && Gtsi::from_number(1 << 48).is_none()
}

/// Three numbers, and the identity that they make.
const PARTS: [((u32, u32, u32), u64); 2] = [
    ((234, 14, 2001), 64_321_665_107_921),
    ((1023, 16_383, 16_777_215), (1 << 48) - 1),
];

fn are_parts() -> bool {
    for (parts, number) in PARTS {
        if !is_itsi(parts, number) || !is_gtsi(parts, number) {
            return false;
        }
    }
    is_nothing_beyond()
}

#[test]
fn identities_hold_three_numbers(rt: HostRuntime) {
    assert!(rt; are_parts());
}

fn begins(itsi: Itsi, network: Prefix) -> bool {
    network.begins(itsi.number())
        && !network.begins(0)
        && network.same(&Prefix::of(itsi.number(), 24))
        && !network.same(&itsi.path())
        && (network.bits(), network.number(), network.len()) == (0x3A80_0E00_0000, 0x3A_800E, 24)
}

fn is_begun() -> bool {
    let (Some(itsi), Some(network)) = (Itsi::new(234, 14, 2001), Prefix::new(0x3A80_0E00_0000, 24))
    else {
        return false;
    };
    begins(itsi, network) && Prefix::new(0x3A80_0E00_0001, 24).is_none()
}

#[test]
fn prefixes_begin_identities(rt: HostRuntime) {
    assert!(rt; is_begun());
}

/// What a text is read as, the text, and what it is printed as once it was read, or why it is refused: `bad` for its form,
/// `far` for its range. A digit is a number up to 9, `long` one of 64 bits.
///
/// Form is judged before range.
const ROWS: &str = "long|18446744073709551615|18446744073709551615\n\
     itsi|1023-16383-16777215|1023-16383-16777215\n\
     gtsi|234-14-1000|234-14-1000\n\
     prefix|234-14-0/24|234-14-0/24\n\
     bits|59:267400002130068|59:267400002130068\n\
     bits|60:7380480a00007d0|60:7380480A00007D0\n\
     bits|0:|0:\n\
     digit|9|9\n\
     digit||bad\n\
     digit|01|bad\n\
     digit|+1|bad\n\
     digit|1a|bad\n\
     digit| 1|bad\n\
     itsi|1024-x-1|bad\n\
     itsi|1024-0|bad\n\
     itsi|1024-0-1-1|bad\n\
     itsi|1024--1|bad\n\
     itsi|1024-01-1|bad\n\
     prefix|234-14-2001|bad\n\
     prefix|1024-14-2001/|bad\n\
     prefix|234-14-2001/049|bad\n\
     prefix|234-14/24|bad\n\
     bits|5:1|bad\n\
     bits|5:100|bad\n\
     bits|5:14|bad\n\
     bits|5:1G|bad\n\
     bits|05:10|bad\n\
     bits|5|bad\n\
     bits|:|bad\n\
     bits|9999999999999999999999:|bad\n\
     bits|9999999999999999999999:0|bad\n\
     long|18446744073709551616|far\n\
     gtsi|1024-0-1|far\n\
     gtsi|0-16384-1|far\n\
     gtsi|0-0-16777216|far\n\
     prefix|234-14-2001/24|far\n\
     prefix|234-14-2001/49|far\n\
     prefix|1024-14-0/24|far\n";

fn done(printed: Result<(), AllocError>) -> Result<(), Fault> {
    printed.or(Err(Fault::NoMemory))
}

fn print_bits_again(alloc: Global, out: &mut Vec<u8>, text: &[u8]) -> Result<(), Fault> {
    let bits = parse_bits(alloc, text)?;
    done(print_bits(out, &bits))
}

fn print_again(alloc: Global, out: &mut Vec<u8>, kind: &str, text: &[u8]) -> Result<(), Fault> {
    match kind {
        "digit" => done(print_number(out, parse_number(text, 9)?)),
        "long" => done(print_number(out, parse_number(text, u64::MAX)?)),
        "itsi" => done(print_itsi(out, parse_itsi(text)?)),
        "gtsi" => done(print_gtsi(out, parse_gtsi(text)?)),
        "prefix" => done(print_prefix(out, parse_prefix(text)?)),
        _ => print_bits_again(alloc, out, text),
    }
}

fn word(fault: Fault) -> &'static str {
    match fault {
        Fault::BadText => "bad",
        Fault::OutOfRange => "far",
        _ => "other",
    }
}

fn is_wanted(alloc: Global, kind: &str, text: &str, want: &str) -> bool {
    let mut out = Vec::new(alloc);
    match print_again(alloc, &mut out, kind, text.as_bytes()) {
        Ok(()) => out.as_slice() == want.as_bytes(),
        Err(fault) => word(fault) == want,
    }
}

fn is_right(alloc: Global, row: &str) -> bool {
    let Some((kind, rest)) = row.split_once('|') else {
        return false;
    };
    let Some((text, want)) = rest.split_once('|') else {
        return false;
    };
    is_wanted(alloc, kind, text, want)
}

/// The first row that is wrong.
fn first_wrong(alloc: Global) -> Option<&'static str> {
    for row in ROWS.lines() {
        if !is_right(alloc, row) {
            return Some(row);
        }
    }
    None
}

#[test]
fn texts_are_read_and_printed(rt: HostRuntime) {
    assert_eq!(rt; first_wrong(rt.alloc()), None);
}

fn fault_of_2049_zeros(alloc: Global) -> Result<Option<Fault>, Fail> {
    let mut text = Vec::from_slice(alloc, b"2049:")?;
    text.resize(5 + 513, b'0')?;
    Ok(parse_bits(alloc, &text).err())
}

#[test]
fn bits_are_at_most_2048(rt: HostRuntime) -> Result<(), Fail> {
    assert!(rt; fault_of_2049_zeros(rt.alloc())? == Some(Fault::OutOfRange));
    Ok(())
}
