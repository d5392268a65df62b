//! Rows as texts of bytes, and rows written again as they were read.
use centre_core::Sequence;
use command_bytes::bits::PackedBits;
use identity::Itsi;
use image_rows::{
    PackedGroups, ReadRow, header_row, mail_row, radio_row, read_row, rule_row, served_row,
};
use mailbox::Item;
use registration::{Radio, Station};
use std::alloc::{AllocError, Allocator, Global};

/// The value of a hexadecimal digit.
fn digit(byte: u8) -> Option<u8> {
    match byte {
        b'0'..=b'9' => Some(byte - b'0'),
        b'a'..=b'f' => Some(byte - b'a' + 10),
        _ => None,
    }
}

/// The bytes of hexadecimal digits, spaces left out.
fn bytes_of(alloc: Global, text: &str) -> Result<Vec<u8>, AllocError> {
    let mut bytes = Vec::new(alloc);
    let mut high: Option<u8> = None;
    for byte in text.as_bytes() {
        if let Some(value) = digit(*byte) {
            match high.take() {
                None => high = Some(value),
                Some(first) => bytes.push((first << 4) | value)?,
            }
        }
    }
    Ok(bytes)
}

/// The sector that begins with the bytes of hexadecimal digits, and has this byte after them.
pub fn sector(alloc: Global, text: &str, following: u8) -> Result<Vec<u8>, AllocError> {
    let mut bytes = bytes_of(alloc, text)?;
    bytes.resize(512, following)?;
    Ok(bytes)
}

/// The row of a radio and its groups, at most 32 of them.
fn radio_again(
    alloc: Global,
    itsi: Itsi,
    radio: &Radio,
    groups: PackedGroups<'_>,
) -> Result<Option<[u8; 512]>, AllocError> {
    let mut left = groups;
    let mut list = Vec::new(alloc);
    for _ in 0..255 {
        if let Some(attachment) = left.next(itsi) {
            list.push(attachment)?;
        }
    }
    if list.len() > 32 {
        return Ok(None);
    }
    Ok(Some(radio_row(itsi, radio, &list)))
}

fn served_again(
    alloc: Global,
    station: Station,
    sequence: Sequence,
    number: u64,
    pdu: Option<PackedBits<'_>>,
) -> Result<Option<[u8; 512]>, AllocError> {
    let Some(packed) = pdu else {
        return Ok(Some(served_row::<Global>(station, sequence, number, &None)));
    };
    let bits = packed.copy(alloc)?;
    if bits.len() > 2048 {
        return Ok(None);
    }
    Ok(Some(served_row(station, sequence, number, &Some(bits))))
}

/// The row of an item, whose PDU has at most 2,048 bits.
pub fn item_row<A: Allocator>(item: &Item<A>) -> Option<[u8; 512]> {
    if item.pdu().len() > 2048 {
        return None;
    }
    Some(mail_row(item))
}

/// The row that is read from the bytes, written again; nothing where none is read.
pub fn again(alloc: Global, bytes: &[u8]) -> Result<Option<[u8; 512]>, AllocError> {
    let Some(row) = read_row(bytes) else {
        return Ok(None);
    };
    match row {
        ReadRow::Header(header) => Ok(Some(header_row(&header))),
        ReadRow::Rule { prefix, rule } => Ok(Some(rule_row(&prefix, &rule))),
        ReadRow::Radio {
            itsi,
            radio,
            groups,
        } => radio_again(alloc, itsi, &radio, groups),
        ReadRow::Mail(read) => {
            let item = read.copy(&alloc)?;
            let row = item_row(&item);
            drop(item);
            Ok(row)
        }
        ReadRow::Served {
            station,
            sequence,
            number,
            pdu,
        } => served_again(alloc, station, sequence, number, pdu),
    }
}
