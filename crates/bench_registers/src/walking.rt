// Walks the rows of a register, and copies them to a list in memory as far as that has places.
use centre_core::Register;
use group_attach::Groups;
use image_rows::row_after;
use mailbox::Mail;
use registration::Registry;
use std::alloc::Global;

// The most rows of an image.
pub(crate) const MOST: usize = 135_233;

// Copies a row to this place, if the list has it, and returns the next place.
fn put(list: &mut [[u8; 512]], at: usize, row: &[u8; 512]) -> usize {
    if let Some(place) = list.get_mut(at) {
        place.copy_from_slice(row);
    }
    at.saturating_add(1)
}

fn put_rules(registry: &Registry<Global>, list: &mut [[u8; 512]], first: usize) -> usize {
    let mut at = first;
    let mut last = None;
    for _ in 0..registry.rule_count() {
        let Some((prefix, _)) = registry.next_rule(last) else {
            return at;
        };
        at = put(list, at, &[0x11; 512]);
        last = Some(prefix);
    }
    at
}

fn put_radios(
    registry: &Registry<Global>,
    groups: &Groups<Global>,
    list: &mut [[u8; 512]],
    first: usize,
) -> usize {
    let mut at = first;
    let mut last = None;
    for _ in 0..registry.radio_count() {
        let Some((itsi, _)) = registry.next_radio(last) else {
            return at;
        };
        if !groups.attachments(itsi).is_empty() {
            at = put(list, at, &[0x12; 512]);
        }
        last = Some(itsi);
    }
    at
}

fn put_items(mail: &Mail<Global>, list: &mut [[u8; 512]], first: usize) -> usize {
    let mut at = first;
    let mut last = None;
    for _ in 0..mail.len() {
        let Some(item) = mail.next(last) else {
            return at;
        };
        at = put(list, at, &[0x13; 512]);
        last = Some((item.number(), item.key()));
    }
    at
}

// The bare walk: goes through the tables by their calls for the next entry, and copies 512 bytes for each row that has a place in
// the list. It returns the number of rows.
pub(crate) fn bare(register: &Register<Global>, list: &mut [[u8; 512]]) -> usize {
    let mut at = put(list, 0, &[0x10; 512]);
    at = put_rules(register.registry(), list, at);
    at = put_radios(register.registry(), register.groups(), list, at);
    at = put_items(register.mail(), list, at);
    for last in register.served() {
        if last.is_some() {
            at = put(list, at, &[0x14; 512]);
        }
    }
    at
}

// Makes each row by `row_after` and copies it to the list. It returns the number of rows.
pub(crate) fn row_by_row(register: &Register<Global>, list: &mut [[u8; 512]]) -> usize {
    let mut at = 0;
    let mut coming = row_after(register, 1, None);
    for _ in 0..MOST {
        let Some(next) = &coming else {
            return at;
        };
        at = put(list, at, &next.1);
        coming = row_after(register, 1, Some(next.0));
    }
    at
}
