//! An image of layout 1, whose header has another tag, makes the same register. That is written with the tag of layout 2.
use crate::loaded::{loaded, row};
use centre_core::Register;
use image_rows::rows;
use std::alloc::Global;

/// An image of layout 1, put together by hand.
const PLAIN: &str = "\
10 0000000000000001 0000000000000004 00000001 00000001 00000000 00000001
11 18 3a800e000000 0001 0063 01 00000e10
12 3a800e0007d1 0001 0008 01 01 3a800e0003e8 11
14 0001 00000004 0000000000000004 0008 50";

/// The same image of layout 2.
const WRITTEN: &str = "\
16 0000000000000001 0000000000000004 00000001 00000001 00000000 00000001
11 18 3a800e000000 0001 0063 01 00000e10
12 3a800e0007d1 0001 0008 01 01 3a800e0003e8 11
14 0001 00000004 0000000000000004 0008 50";

/// Whether these are the rows of a text.
fn are_rows(alloc: Global, list: &[[u8; 512]], text: &str) -> bool {
    for (sector, line) in list.iter().zip(text.lines()) {
        if row(alloc, line) != Some(*sector) {
            return false;
        }
    }
    list.len() == text.lines().count()
}

/// Whether the register is written as the rows of a text.
fn is_written(alloc: Global, register: &Register<Global>, text: &str) -> bool {
    match rows(register, 1, alloc) {
        Ok(list) => are_rows(alloc, &list, text),
        Err(_) => false,
    }
}

/// Whether the register that the first image makes is written as the second; nothing where it makes none.
fn is_rewritten(alloc: Global, from: &str, to: &str) -> Option<bool> {
    let register = loaded(alloc, from)?;
    let is_written = is_written(alloc, &register, to);
    drop(register);
    Some(is_written)
}

#[test]
fn a_header_of_layout_1_is_read_and_one_of_layout_2_written(rt: HostRuntime) {
    assert!(rt; is_rewritten(rt.alloc(), PLAIN, WRITTEN) == Some(true));
}
