//! Rows that are refused among those that are taken: each changes nothing.
use crate::loaded::{is_finished, limits, row};
use image_rows::Loader;
use std::alloc::Global;

/// Rows one after another: `+` for a row that is taken, `-` for one that is refused, and why.
const ROWS: &str = "\
-11 18 3a800e000000 0001 0063 01 00000e10=a rule before the header
-16 0000000000000001 4000000000000001 00000002 00000002 00000002 00000002=more commands than have numbers
-16 0000000000000001 0000000000000006 0000000b 00000002 00000002 00000002=more rules than the limit
-16 0000000000000001 0000000000000006 00000002 0000000b 00000002 00000002=more radios
-16 0000000000000001 0000000000000006 00000002 00000002 0000000b 00000002=more mail
-16 0000000000000001 0000000000000006 00000002 00000002 00000002 00000005=more stations
+16 0000000000000001 0000000000000006 00000002 00000002 00000002 00000002=the header
-16 0000000000000001 0000000000000006 00000002 00000002 00000002 00000002=a second header
-12 3a800e0007d1 0001 0007 01 00=a radio before the rules
+11 18 3a800e000000 0001 0063 01 00000e10=a rule
-11 18 3a800e000000 0001 0063 01 00000e10=the same rule
-11 10 3a8000000000 0001 0063 01 00000e10=a rule that comes before
-12 3a800e0007d1 0001 0007 01 00=a radio before the last rule
+11 30 3a800e0007d1 0001 0063 01 00000e10=another rule
-11 30 3a800e0007d2 0001 0063 01 00000e10=a rule too many
-12 3a800e0007d1 0000 0007 01 00=station 0
-12 3a800e0007d1 0005 0007 01 00=a station above the limit
-12 3a800e0007d1 0001 0007 01 02 3a800e0003e8 11 3a800e0003e7 11=groups out of order
-12 3a800e0007d1 0001 0007 01 02 3a800e0003e8 11 3a800e0003e8 12=a group twice
+12 3a800e0007d1 0001 0007 01 01 3a800e0003e8 11=a radio
-12 3a800e0007d1 0001 0007 01 00=the same radio
-12 3a800e0007d0 0001 0007 01 00=a radio that comes before
-13 0000000000000005 0000000000000e88 3a800e0007d1 3a800e0007d2 05 01 0020 82100205=mail before the last radio
+12 3a800e0007d2 0004 0007 00 00=another radio
-12 3a800e0007d3 0001 0007 01 00=a radio too many
-13 0000000000000000 0000000000000e88 3a800e0007d1 3a800e0007d2 05 01 0020 82100205=number 0
-13 0000000000000007 0000000000000e88 3a800e0007d1 3a800e0007d2 05 01 0020 82100205=a number above the count
-13 0000000000000005 0000000000000e88 3a800e0007d1 3a800e0007d2 05 00 0020 82100205=a report as a message
-14 0001 00000006 0000000000000006 0000=a station before the mail
+13 0000000000000005 0000000000000e88 3a800e0007d1 3a800e0007d2 05 01 0020 82100205=a report
-13 0000000000000005 0000000000000e88 3a800e0007d1 3a800e0007d2 05 01 0020 82100205=the same report
-13 0000000000000006 0000000000000e88 3a800e0007d1 3a800e0007d2 05 01 0020 82100205=its key again
-13 0000000000000004 0000000000000e88 3a800e0007d1 3a800e0007d2 06 01 0020 82100206=an item that comes before
+13 0000000000000006 0000000000000e88 3a800e0007d1 3a800e0007d2 06 01 0020 82100206=another report
-13 0000000000000006 0000000000000e88 3a800e0007d1 3a800e0007d2 07 01 0020 82100207=an item too many
-14 0000 00000006 0000000000000006 0000=station 0
-14 0005 00000006 0000000000000006 0000=a station above the limit
-14 0001 00000006 0000000000000000 0000=number 0
-14 0001 00000006 0000000000000007 0000=a number above the count
-14 0001 00000000 0000000000000006 0000=sequence 0
+14 0002 00000006 0000000000000005 0008 56=a station
-14 0002 00000006 0000000000000006 0000=the same station
-14 0001 00000006 0000000000000006 0000=a station that comes before
+14 0004 00000007 0000000000000006 0000=the last station
-14 0003 00000006 0000000000000006 0000=a station too many
-16 0000000000000001 0000000000000006 00000002 00000002 00000002 00000002=a header after the last row";

/// Whether the row is taken if it has a `+`, and else refused.
fn is_right(alloc: Global, loader: &mut Loader<Global>, text: &str) -> bool {
    match row(alloc, text) {
        Some(row) => loader.take(&row) == Ok(text.starts_with('+')),
        None => false,
    }
}

/// The reason beside the first row that is answered wrongly. It is nothing where all are right and the last one leaves
/// the image whole.
fn wrong_row(alloc: Global, loader: &mut Loader<Global>) -> Option<&'static str> {
    for line in ROWS.lines() {
        let Some((text, why)) = line.split_once('=') else {
            return Some(line);
        };
        if !is_right(alloc, loader, text) {
            return Some(why);
        }
    }
    (!loader.is_whole()).then_some("it is not whole")
}

/// The same, or that the image is not the one of the header; nothing where there is no loader.
fn first_wrong(alloc: Global) -> Option<Option<&'static str>> {
    let mut loader = Loader::new(alloc, limits()?).ok()?;
    let wrong = wrong_row(alloc, &mut loader);
    let finished = is_finished(loader);
    Some(wrong.or((!finished).then_some("it is not finished")))
}

#[test]
fn faulty_rows_are_refused(rt: HostRuntime) {
    assert_eq!(rt; first_wrong(rt.alloc()), Some(None));
}
