//! Runs over registers with room for one item, and for two. A message to a group of two radios waits for both or for none.

use crate::answered::answers;
use crate::limits::limits;
use centre_core::Register;
use std::alloc::Global;

const LINES: &str = "1 0 rule 234-14-0/24 1 99 1 3600\n\
     2 10 mm 234-14-2001 7 10:260\n\
     3 20 mm 234-14-2001 7 60:7380480A00007D0\n\
     4 21 mm 234-14-2002 7 10:260\n\
     5 22 mm 234-14-2002 7 60:7380480A00007D0\n\
     6 23 mm 234-14-2003 7 10:260\n\
     7 100 gsds 234-14-2003 234-14-1000 48:820405014849\n\
     mail 234-14-2001\n\
     mail 234-14-2002\n\
     count\n";

const FOR_NOBODY: &str = "7 no centre-full\n\
     mail 234-14-2001 0\n\
     mail 234-14-2002 0\n\
     count 6\n";

const FOR_BOTH: &str = "7 ok 7 -\n\
     mail 234-14-2001 1\n\
     item 7 m 234-14-2003 5 3700 48:820405014849 234-14-1000\n\
     mail 234-14-2002 1\n\
     item 7 m 234-14-2003 5 3700 48:820405014849 234-14-1000\n\
     count 7\n";

/// Whether the answers end so in a register with room for so many items.
fn end_so(alloc: Global, room: u32, end: &str) -> Option<bool> {
    let limits = limits(16, 16, room)?;
    let mut desk = Register::new(alloc, limits).ok()?;
    let said = answers(alloc, alloc, &mut desk, LINES.as_bytes());
    drop(desk);
    match said {
        Some(out) => Some(out.as_slice().ends_with(end.as_bytes())),
        None => None,
    }
}

#[test]
fn a_message_waits_for_both_or_for_nobody(rt: HostRuntime) {
    assert!(rt; end_so(rt.alloc(), 1, FOR_NOBODY) == Some(true));
    assert!(rt; end_so(rt.alloc(), 2, FOR_BOTH) == Some(true));
}
