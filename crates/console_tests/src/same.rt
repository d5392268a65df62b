//! Whether two commands are the same.

use crate::answered::command;
use std::alloc::Global;

/// Commands, each of which differs in one part from another one.
const COMMANDS: &str = "7 100 expire
8 100 expire
7 101 expire
7 100 rule 234-14-0/24 1 99 1 3600
7 100 rule 234-14-0/23 1 99 1 3600
7 100 rule 234-14-0/24 2 99 1 3600
7 100 rule 234-14-0/24 1 98 1 3600
7 100 rule 234-14-0/24 1 99 2 3600
7 100 rule 234-14-0/24 1 99 1 3601
7 100 unrule 234-14-0/24
7 100 unrule 234-14-0/25
7 100 mm 234-14-2001 7 10:260
7 100 mm 234-14-2002 7 10:260
7 100 mm 234-14-2001 8 10:260
7 100 mm 234-14-2001 7 10:264
7 100 mm 234-14-2001 7 11:260
7 100 sds 234-14-2001 234-14-2002 8:82
7 100 sds 234-14-2003 234-14-2002 8:82
7 100 sds 234-14-2001 234-14-2003 8:82
7 100 sds 234-14-2001 234-14-2002 8:83
7 100 gsds 234-14-2001 234-14-2002 8:82
7 100 gsds 234-14-2003 234-14-2002 8:82
7 100 gsds 234-14-2001 234-14-2003 8:82
7 100 gsds 234-14-2001 234-14-2002 8:83
7 100 sent 234-14-2001 234-14-2002 5 m
7 100 sent 234-14-2003 234-14-2002 5 m
7 100 sent 234-14-2001 234-14-2003 5 m
7 100 sent 234-14-2001 234-14-2002 6 m
7 100 sent 234-14-2001 234-14-2002 5 r
7 100 delete 234-14-2001 234-14-2002 5 m
7 100 delete 234-14-2003 234-14-2002 5 m
7 100 delete 234-14-2001 234-14-2003 5 m
7 100 delete 234-14-2001 234-14-2002 6 m
7 100 delete 234-14-2001 234-14-2002 5 r";

/// Whether the two lines of these stations spell the same command.
fn is_same(alloc: Global, (one, of): (&str, u16), (other, by): (&str, u16)) -> Option<bool> {
    match (command(alloc, of, one), command(alloc, by, other)) {
        (Some(one), Some(other)) => Some(one.same(&other)),
        _ => None,
    }
}

/// Whether the bodies of the two lines are the same.
fn asks_same(alloc: Global, one: &str, other: &str) -> Option<bool> {
    match (command(alloc, 4, one), command(alloc, 5, other)) {
        (Some(one), Some(other)) => Some(one.body.same(&other.body)),
        _ => None,
    }
}

/// Whether the line spells the command at its place in the list, and no other one.
fn is_one(alloc: Global, place: usize, line: &str) -> bool {
    for (at, other) in COMMANDS.lines().enumerate() {
        if is_same(alloc, (line, 4), (other, 4)) != Some(at == place) {
            return false;
        }
    }
    true
}

/// Whether each command of the list is the same as itself, and as no other one.
fn are_apart(alloc: Global) -> bool {
    for (place, line) in COMMANDS.lines().enumerate() {
        if !is_one(alloc, place, line) {
            return false;
        }
    }
    true
}

#[test]
fn a_command_is_the_same_as_itself_alone(rt: HostRuntime) {
    assert!(rt; are_apart(rt.alloc()));
    assert!(rt; is_same(rt.alloc(), ("7 100 expire", 4), ("7 100 expire", 5)) == Some(false));
}

/// Two lines, and whether their bodies are the same.
const BODIES: [(&str, &str, bool); 3] = [
    ("7 100 expire", "8 101 expire", true),
    (
        "7 100 mm 234-14-2001 7 10:260",
        "8 101 mm 234-14-2001 7 10:260",
        true,
    ),
    (
        "7 100 mm 234-14-2001 7 10:260",
        "7 100 mm 234-14-2001 7 10:264",
        false,
    ),
];

#[test]
fn a_body_is_the_same_under_another_head(rt: HostRuntime) {
    for (one, other, want) in BODIES {
        assert!(rt; asks_same(rt.alloc(), one, other) == Some(want));
    }
}
