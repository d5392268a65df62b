//! A copy of a register answers as the register did when it was copied, whatever commands the register gets then.

use crate::answered::are_answered;
use crate::limits::usual;
use base::TryCopy;
use centre_core::Register;
use std::alloc::Global;

const BEFORE: (&str, &str) = (
    "1 0 rule 234-14-0/24 1 99 1 3600\n\
     2 10 mm 234-14-2001 7 10:260\n\
     3 20 mm 234-14-2001 7 60:7380480A00007D0\n\
     4 100 sds 234-14-2001 234-14-2001 48:820405014849\n",
    "1 ok 1 -\n2 ok 2 8:56\n3 ok 3 62:B3704C0980001F40\n4 ok 4 -\n",
);

/// The commands to the register after it was copied, which undo the commands above, and their answers.
const AFTER: (&str, &str) = (
    "5 3700 expire\n6 130 mm 234-14-2001 7 7:74\n7 140 mm 234-14-2001 0 5:10\n8 150 unrule 234-14-0/24\n",
    "5 ok 5 -\n6 ok 6 7:B0\n7 ok 7 -\n8 ok 8 -\n",
);

const QUESTIONS: &str =
    "where 234-14-2001\nlook 234-14-9\ngroups 234-14-2001\nmembers 234-14-1000\nmail 234-14-2001\ncount\n";

const OF_THE_COPY: &str =
    "where 234-14-2001 station 1 la 7 present\nlook 234-14-9 234-14-0/24 1 99 1 3600\n\
     groups 234-14-2001 1\ngroup 234-14-1000 4 1\nmembers 234-14-1000 1\nmember 234-14-2001 4\n\
     mail 234-14-2001 1\nitem 4 m 234-14-2001 5 3700 48:820405014849\ncount 4\n";

const OF_THE_REGISTER: &str =
    "where 234-14-2001 station 1 la 7 absent\nlook 234-14-9 none\ngroups 234-14-2001 0\n\
     members 234-14-1000 0\nmail 234-14-2001 0\ncount 8\n";

type Desk = Register<Global>;

fn has_answers(alloc: Global, desk: &mut Desk, (lines, want): (&str, &str)) -> bool {
    are_answered(alloc, alloc, desk, lines.as_bytes(), want.as_bytes())
}

/// Whether the copy answers as the register did before it got more commands.
fn are_apart(alloc: Global, desk: &mut Desk, copy: &mut Desk) -> bool {
    has_answers(alloc, desk, AFTER)
        && has_answers(alloc, copy, (QUESTIONS, OF_THE_COPY))
        && has_answers(alloc, desk, (QUESTIONS, OF_THE_REGISTER))
}

fn is_copy_apart(alloc: Global, desk: &mut Desk) -> Option<bool> {
    let before = has_answers(alloc, desk, BEFORE);
    let mut copy = desk.try_copy().ok()?;
    let are_apart = are_apart(alloc, desk, &mut copy);
    drop(copy);
    Some(before && are_apart)
}

fn is_copied(alloc: Global) -> Option<bool> {
    let limits = usual()?;
    let mut desk = Register::new(alloc, limits).ok()?;
    let is_apart = is_copy_apart(alloc, &mut desk);
    drop(desk);
    is_apart
}

#[test]
fn a_copy_is_apart(rt: HostRuntime) {
    assert!(rt; is_copied(rt.alloc()) == Some(true));
}
