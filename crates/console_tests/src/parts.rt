//! The parts that a register gives by reference.

use crate::answered::are_answered;
use crate::limits::usual;
use centre_core::Register;
use identity::Itsi;
use std::alloc::Global;

const LINES: &str = "1 0 rule 234-14-0/24 1 99 1 3600\n\
     2 10 mm 234-14-2001 7 10:260\n\
     3 20 mm 234-14-2001 7 60:7380480A00007D0\n\
     4 100 sds 234-14-2001 234-14-2001 48:820405014849\n";

const ANSWERS: &str = "1 ok 1 -\n2 ok 2 8:56\n3 ok 3 62:B3704C0980001F40\n4 ok 4 -\n";

fn are_borrowed(register: &Register<Global>, here: Itsi) -> bool {
    let Some(Some(last)) = register.served().first() else {
        return false;
    };
    let attachment = register.groups().next_of(here, None);
    let item = register.mail().next(None);
    register.registry().is_present(here)
        && attachment.is_some_and(|attachment| attachment.gtsi.ssi() == 1000)
        && item.is_some_and(|item| item.number() == 4)
        && register.served().len() == 4
        && (last.sequence.number(), last.number) == (4, 4)
        && last.pdu.is_none()
}

fn are_parts_right(alloc: Global) -> Option<bool> {
    let (here, limits) = (Itsi::new(234, 14, 2001)?, usual()?);
    let mut register = Register::new(alloc, limits).ok()?;
    let answered = are_answered(
        alloc,
        alloc,
        &mut register,
        LINES.as_bytes(),
        ANSWERS.as_bytes(),
    );
    let are_borrowed = are_borrowed(&register, here);
    drop(register);
    Some(answered && are_borrowed)
}

#[test]
fn parts_are_borrowed(rt: HostRuntime) {
    assert!(rt; are_parts_right(rt.alloc()) == Some(true));
}
