//! Single calls: a line is read, an answer is printed.

use crate::answered::command;
use centre_core::{Body, Command, Query, QueryAnswer};
use console::{Answer, Line, LineFault, Outage, laws, parse_line, print_answer};
use registration::Station;
use std::alloc::Global;

fn is_attach(command: &Command<Global>) -> bool {
    let Body::Mm { itsi, area, pdu } = &command.body else {
        return false;
    };
    let (station, sequence) = (command.station.number(), command.sequence.number());
    (station, sequence, command.moment.number()) == (3, 2, 10)
        && (itsi.ssi(), area.number(), pdu.len()) == (2001, 7, 10)
}

fn is_attach_read(alloc: Global) -> bool {
    match command(alloc, 3, "2 10 mm 234-14-2001 7 10:260") {
        Some(command) => is_attach(&command),
        None => false,
    }
}

fn is_query_read(alloc: Global) -> bool {
    matches!(
        parse_line(alloc, Station::new(3), b"where 234-14-2001"),
        Ok(Line::Ask(Query::Whereabouts(_)))
    )
}

fn is_refused(alloc: Global) -> bool {
    matches!(
        parse_line(alloc, Station::new(3), b"x"),
        Ok(Line::Bad(LineFault::Syntax))
    )
}

#[test]
fn lines_are_read(rt: HostRuntime) {
    let alloc = rt.alloc();
    assert!(rt; is_attach_read(alloc) && is_query_read(alloc) && is_refused(alloc));
}

/// Whether an answer has this text, and is trouble or not.
fn is_printed(alloc: Global, answer: &Answer<Global>, text: &str, is_trouble: bool) -> bool {
    let mut out = Vec::new(alloc);
    let is_printed = print_answer(&mut out, answer).is_ok();
    is_printed && out.as_slice() == text.as_bytes() && answer.is_trouble() == is_trouble
}

fn is_total_printed(alloc: Global) -> bool {
    let answer = Answer::Queried(QueryAnswer::Total(7));
    is_printed(alloc, &answer, "count 7\n", false)
}

fn is_outage_printed(alloc: Global) -> bool {
    let answer = Answer::QueryOutage(9, Outage::Memory);
    is_printed(alloc, &answer, "line 9 no memory\n", true)
}

#[test]
fn answers_are_printed(rt: HostRuntime) {
    assert!(rt; is_total_printed(rt.alloc()) && is_outage_printed(rt.alloc()));
}

#[test]
fn laws_are_stated() {
    laws::cut_off_is_prefix::<Global>();
    laws::one_text::<Global>();
    laws::broken_after_device::<Global>();
    laws::register_at_device::<Global>();
    laws::stored_as_register::<Global>();
    laws::only_what_is_spelled::<Global>();
    laws::all_that_is_spelled::<Global>();
    laws::bad_lines::<Global>();
    laws::mark_completes_no_command::<Global>();
}
