//! The console of the location register: lines of a station in, answers out. It touches only the reader, the writer and
//! the desk that it is given, and knows nothing of files, disks and threads.
//!
//! [`run`] serves any [`Desk`] with the lines of any reader. `specs/Reading.antt` defines what a line asks,
//! `specs/Dialogue.antt` which answers it may get, and `specs/Answer.antt` how an answer is written.
#![tactic(auto)]

mod answer;
mod answer_text;
mod body;
mod ends;
mod events;
mod figures;
mod form;
mod hearing;
mod input;
pub mod laws;
mod line;
mod lists;
mod mark;
mod output;
mod passed;
mod progress;
mod reporting;
mod running;
mod service;
mod serving;
mod spaces;
mod split;
mod together;
mod words;

pub use answer::{Answer, Lines, print_answer};
pub use desk::{Desk, Outage};
pub use figures::{ReplyCounts, ServiceFigures, StationFigures, StoreFigures};
pub use input::Input;
pub use line::{Line, LineFault, parse_line};
pub use mark::Mark;
pub use output::Output;
pub use passed::Passed;
pub use reporting::{AfterFlush, ReportingWriter};
pub use running::{Ran, RunFault, Terms, run, run_counted, run_under};
