//! The run of one station.
ghost use Rattle.std.specs.Prelude.{◌≡◌};
ghost use Rattle.stations.specs.GoesOn.{GoesOn, GoesOnFrom, beginning_of};
ghost use Rattle.stations.specs.OneRun.{BorrowsSame, HasAnsweredLines, IsCounted};

use crate::session_desk::{Began, SessionDesk};
use crate::station_text::StationText;
use crate::watch::Watch;
use console::{Input, Output, Ran, RunFault, ServiceFigures, Terms, run_counted};
use flusher::Session;
use snapshots::Centre;
use std::alloc::Global;
use std::io::{Read, Write};
use std::marker::Brand;
use std::rt::Clock;
use std::sync::Wait;
use std::sync::ledger::Ledger;

/// What the run of a station is given.
#[derive(Clone, Copy)]
pub struct Serving<'r, 'w, 't, R, V> {
    /// The runtime, which lets it wait.
    pub rt: &'r R,
    /// What is called as the run goes on.
    pub watch: &'w V,
    /// The text of its listing, which is counted until it is written.
    pub text: &'t StationText<'t, 'r, R>,
    /// The figures of the service.
    pub service: &'t ServiceFigures,
    /// Where the memory for its lines, commands and answers comes from.
    pub alloc: Global,
    /// The most calls of its reader.
    pub turns: u32,
    /// Whether the station may give orders.
    pub orders: bool,
}

/// Answers the lines of a station by its session, as [`run_counted`] does. The session comes back, of the same station, on the same
/// queue and channel. If the station may give no orders, none was submitted.
pub fn run_session<
    J: Centre,
    R: Wait + Clock,
    V: Watch,
    I: Read,
    O: Write,
    L: Ledger,
    F: Ledger,
    G: Ledger,
>(
    serving: &Serving<R, V>,
    input: &mut Input<I, L, F>,
    output: &mut Output<O, G>,
    session: Session<J>,
) -> (Session<J>, Result<Ran, RunFault>)
    // How the lines were answered, over any reader and any writer too, and why the run ended.
    ensures lines { HasAnsweredLines J.base I.remaining O.contents serving.now.orders serving.now.turns
        session input.old input.new output.old output.new result }
    // The session that comes back.
    ensures goes_on { GoesOnFrom serving.now.orders (beginning_of session) result.0 }
    // How often the reader was called, and when each fault comes.
    ensures counts { IsCounted serving.now.turns session input.old input.new output.old output.new result }
    // The input and the output borrow the same as before.
    ensures borrows { BorrowsSame input.old input.new output.old output.new }
{
    run_begun::<Brand, J, R, V, I, O, L, F, G>(serving, input, output, session)
}

// Answers the lines of a station as `run_session` does. `K` states what the session was when its run began.
fn run_begun<
    K: Began,
    J: Centre,
    R: Wait + Clock,
    V: Watch,
    I: Read,
    O: Write,
    L: Ledger,
    F: Ledger,
    G: Ledger,
>(
    serving: &Serving<R, V>,
    input: &mut Input<I, L, F>,
    output: &mut Output<O, G>,
    session: Session<J>,
) -> (Session<J>, Result<Ran, RunFault>)
    requires goes_on { GoesOn K.may_order K.began session }
    requires orders { serving.now.orders ≡ K.may_order }
    ensures lines { HasAnsweredLines J.base I.remaining O.contents serving.now.orders serving.now.turns
        session input.old input.new output.old output.new result }
    ensures goes_on { GoesOn K.may_order K.began result.0 }
    ensures counts { IsCounted serving.now.turns session input.old input.new output.old output.new result }
    ensures borrows { BorrowsSame input.old input.new output.old output.new }
{
    let terms = Terms {
        alloc: serving.alloc,
        station: session.station(),
        orders: serving.orders,
        turns: serving.turns,
    };
    let mut desk = SessionDesk::<K, J, R, V>::new(serving, session);
    let ran = run_counted(terms, serving.service, input, output, &mut desk);
    (desk.into_session(), ran)
}
