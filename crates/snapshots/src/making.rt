//! How a publisher and its viewers are made.
ghost use Rattle.std.specs.Prelude.{◌≡◌, ◌⊎◌, ◌<◌, ◌≤◌, [], All, Err, IfOk, IsErrOf, length};
ghost use Rattle.snapshots.specs.declared.making.MakeFault.TheVariants.{NoMemory, NoPlace};

use crate::log::{Centre, NewLog};
use crate::publisher::Publisher;
use crate::rule::SnapshotWriter;
use crate::snapshot::Snapshot;
use crate::viewer::Viewer;
use base::TryCopy;
use centre_core::Register;
use std::alloc::{AllocError, Global};
use std::collections::VecDeque;
use std::sync::Wait;

/// How many pending commands a publisher has room for from the start.
pub const PENDING: usize = 64;

/// The most places for viewers.
pub const PLACES: usize = 64;

/// Why nothing was made.
#[derive(Clone, Copy, Debug, PartialEq, Eq, Drop)]
pub enum MakeFault {
    /// There was no memory.
    NoMemory,
    /// The number of places is not 1 to 64.
    NoPlace,
}

impl From<AllocError> for MakeFault {
    ghost from_gives = { λ _ e. e ≡ NoMemory };

    fn from(_: AllocError) -> MakeFault {
        MakeFault::NoMemory
    }
}

// Adds viewers that have seen nothing, one for each place.
fn add_viewers<J: Centre>(
    publisher: &Publisher<J>,
    viewers: &mut Vec<Viewer<J>>,
    places: usize,
) -> Result<(), AllocError>
    requires { (publisher.now.published ≡ []) × (viewers.old.items ≡ []) }
    ensures { IfOk result (λ _. (length viewers.new.items ≡ places) × All (λ v. v ≡ []) viewers.new.items) }
{
    for _ in 0..places {
        let viewer = Viewer {
            reader: publisher.writer.factory().reader()?,
            known: publisher.published(),
            base: publisher.base,
        };
        if viewers.push(viewer).is_err() {
            return Err(AllocError);
        }
    }
    Ok(())
}

fn new_publisher<J: Centre>(
    alloc: Global,
    log: NewLog,
    register: Register<Global>,
    places: usize,
) -> Result<Publisher<J>, AllocError>
    requires centre { (log.seen.book ≡ J.book) × (register ≡ J.base) }
    requires places { (0 < places) × (places ≤ 64) }
    ensures { IfOk result (λ p. (p.published ≡ []) × (p.appended ≡ []) × (p.refusals ≡ 0)) }
{
    let NewLog { word, seen } = log;
    let base = register.count();
    let pending = VecDeque::with_capacity(alloc, PENDING)?;
    let second = Snapshot {
        register: register.try_copy()?,
        list: seen.again(),
        alloc,
    };
    let first = Snapshot {
        register,
        list: seen.again(),
        alloc,
    };
    let writer: SnapshotWriter<J> = SnapshotWriter::<J>::new(alloc, first, second, places)?;
    Ok(Publisher {
        writer,
        word,
        appended: seen,
        pending,
        base,
        count: 0,
        refusals: 0,
    })
}

/// A publisher of this register, which it copies once, and a viewer for each of 1 to 64 places. Nothing is appended yet,
/// and the viewers have seen nothing. If a viewer can't be made, the publisher is ended. That does not wait, since nobody
/// reads yet.
///
/// `NoPlace` comes for another number of places, and for nothing else.
pub fn make<J: Centre, R: Wait>(
    rt: &R,
    alloc: Global,
    log: NewLog,
    register: Register<Global>,
    places: usize,
) -> Result<(Publisher<J>, Vec<Viewer<J>>), MakeFault>
    requires centre { (log.seen.book ≡ J.book) × (register ≡ J.base) }
    ensures publisher { IfOk result (λ r. (r.0.published ≡ []) × (r.0.appended ≡ []) × (r.0.refusals ≡ 0)) }
    ensures viewers { IfOk result (λ r. (length r.1.items ≡ places) × All (λ v. v ≡ []) r.1.items) }
    ensures no_place { (places ≡ 0) ⊎ (64 < places) → result ≡ Err NoPlace }
    ensures only_no_place { IsErrOf result NoPlace → (places ≡ 0) ⊎ (64 < places) }
{
    if places == 0 || places > PLACES {
        return Err(MakeFault::NoPlace);
    }
    let mut viewers = Vec::with_capacity(alloc, places)?;
    let publisher = new_publisher::<J>(alloc, log, register, places)?;
    match add_viewers(&publisher, &mut viewers, places) {
        Ok(()) => Ok((publisher, viewers)),
        Err(AllocError) => {
            publisher.close(rt);
            Err(MakeFault::NoMemory)
        }
    }
}
