//! How the place of an entry comes back to its station, once the entry is taken.
ghost use Rattle.std.specs.Prelude.{◌≡◌, ◌<◌, [], ◌∷◌, IfOk};
ghost use Rattle.std.specs.Arc.{arc_value};
ghost use Rattle.crossbeam_queue.specs.Passes.{view as known, IsPassOf};

use crate::rule::{Queue, QueuePass};
use crossbeam_queue::protocol::{Outcome, Protocol, Split};
use crossbeam_queue::{Pass, RuledArrayQueue};
use std::alloc::{AllocError, Global};
use std::collections::LinkedList;
use std::marker::{Brand, Model, PhantomData};
use std::sync::Arc;

/// A permit for a place of the queue: the right to have one entry there. It has no bytes.
#[derive(Drop)]
pub struct Permit {
    pub(crate) pass: QueuePass,
}

impl Model for Permit {
    ghost use Rattle.std.specs.Prelude.{◌≡◌, []};
    ghost use Rattle.atomic_table.specs.Seated.{TableId};
    ghost use Rattle.crossbeam_queue.specs.Passes.{view as known};
    ghost use Rattle.station_queue.specs.Order.{place};

    ghost Value = { TableId };

    ghost view = { λ p. p.pass.table_id };

    ghost invariant = { λ p. (p.pass.me.1 ≡ []) × (known p.pass ≡ place) };
}

/// All places here are of one queue.
pub struct OfOneQueue;

impl Protocol<Permit, LinkedList<Permit>> for OfOneQueue {
    ghost use Rattle.std.specs.Prelude.{[]};
    ghost use Rattle.station_queue.specs.Returns.{AreOfOneQueue};

    ghost holds = { AreOfOneQueue };

    ghost first = { [] };
}

/// A queue whose places come back. An opening picks it.
pub trait Whose {
    ghost use Rattle.atomic_table.specs.Seated.{TableId};

    ghost queue: { TableId };
}

// An opening names its queue by `Brand`, and its proof says which one is meant.
impl Whose for Brand {
    ghost use Rattle.station_queue.specs.Returns.{some_queue};

    ghost queue = { some_queue };
}

/// The first pass becomes two, which know the queue.
pub struct Halves<K> {
    of: PhantomData<K>,
}

impl<K: Whose> Split<LinkedList<Permit>> for Halves<K> {
    ghost use Rattle.std.specs.Prelude.{[], ◌∷◌};

    ghost left = { λ v. K.queue ∷ [] };

    ghost right = { λ v. K.queue ∷ [] };
}

/// A place is put in.
pub struct PutsBack;

impl Outcome<Permit, LinkedList<Permit>> for PutsBack {
    ghost use Rattle.std.specs.Prelude.{◌≡◌};

    ghost then = { λ v x w. w ≡ v };
}

/// A place is taken out. It is of the queue that the pass knows.
pub struct TakesOut;

impl Outcome<Permit, LinkedList<Permit>> for TakesOut {
    ghost use Rattle.std.specs.Prelude.{◌≡◌, [], ◌∷◌};

    ghost then = { λ v x w. (w ≡ v) × (x ∷ [] ≡ v) };
}

pub type Returns = RuledArrayQueue<Permit, LinkedList<Permit>, OfOneQueue>;

pub type ReturnPass = Pass<Permit, LinkedList<Permit>>;

/// One of the two ends by which places come back to a station.
#[derive(Drop)]
pub struct Return {
    pub(crate) returns: Arc<Returns, Global>,
    pub(crate) pass: ReturnPass,
}

impl Model for Return {
    ghost use Rattle.std.specs.Prelude.{List};
    ghost use Rattle.std.specs.Arc.{arc_value};
    ghost use Rattle.atomic_table.specs.Seated.{TableId};
    ghost use Rattle.crossbeam_queue.specs.Passes.{view as known, IsPassOf};

    ghost Value = { List TableId };

    ghost view = { λ r. known r.pass };

    ghost invariant = { λ r. IsPassOf (arc_value r.returns) r.pass };
}

fn opened<K: Whose>(
    alloc: Global,
    room: usize,
    queue: &Queue,
) -> Result<(Return, Return), AllocError>
    requires room { 0 < room }
    requires queue { queue.now.table.shared.table_id ≡ K.queue }
    ensures { IfOk result (λ r. (r.0 ≡ queue.now.table.shared.table_id ∷ []) × (r.1 ≡ queue.now.table.shared.table_id ∷ [])) }
{
    let (returns, mut pass) = Returns::ruled(alloc, room)?;
    let returns = Arc::new(alloc, returns).map_err(|_| AllocError)?;
    let same = Arc::try_clone(&returns)?;
    let other = returns.another::<Halves<K>>(&mut pass);
    Ok((
        Return { returns, pass },
        Return {
            returns: same,
            pass: other,
        },
    ))
}

/// The two ends by which places of this queue come back to a station, with room for so many.
pub(crate) fn open_returns(
    alloc: Global,
    room: usize,
    queue: &Queue,
) -> Result<(Return, Return), AllocError>
    requires room { 0 < room }
    ensures { IfOk result (λ r. (r.0 ≡ queue.now.table.shared.table_id ∷ []) × (r.1 ≡ queue.now.table.shared.table_id ∷ [])) }
{
    opened::<Brand>(alloc, room, queue)
}

impl Return {
    ghost use Rattle.std.specs.Prelude.{◌≡◌, [], ◌∷◌, IfSome};

    /// Puts a place in. There is room for all places of a station, which no clause says: a place for which there is none is dropped.
    pub(crate) fn give(&mut self, place: Permit)
        requires { place ∷ [] ≡ self.old }
        ensures { self.new ≡ self.old }
    {
        let _given = self.returns.try_push_as::<PutsBack>(&mut self.pass, place);
    }

    /// A place that came back, if one is there.
    pub(crate) fn get(&mut self) -> Option<Permit>
        ensures same { self.new ≡ self.old }
        ensures place { IfSome result (λ p. p ∷ [] ≡ self.old) }
    {
        self.returns.try_pop_as::<TakesOut>(&mut self.pass)
    }
}
