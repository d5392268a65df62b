//! The runs of stations beside one another, on one disk.
ghost use Rattle.std.specs.Prelude.{◌≡◌, IfErr, IfOk, cond, false, length, vec_len};
ghost use Rattle.flusher.specs.Opened.{has_place};
ghost use Rattle.flusher.specs.declared.opening.CentreFault.TheVariants.{NoMemory, NoPlace};
ghost use Rattle.recovery.specs.Lives.{view_of as store_view};
ghost use Rattle.served_disk.specs.Stations.{AreServed};

use crate::serving::Served;
use recovery::Store;
use sector_disk::Disk;
use snapshots::Centre;
use stations::{ManyTerms, Port, Unserved, Watch, run_many};
use std::alloc::Global;
use std::io::{Read, Write};
use std::rt::Clock;
use std::sync::Wait;
use std::thread::Threads;

/// The disk of a store, and whether it failed. Nothing more is done to it.
fn disk_of<D: Disk>(store: Store<Global, D>) -> (D, bool)
    ensures disk { result.0 ≡ store.disk }
    ensures broken { result.1 ≡ store.broken }
{
    let is_broken = store.register().is_none();
    (store.into_disk(), is_broken)
}

/// Answers the lines of stations 1, 2 and so on over the store, each to the writer of its port. If a station's run ends early,
/// only a prefix of its lines is answered. When all have ended, the disk comes back.
///
/// # Errors
/// `NoPlace` exactly for a number of ports that is not from 1 to the register's limit of stations. `NoMemory` comes before the first
/// station's thread. Either way no line was read and nothing was written: the store and the ports come back as they were.
pub fn serve_stations<
    J: Centre + Send + Sync,
    D: Disk + Drop,
    R: Threads + Wait + Clock + Sync,
    I: Read + Send + Drop,
    O: Write + Send + Drop,
    V: Watch + Sync,
>(
    rt: &R,
    terms: ManyTerms<'_>,
    store: Store<Global, D>,
    ports: Vec<Port<I, O>>,
    watch: &V,
) -> Result<Served<D, I, O>, Unserved<D, I, O>>
    requires sound { store.broken ≡ false }
    requires centre { (terms.log.seen.book ≡ J.book) × (store.register ≡ J.base) }
    ensures served { IfOk result (AreServed D.view J J.base terms.entry.orders terms.entry.turns I.remaining O.contents (store_view store) ports.items) }
    ensures all { IfOk result (λ served. length served.runs.items ≡ length ports.items) }
    ensures fault { IfErr result (λ e. e.fault ≡ cond (has_place store.register.registered.limits.stations (vec_len ports)) NoMemory NoPlace) }
    ensures same { IfErr result (λ e. (e.store ≡ store) × (e.ports ≡ ports)) }
{
    let many = run_many::<J, D, R, I, O, V>(rt, terms, store, ports, watch)?;
    let (disk, is_broken) = disk_of(many.store);
    Ok(Served {
        disk,
        runs: many.runs,
        is_broken,
    })
}
