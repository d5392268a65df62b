//! The gate of the rounds of a run: it keeps the figures of the store, and then calls the watch.
ghost use Rattle.std.specs.Prelude.{◌≡◌};
ghost use Rattle.stations.specs.Figures.{since};

use crate::watch::Watch;
use console::{ServiceFigures, StoreFigures};
use flusher::Gate;
use recovery::Figures;
use std::sync::atomic::{AtomicU64, Ordering};

/// The figures of a store, counted from those at the start of its service.
pub(crate) fn since(start: &Figures, now: &Figures, syncs: u64) -> StoreFigures
    ensures { result ≡ since start.now now.now syncs }
{
    StoreFigures {
        commands: now.count.saturating_sub(start.count),
        syncs,
        checkpoints: now.epoch.saturating_sub(start.epoch),
        epoch: now.epoch,
        free: now.free,
    }
}

/// The gate of a run.
#[derive(Drop)]
pub(crate) struct RoundGate<'s, V> {
    pub(crate) watch: &'s V,
    pub(crate) service: &'s ServiceFigures,
    /// How often the disk was synced.
    pub(crate) syncs: &'s AtomicU64,
    /// The figures of the store at the start.
    pub(crate) start: Figures,
}

impl<'s, V: Watch> Gate for RoundGate<'s, V> {
    /// The watch may let the flusher sleep, and so it comes last.
    fn before_commit(&self, round: u64, taken: usize) {
        self.service.set_rounds(round);
        self.watch.before_commit(round, taken);
    }

    fn show_store(&self, figures: Option<Figures>) {
        if let Some(now) = &figures {
            let syncs = self.syncs.load(Ordering::SeqCst);
            self.service.set_store(&since(&self.start, now, syncs));
        }
        self.watch.show_store(figures);
    }
}
