//! A run of many stations in the life of its disk.

ghost use Rattle.stations.specs.Lives.{RunsGoOnWithLives};

use sector_disk::Disk;
use snapshots::Centre;
use std::io::{Read, Write};

/// A run of many stations goes on with the life of its disk: each round is a call in the life, and a stop may come at any moment. So
/// `recovery::lives::lasts` speaks of a disk that many runs of the program serve, one after another.
///
/// This function does nothing: calling it gives its clause.
pub fn run_lives<J: Centre, D: Disk, I: Read, O: Write>()
    ensures { RunsGoOnWithLives D.view J J.base I.remaining O.contents }
{}
