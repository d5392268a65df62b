//! The centre as a machine over lists of events. It touches only memory: it has no disk and starts no thread, and serves
//! as the model of a centre that has both.
//!
//! [`World`] is the register with its queues, batches, commits, publications, answers, reads, crashes and reopenings. It
//! takes one [`Event`] at a time. `may` and `effect` of `specs/Next.antt` define which events may come next, and what they
//! do. [`laws`] has what holds over every list of events.
#![tactic(auto)]

mod batch;
mod entries;
mod event;
mod fault;
pub mod laws;
mod seats;
mod station;
mod world;

pub use event::Event;
pub use fault::StepFault;
pub use world::World;
