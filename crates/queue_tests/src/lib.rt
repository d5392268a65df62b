//! Tests of the public calls of `station_queue` and `answers`, in several threads and in one.
#![tactic(auto)]

#[cfg(test)]
mod channels;
#[cfg(test)]
mod queued;
