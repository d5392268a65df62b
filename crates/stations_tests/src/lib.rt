//! Tests of a run of many stations, with real threads.
#![tactic(auto)]

#[cfg(test)]
mod held;
#[cfg(test)]
mod stores;
#[cfg(test)]
mod writers;
