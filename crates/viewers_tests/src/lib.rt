//! Tests of the public calls of `snapshots`, with real threads.
#![tactic(auto)]

#[cfg(test)]
mod growing;
#[cfg(test)]
mod inside;
#[cfg(test)]
mod listing;
#[cfg(test)]
mod publishing;
#[cfg(test)]
mod staying;
#[cfg(test)]
mod turns;
