//! Tests of the public calls of `schedule`.
#![tactic(auto)]

#[cfg(test)]
mod checkpoints;
#[cfg(test)]
mod commands;
#[cfg(test)]
mod plain;
#[cfg(test)]
mod random;
#[cfg(test)]
mod row;
#[cfg(test)]
mod small_heap;
#[cfg(test)]
mod steps;
