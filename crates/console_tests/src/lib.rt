//! Tests of the public calls of `centre_core`, `desk` and `console`, by lines and their answers wherever lines suffice.
#![tactic(auto)]

#[cfg(test)]
mod answered;
#[cfg(test)]
mod calls;
#[cfg(test)]
mod commands;
#[cfg(test)]
mod copies;
#[cfg(test)]
mod devices;
#[cfg(test)]
mod failing_desk;
#[cfg(test)]
mod fixed_heap;
#[cfg(test)]
mod group_copies;
#[cfg(test)]
mod least_heap;
#[cfg(test)]
mod limits;
#[cfg(test)]
mod listed;
#[cfg(test)]
mod lists;
#[cfg(test)]
mod long_runs;
#[cfg(test)]
mod marks;
#[cfg(test)]
mod parts;
#[cfg(test)]
mod same;
#[cfg(test)]
mod small_heaps;
#[cfg(test)]
mod together;
