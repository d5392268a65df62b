//! Tests of the public calls of `recovery`, on a disk in memory.
#![tactic(auto)]

#[cfg(test)]
mod calls;
#[cfg(test)]
mod checks;
#[cfg(test)]
mod commits;
#[cfg(test)]
mod figures;
#[cfg(test)]
mod formats;
#[cfg(test)]
mod formats_with;
#[cfg(test)]
mod greatest;
#[cfg(test)]
mod group_message;
#[cfg(test)]
mod layouts;
#[cfg(test)]
mod made;
#[cfg(test)]
mod ongoing;
#[cfg(test)]
mod opens;
#[cfg(test)]
mod resent;
#[cfg(test)]
mod runs;
#[cfg(test)]
mod small_heaps;
