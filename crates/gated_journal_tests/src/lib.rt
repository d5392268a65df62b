//! Tests of the public calls of `gated_journal`, on a disk in memory.
#![tactic(auto)]

#[cfg(test)]
mod both;
#[cfg(test)]
mod calls;
#[cfg(test)]
mod damaged;
#[cfg(test)]
mod growths;
#[cfg(test)]
mod made;
#[cfg(test)]
mod numbered;
#[cfg(test)]
mod records;
