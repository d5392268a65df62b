//! Tests of the public calls of `checkpoint`, on a disk in memory.
#![tactic(auto)]

#[cfg(test)]
mod failing;
#[cfg(test)]
mod in_turn;
#[cfg(test)]
mod made;
#[cfg(test)]
mod moved;
#[cfg(test)]
mod places;
#[cfg(test)]
mod read;
#[cfg(test)]
mod written;
