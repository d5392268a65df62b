//! Tests of the public calls of `flusher`, with real threads.
#![tactic(auto)]

#[cfg(test)]
mod answered;
#[cfg(test)]
mod centres;
#[cfg(test)]
mod closing;
#[cfg(test)]
mod empty;
#[cfg(test)]
mod failing;
#[cfg(test)]
mod gapless;
#[cfg(test)]
mod held;
#[cfg(test)]
mod listing;
