//! Tests of the public calls of `settings`.
#![tactic(auto)]

#[cfg(test)]
mod files;
#[cfg(test)]
mod texts;
