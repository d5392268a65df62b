//! Tests of `register_text`: worked lines and texts both ways, and lines and texts that are none.
#![tactic(auto)]

#[cfg(test)]
mod lines;
#[cfg(test)]
mod whole;
