//! Tests of the bytes of `image_rows`: worked rows both ways, each of their bytes changed,
//! small heaps, a register's rows one after another, and both tags of a header.
#![tactic(auto)]

#[cfg(test)]
mod changed;
#[cfg(test)]
mod growth;
#[cfg(test)]
mod heaps;
#[cfg(test)]
mod layouts;
#[cfg(test)]
mod loaded;
#[cfg(test)]
mod refused;
#[cfg(test)]
mod rows;
#[cfg(test)]
mod spelled;
#[cfg(test)]
mod walked;
