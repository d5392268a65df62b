//! Tests of the public calls of the crates below the mail and the groups: `identity`, `prefix_tree`, `mm_pdus`,
//! `registration`, `sds_tl` and `sector_disk`. They are here so that no crate is proved a second time for its tests.
//!
//! `PrefixTree` is compared with `PrefixList`, a plain list whose functions are proved to be those of the same map.
#![tactic(auto)]

#[cfg(test)]
mod examples;
#[cfg(test)]
mod identities;
pub mod list;
#[cfg(test)]
mod list_in_small_heaps;
#[cfg(test)]
mod mobility;
#[cfg(test)]
mod one_by_one;
#[cfg(test)]
mod rules_and_radios;
#[cfg(test)]
mod runs;
#[cfg(test)]
mod sectors;
#[cfg(test)]
mod short_data;
#[cfg(test)]
mod trees;
