//! Tests of the public calls of `file_disk`, over a file in memory and over files of the operating system.
#![tactic(auto)]

#[cfg(test)]
mod host_files;
pub mod part_file;
#[cfg(test)]
mod parts;
#[cfg(test)]
mod runs;
pub mod step_file;
