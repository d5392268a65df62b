//! Tests of the public calls of `mailbox`. The program's rows in tests/program/rows also test how messages, reports and
//! acknowledgements are answered.
#![tactic(auto)]

#[cfg(test)]
mod due;
#[cfg(test)]
mod expiry;
#[cfg(test)]
mod fixed_heap;
#[cfg(test)]
mod fixture;
#[cfg(test)]
mod groups;
#[cfg(test)]
mod moments;
#[cfg(test)]
mod one_by_one;
#[cfg(test)]
mod plain;
#[cfg(test)]
mod restored;
#[cfg(test)]
mod side_by_side;
#[cfg(test)]
mod small_heap;
#[cfg(test)]
mod to_group;
