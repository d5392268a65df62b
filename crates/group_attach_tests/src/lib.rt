//! Tests of the public calls of `group_attach`. The program's rows in tests/program/rows also test how group PDUs are
//! answered, and what updates end.
#![tactic(auto)]

#[cfg(test)]
mod fixed_heap;
#[cfg(test)]
mod fixture;
#[cfg(test)]
mod one_by_one;
#[cfg(test)]
mod plain;
#[cfg(test)]
mod restored;
#[cfg(test)]
mod side_by_side;
#[cfg(test)]
mod small_heap;
