//! Tests that only a caller in Rattle can make: of `node_semver` a type of its own that is seen as a version, values that borrow a text,
//! and the example of the README; of `semver_cuts` cuts and spans of other types than versions; and `node_semver_callers`. The tests of all
//! other calls are rows, in `tests/rows`.
#![tactic(auto)]

#[cfg(test)]
mod algebra;
#[cfg(test)]
mod callers;
#[cfg(test)]
mod cuts;
#[cfg(test)]
mod own_type;
#[cfg(test)]
mod readme;
#[cfg(test)]
mod spans;
#[cfg(test)]
mod stepped;
