//! Tests of `node_semver_callers`, a file a caller.
mod advisory;
mod both;
mod change;
mod checks;
mod common;
mod least;
mod lock_file;
mod mirror;
mod newest;
mod package;
mod spared;
mod tree;
mod wanted;
