//! The arguments of the program: its options and lock files, what is wrong with them, and what `--help` writes.
//!
//! `clap` reads the words by [`command`], [`Arguments`] says what they mean, and [`node_of`] reads the version of Node that an option
//! names.

mod argument_error;
mod arguments;
mod command;
mod help;
mod node;
mod paths;
mod usage;

pub use argument_error::ArgumentError;
pub use arguments::Arguments;
pub use command::{NUMBER, command};
pub use node::node_of;
pub use paths::Paths;
pub use usage::{Usage, usage_of};
