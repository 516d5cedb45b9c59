//! What programs about packages share: replies by the documents of a registry, which are the version that npm would install, the
//! dependencies of a lock file that are outdated, and the versions that a mirror keeps; and what they read.
//!
//! - [`packument_in`] reads the document of a package in a folder, [`file_value`] a JSON file, and [`manifests_at`] manifests.
//! - [`parts_of`] divides a word of a command line. [`before_of`], [`node_of`] and [`npm_of`] read a time and versions.
//!
//! [`reply_to`] returns the [`Reply`] to a [`Question`], with its lines in a [`Format`] and how the program ends. [`RunError`] says why
//! there is no reply, and [`LoadError`] why the document of a package is not read.
#![tactic(auto)]

mod format;
mod given;
mod inputs;
mod json_file;
mod lines;
mod load_error;
mod manifest;
mod mirror;
mod outdated;
mod packument_file;
mod reply;
mod run_error;
mod words;

pub use format::Format;
pub use given::version_of;
pub use inputs::{ReadError, before_of, file_value, manifests_at, node_of, npm_of};
pub use load_error::{LoadError, PackageName};
pub use mirror::KeptPackage;
pub use mirror::texts::{absent_names, lacking_texts};
pub use packument_file::packument_in;
pub use reply::{Ending, Question, Reply, reply_to};
pub use run_error::RunError;
pub use words::parts_of;
