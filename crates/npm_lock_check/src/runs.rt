//! A run of the program `npm_lock_check` over several lock files: what is written of them, what each error is about, and the exit
//! status.
//!
//! [`run`] checks lock files and writes the output of all, [`stop_text`] is what is written if none can be checked. [`subject_of`] and
//! [`lock_subject`] begin a line on standard error, [`sentences_of`] are the lines of exceptions, and [`status_of`] returns the exit status.

mod exceptions;
mod lock_files;
mod marks;
mod outputs;
mod refused;
mod status;
mod subject;

pub use exceptions::sentences_of;
pub use lock_files::{Writing, run, stop_text};
pub use status::status_of;
pub use subject::{Subject, lock_subject, subject_of};
