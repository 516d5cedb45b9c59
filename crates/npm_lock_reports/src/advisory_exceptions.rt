//! Exceptions to security advisories: an advisory that does not count for a package, why, and until when; and the files in TOML that have
//! them.

mod day;
mod error;
mod exception;
mod file;
mod index;
mod item;
mod keys;
mod place;
mod read;
mod refusal;

pub use day::day_at;
pub use error::{ExceptionFault, ExceptionsError};
pub use exception::Exception;
pub use file::read_file;
pub use index::ExceptionIndex;
pub use read::read_exceptions;
pub use toml_datetime::Date;
