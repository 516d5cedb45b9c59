//! Why a file was not read as JSON.
ghost use Rattle.std.specs.Prelude.{◌≡◌, ◌↔◌, ◌⊎◌, ℕ};
ghost use Rattle.std.specs.IoError.{error_kind};
ghost use Rattle.std.specs.declared.io.ErrorKind.{ErrorKind};
ghost use Rattle.serde_json.specs.Errors.{IsMemory};

use std::io;
use std::io::ErrorKind;
use thiserror::Error;

/// Why a file was not read as JSON.
#[derive(Debug, PartialEq, Eq, Drop, Error)]
pub enum InputError {
    /// The file is not there.
    #[error("no such file")]
    NoFile,
    /// The file cannot be opened.
    #[error("the file cannot be opened")]
    Open,
    /// A read failed.
    #[error("read failed")]
    Read,
    /// An allocation failed.
    #[error("out of memory")]
    Memory,
    /// What was read is no text in UTF-8.
    #[error("the input is no JSON: it is not in UTF-8")]
    NoUtf8,
    /// What was read is no JSON text, or nests too deep. The fault is in this line and column, which count from 1.
    #[error("the input is no JSON: line {0}, column {1}")]
    NoJson(usize, usize),
    /// What was read begins with a byte order mark.
    #[error("the input begins with a byte order mark")]
    ByteOrderMark,
}

/// Returns why a file was not opened: `NoFile` if it is not there, or else `Open`.
///
/// # Memory
///
/// Does not allocate.
pub fn open_error(error: io::Error) -> InputError
    ensures absent { result ≡ InputError.NoFile ↔ error_kind error ≡ ErrorKind.NotFound }
    ensures unopened { result ≡ InputError.Open ↔ ¬ (error_kind error ≡ ErrorKind.NotFound) }
{
    match error.kind() {
        ErrorKind::NotFound => InputError::NoFile,
        _ => InputError::Open,
    }
}

/// Returns why a read of this kind failed: `Memory` if the buffer could not grow, or else `Read`.
///
/// # Memory
///
/// Does not allocate.
pub fn failure_error(kind: ErrorKind) -> InputError
    ensures memory { result ≡ InputError.Memory ↔ kind ≡ ErrorKind.OutOfMemory }
    ensures read { result ≡ InputError.Read ↔ ¬ (kind ≡ ErrorKind.OutOfMemory) }
{
    match kind {
        ErrorKind::OutOfMemory => InputError::Memory,
        _ => InputError::Read,
    }
}

/// Why a read failed.
pub(crate) fn read_error(error: io::Error) -> InputError
    ensures memory { result ≡ InputError.Memory ↔ error_kind error ≡ ErrorKind.OutOfMemory }
    ensures read { result ≡ InputError.Read ↔ ¬ (error_kind error ≡ ErrorKind.OutOfMemory) }
{
    failure_error(error.kind())
}

/// Why a text was not read as JSON: `Memory` if an allocation failed.
pub(crate) fn json_error(error: serde_json::Error) -> InputError
    ensures { ((result ≡ InputError.Memory) × IsMemory error)
        ⊎ ((line column : ℕ) × (result ≡ InputError.NoJson line column) × ¬ IsMemory error) }
{
    if error.is_memory() {
        InputError::Memory
    } else {
        InputError::NoJson(error.line(), error.column())
    }
}
