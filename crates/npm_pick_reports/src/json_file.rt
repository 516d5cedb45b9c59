//! Reads JSON files.

use command_lines::{InputError, Watched, open_error, read_json};
use serde_json::Value;
use std::fs::File;

/// Reads the JSON value of a file; `-` is standard input.
pub fn value_at(rt: &HostRuntime, path: &str) -> Result<Value, InputError> {
    if path == "-" {
        return read_json(rt.alloc(), &mut Watched::new(rt.stdin()));
    }
    let file = File::open(rt, path).map_err(|error| open_error(error))?;
    read_json(rt.alloc(), &mut Watched::new(file))
}
