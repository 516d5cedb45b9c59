//! What arguments name: files, manifests, times and versions.
use crate::given::{time_given, version_given};
use crate::json_file::value_at;
use crate::manifest::checked_manifest;
use crate::run_error::RunError;
use command_lines::{InputError, Quoted};
use npm_packages::Fault;
use serde_json::Value;
use std::alloc::{AllocError, Global};
use thiserror::Error;

/// Why what an argument names is not read.
#[derive(Debug, Drop, Error)]
pub enum ReadError<'a> {
    /// The file after this option was not read.
    #[error("{0} {1}: {2}")]
    File(&'static str, Quoted<'a>, InputError),
    /// The JSON value of this file is no manifest.
    #[error("--manifest {0}: {1}")]
    Manifest(Quoted<'a>, Fault),
    /// The value of `--before` is no time.
    #[error("--before takes a time, as 2024-03-01 or 2024-03-01T12:00:00Z, and not {0}; --help lists the options")]
    Time(Quoted<'a>),
    /// The value of `--node` is no version.
    #[error("--node takes a version, as 20 or 20.11.1, and not {0}; --help lists the options")]
    NodeVersion(Quoted<'a>),
    /// The value of `--npm` is no version.
    #[error("--npm takes a version, as 10 or 10.8.2, and not {0}; --help lists the options")]
    NpmVersion(Quoted<'a>),
    /// An allocation failed.
    #[error("{0}")]
    Run(RunError),
}

impl<'a> From<AllocError> for ReadError<'a> {
    fn from(_error: AllocError) -> ReadError<'a> {
        ReadError::Run(RunError::Memory)
    }
}

/// Reads the JSON value of the file after an option; `-` is standard input.
pub fn file_value<'a>(
    rt: &HostRuntime,
    option: &'static str,
    path: &'a str,
) -> Result<Value, ReadError<'a>> {
    match value_at(rt, path) {
        Ok(value) => Ok(value),
        Err(error) => Err(ReadError::File(option, Quoted { text: path }, error)),
    }
}

/// Reads the manifests at these paths.
pub fn manifests_at<'a>(rt: &HostRuntime, paths: &[&'a str]) -> Result<Vec<Value>, ReadError<'a>> {
    let mut manifests = Vec::new(rt.alloc());
    for path in paths {
        let manifest = manifest_at(rt, *path)?;
        if manifests.push(manifest).is_err() {
            return Err(ReadError::Run(RunError::Memory));
        }
    }
    Ok(manifests)
}

/// Reads a manifest.
fn manifest_at<'a>(rt: &HostRuntime, path: &'a str) -> Result<Value, ReadError<'a>> {
    let value = file_value(rt, "--manifest", path)?;
    match checked_manifest(value) {
        Ok(manifest) => Ok(manifest),
        Err(fault) => Err(ReadError::Manifest(Quoted { text: path }, fault)),
    }
}

/// Returns the time of `--before`.
pub fn before_of<'a>(alloc: Global, text: Option<&'a str>) -> Result<Option<i128>, ReadError<'a>> {
    let Some(text) = text else {
        return Ok(None);
    };
    let time = time_given(alloc, text)?;
    if time.is_none() {
        return Err(ReadError::Time(Quoted { text }));
    }
    Ok(time)
}

/// Returns the whole text of the version of `--node`.
pub fn node_of<'a>(alloc: Global, text: Option<&'a str>) -> Result<Option<String>, ReadError<'a>> {
    let Some(text) = text else {
        return Ok(None);
    };
    match version_given(alloc, text)? {
        Some(node) => Ok(Some(node)),
        None => Err(ReadError::NodeVersion(Quoted { text })),
    }
}

/// Returns the whole text of the version of `--npm`.
pub fn npm_of<'a>(alloc: Global, text: Option<&'a str>) -> Result<Option<String>, ReadError<'a>> {
    let Some(text) = text else {
        return Ok(None);
    };
    match version_given(alloc, text)? {
        Some(npm) => Ok(Some(npm)),
        None => Err(ReadError::NpmVersion(Quoted { text })),
    }
}
