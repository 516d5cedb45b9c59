//! Writing versions, a line each or as a JSON array of strings.
use crate::stopped::Stopped;
use node_semver::Version;
use std::alloc::Global;
use std::io::Write;

/// Writes a text.
pub fn write_text<W: Write>(writer: &mut W, text: &[u8]) -> Result<(), Stopped> {
    match writer.write_all(text) {
        Ok(()) => Ok(()),
        Err(_) => Err(Stopped::Write),
    }
}

/// Writes the bytes in the writer's buffer.
pub fn flush<W: Write>(writer: &mut W) -> Result<(), Stopped> {
    match writer.flush() {
        Ok(()) => Ok(()),
        Err(_) => Err(Stopped::Write),
    }
}

/// The texts before and after a version: a line, or an element of a JSON array. No character of a version is escaped in JSON.
fn marks(is_json: bool, is_first: bool) -> (&'static str, &'static str) {
    match (is_json, is_first) {
        (false, _) => ("", "\n"),
        (true, true) => ("[\"", "\""),
        (true, false) => (",\"", "\""),
    }
}

/// Writes one version.
pub fn write_item<W: Write>(
    alloc: Global,
    writer: &mut W,
    version: &Version,
    is_json: bool,
    is_first: bool,
) -> Result<(), Stopped> {
    let (before, after) = marks(is_json, is_first);
    let text = format!(in alloc; "{before}{version}{after}")?;
    write_text(writer, text.as_bytes())
}

/// Writes the text after the last version, also if there is none.
pub fn write_end<W: Write>(writer: &mut W, is_json: bool, is_empty: bool) -> Result<(), Stopped> {
    let end = match (is_json, is_empty) {
        (false, _) => "",
        (true, true) => "[]\n",
        (true, false) => "]\n",
    };
    write_text(writer, end.as_bytes())
}

/// Writes the versions in the order of the list.
pub fn write_list<W: Write>(
    alloc: Global,
    writer: &mut W,
    versions: &[Version],
    is_json: bool,
) -> Result<(), Stopped> {
    let mut is_first = true;
    for version in versions {
        write_item(alloc, writer, version, is_json, is_first)?;
        is_first = false;
    }
    write_end(writer, is_json, is_first)
}

/// Writes the version, or `null` if there is none.
pub fn write_version<W: Write>(
    alloc: Global,
    writer: &mut W,
    version: Option<&Version>,
    is_json: bool,
) -> Result<(), Stopped> {
    match version {
        Some(version) => write_list(alloc, writer, std::slice::from_ref(version), is_json),
        None if is_json => write_text(writer, b"[null]\n"),
        None => write_text(writer, b"null\n"),
    }
}
