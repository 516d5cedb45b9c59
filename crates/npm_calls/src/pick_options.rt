//! The options of a pick.

use crate::asked::Asked;
use crate::call_error::CallError;
use crate::fault::Fault;
use crate::member::{some_text, text_or};
use node_semver::VersionRef;
use npm_pick::{Options, parse_time};
use npm_pick_reports::version_of;

/// The options of a pick, as they are given.
#[derive(Drop)]
pub(crate) struct PickOptions {
    tag: Option<String>,
    before: Option<i128>,
    avoid: Option<String>,
    avoid_strict: bool,
    include_staged: bool,
    node: Option<String>,
    npm: Option<String>,
}

impl PickOptions {
    /// Takes the members that are options of a pick.
    pub(crate) fn of(asked: &mut Asked<'_>) -> Result<PickOptions, CallError> {
        Ok(PickOptions {
            tag: asked.text_if_any("tag")?,
            before: time_of(asked)?,
            avoid: asked.text_if_any("avoid")?,
            avoid_strict: asked.mark("avoid_strict")?,
            include_staged: asked.mark("include_staged")?,
            node: version_text(asked, "node")?,
            npm: version_text(asked, "npm")?,
        })
    }

    /// The options of `npm_pick`.
    pub(crate) fn options(&self) -> Options<'_> {
        Options {
            default_tag: text_or(&self.tag, "latest"),
            before: self.before,
            avoid: some_text(&self.avoid),
            avoid_strict: self.avoid_strict,
            include_staged: self.include_staged,
            node: version_of(&self.node),
            npm: version_of(&self.npm),
        }
    }
}

/// Takes the time `before`, if there is one.
pub(crate) fn time_of(asked: &mut Asked<'_>) -> Result<Option<i128>, CallError> {
    let Some(text) = asked.text_if_any("before")? else {
        return Ok(None);
    };
    match parse_time(text.as_str()) {
        Some(time) => Ok(Some(time)),
        None => Err(asked.refused(Fault::Time, "before")),
    }
}

/// Takes the text of a version, if there is one.
pub(crate) fn version_text(asked: &mut Asked<'_>, name: &str) -> Result<Option<String>, CallError> {
    let Some(text) = asked.text_if_any(name)? else {
        return Ok(None);
    };
    let is_version = VersionRef::parse(text.as_str()).is_ok();
    if is_version {
        Ok(Some(text))
    } else {
        Err(asked.refused(Fault::Version, name))
    }
}
