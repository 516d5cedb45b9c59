//! The version of a text that satisfies all ranges.
ghost use Rattle.std.specs.Prelude.{[], ◌∷◌, IfOk, MatchOption, OnOk};
ghost use Rattle.semver_command.specs.Chosen.{IsChosen, IsLeftOut};
ghost use Rattle.semver_command.specs.Private.Gathering.{Grows};
ghost use Rattle.semver_command.specs.Ranges.{IsInAll};

use crate::asked::Options;
use crate::kept::Kept;
use crate::ranges::is_in_all;
use crate::stopped::Stopped;
use crate::written::version_of;
use node_semver::{Range, Version};
use std::alloc::{AllocError, Global};
use std::io::Write;
use std::str;

/// Adds the version of a text, if it lies in all ranges.
pub fn add_chosen<W: Write>(
    alloc: Global,
    text: &[u8],
    options: Options,
    ranges: &[Option<Range>],
    kept: &mut Kept,
    writer: &mut W,
) -> Result<(), Stopped>
    ensures { OnOk result (Grows options (IsInAll options.include_prerelease ranges.now) (text.now ∷ [])
        kept.old kept.new) }
{
    match chosen_version(alloc, text, options, ranges)? {
        Some(version) => kept.add(alloc, version, options.json, writer),
        None => Ok(()),
    }
}

/// The version of a text, if it lies in all ranges.
fn chosen_version(
    alloc: Global,
    text: &[u8],
    options: Options,
    ranges: &[Option<Range>],
) -> Result<Option<Version>, AllocError>
    ensures { IfOk result (λ chosen. MatchOption chosen
        (IsLeftOut options (IsInAll options.include_prerelease ranges.now) text.now)
        (IsChosen options (IsInAll options.include_prerelease ranges.now) text.now)) }
{
    let Ok(text) = str::from_utf8(text) else {
        return Ok(None);
    };
    let Some(version) = version_of(alloc, text, options)? else {
        return Ok(None);
    };
    if !is_in_all(ranges, &version, options.include_prerelease) {
        return Ok(None);
    }
    Ok(Some(version))
}
