//! What is decided for a request, and written.
ghost use Rattle.std.specs.Prelude.{◌≡◌, ◌≢◌, ◌∷◌, [], IfOk, IsErrOf, List, MatchOption, length, map};
ghost use Rattle.std.specs.Bool.{MatchBool};
ghost use Rattle.semver_command.specs.Answer.{IsAnswer};
ghost use Rattle.semver_command.specs.Increment.{IsNoIdentifier, IsRaised};
ghost use Rattle.semver_command.specs.Kept.{IsKept};
ghost use Rattle.semver_command.specs.Ranges.{npm_options, text_value};
ghost use Rattle.semver_command.specs.declared.asked.Listing.TheVariants as Listings;
ghost use Rattle.node_semver.specs.Versions.{VersionValue};

use crate::asked::{Asked, Listing, Options};
use crate::command_error::CommandError;
use crate::ending::Ending;
use crate::gathered::gather;
use crate::increment::incremented;
use crate::kept::Kept;
use crate::ranges::ranges_of;
use crate::stopped::Stopped;
use crate::writing::{write_end, write_list, write_version};
use node_semver::Version;
use npm_semver::{Bump, NpmOptions};
use std::alloc::Global;
use std::io::{BufReader, Read, Write};

/// Writes the output of the request: the versions that are left, or the version after an increment.
///
/// # Errors
///
/// - `Identifier`: there is an increment of one version, and the text after `--preid` is no identifier.
/// - `Stopped`: reading from standard input, a write or an allocation failed. What was written before stays written.
pub fn answer<R: Read, W: Write>(
    alloc: Global,
    asked: &Asked<'_>,
    reader: &mut BufReader<R>,
    writer: &mut W,
) -> Result<Ending, CommandError> {
    match asked.increment {
        Some(bump) => answer_increment(alloc, asked, bump, reader, writer),
        None => Ok(answer_list(alloc, asked, reader, writer)?),
    }
}

/// Returns how the ranges are read.
pub fn npm_options(options: Options) -> NpmOptions
    ensures { result ≡ npm_options options }
{
    NpmOptions {
        loose: options.loose,
        include_prerelease: options.include_prerelease,
    }
}

/// Writes the output of a request without an increment.
fn answer_list<R: Read, W: Write>(
    alloc: Global,
    asked: &Asked<'_>,
    reader: &mut BufReader<R>,
    writer: &mut W,
) -> Result<Ending, Stopped> {
    let is_json = asked.options.json;
    let kept = listed(alloc, asked, reader, writer)?;
    match &kept {
        Kept::All(versions) => write_list(alloc, writer, versions, is_json)?,
        Kept::Least(best) | Kept::Greatest(best) => {
            write_list(alloc, writer, best.as_slice(), is_json)?;
        }
        Kept::Written(is_first) => write_end(writer, is_json, *is_first)?,
    }
    Ok(kept.ending())
}

/// The versions that satisfy all ranges, in the order in which they are written.
fn listed<R: Read, W: Write>(
    alloc: Global,
    asked: &Asked<'_>,
    reader: &mut BufReader<R>,
    writer: &mut W,
) -> Result<Kept, Stopped>
    ensures { IfOk result (IsAnswer asked.now.options (map text_value asked.now.ranges.items)
        (map (λ word. word.now) asked.now.versions.items)) }
{
    let options = asked.options;
    let ranges = ranges_of(alloc, &asked.ranges, npm_options(options))?;
    let mut kept = gather(alloc, &asked.versions, options, &ranges, reader, writer)?;
    kept.put_in_order(options.reverse);
    Ok(kept)
}

/// Writes the output of a request with an increment.
fn answer_increment<R: Read, W: Write>(
    alloc: Global,
    asked: &Asked<'_>,
    bump: Bump,
    reader: &mut BufReader<R>,
    writer: &mut W,
) -> Result<Ending, CommandError> {
    let options = Options {
        listing: Listing::Ordered,
        ..asked.options
    };
    let kept = gather(alloc, &asked.versions, options, &[], reader, writer)?;
    let (ending, outcome) = raised(alloc, asked, bump, &all_of(alloc, kept))?;
    match ending {
        Ending::Written => write_version(alloc, writer, outcome.as_ref(), options.json)?,
        Ending::Nothing => write_end(writer, options.json, true)?,
        Ending::Misused | Ending::Refused | Ending::Unexplained => (),
    }
    Ok(ending)
}

/// The versions that are kept if all are.
fn all_of(alloc: Global, kept: Kept) -> Vec<Version>
    ensures { (versions : List VersionValue) → IsKept Listings.Ordered versions kept → result.items ≡ versions }
{
    match kept {
        Kept::All(versions) => versions,
        Kept::Least(_) | Kept::Greatest(_) | Kept::Written(_) => Vec::new(alloc),
    }
}

/// The version after the increment, or `None` if there is none, and how the program ends: an increment is made of a single
/// version, without a range.
fn raised(
    alloc: Global,
    asked: &Asked<'_>,
    bump: Bump,
    versions: &[Version],
) -> Result<(Ending, Option<Version>), CommandError>
    ensures raised { IfOk result (λ raised. IsRaised bump (text_value asked.now.identifier) asked.now.base
        (map text_value asked.now.ranges.items) versions.now raised.0 raised.1) }
    ensures identifier { IsErrOf result CommandError.Identifier → IsNoIdentifier (text_value asked.now.identifier) }
{
    if is_nothing(versions) {
        return Ok((Ending::Nothing, None));
    }
    if !is_nothing(&asked.ranges) {
        return Ok((Ending::Misused, None));
    }
    let Some(version) = single(versions) else {
        return Ok((Ending::Misused, None));
    };
    let outcome = incremented(alloc, version, bump, asked.identifier, asked.base)?;
    Ok((Ending::Written, outcome))
}

/// Returns `true` if the list is empty.
pub fn is_nothing<T>(list: &[T]) -> bool
    ensures { MatchBool result (list.now ≡ []) (list.now ≢ []) }
{
    matches!(list, [])
}

/// The version of a list of one.
fn single(versions: &[Version]) -> Option<&Version>
    ensures { MatchOption result (length versions.now ≢ 1) (λ version. versions.now ≡ version.now ∷ []) }
{
    match versions {
        [version] => Some(version),
        _ => None,
    }
}
