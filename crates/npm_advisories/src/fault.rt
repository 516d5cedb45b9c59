//! Why advisories are not read, and which one is at fault.
ghost use Rattle.std.specs.Prelude.{◌≡◌, IfOk, Option, is_some};
ghost use Rattle.npm_advisories.specs.Private.Reading.{IsUnreadAs};
ghost use Rattle.npm_advisories.specs.declared.fault.AuditError.TheVariants as Errors;
ghost use Rattle.npm_advisories.specs.declared.fault.FaultKind.{FaultKind};
ghost use Rattle.npm_advisories.specs.declared.fault.Unread.TheVariants as Unreads;

use crate::Result;
use crate::id::AdvisoryId;
use std::alloc::AllocError;
use thiserror::Error;

/// What is wrong with a value that is to be advisories, in npm's form or in OSV's.
#[derive(Clone, Copy, Debug, PartialEq, Eq, Drop, Error)]
pub enum FaultKind {
    /// The value is neither an object nor a list.
    #[error("the advisories are neither an object nor a list")]
    File,
    /// What stands under a name is no list.
    #[error("the advisories of a name are no list")]
    List,
    /// The advisory is no object.
    #[error("it is no object")]
    Advisory,
    /// The advisory has `affected`, so it is in OSV's form, but stands under a name.
    #[error("it has `affected`: advisories in OSV's form stand in a list, and not under a name")]
    OsvUnderName,
    /// The advisory stands under a name, and has none of `severity`, `title`, `url` and `vulnerable_versions`.
    #[error("it has none of `severity`, `title`, `url` and `vulnerable_versions`")]
    NoMember,
    /// `id` is missing, or neither a number nor a string.
    #[error("`id` is neither a number nor a string")]
    Id,
    /// `severity` is no string.
    #[error("`severity` is no string")]
    Severity,
    /// `title` is no string.
    #[error("`title` is no string")]
    Title,
    /// `url` is no string.
    #[error("`url` is no string")]
    Url,
    /// `vulnerable_versions` is no string.
    #[error("`vulnerable_versions` is no string")]
    RangeText,
    /// `vulnerable_versions` is no range.
    #[error("`vulnerable_versions` is no range")]
    Range,
    /// OSV: `id` is missing, or no string.
    #[error("`id` is no string")]
    OsvId,
    /// OSV: `withdrawn` is no string that is a time in UTC, as `2022-01-31T23:59:59Z` is.
    #[error("`withdrawn` is no time in UTC")]
    Withdrawn,
    /// OSV: `affected` is missing, or no list.
    #[error("`affected` is no list")]
    Affected,
    /// OSV: an element of `affected` is no object, or its `package` has no `ecosystem` and `name` that are strings.
    #[error("an element of `affected` has no `package` with `ecosystem` and `name`")]
    Package,
    /// OSV: `ranges` is no list.
    #[error("`ranges` is no list")]
    Ranges,
    /// OSV: `type` of a range is missing, or not one of the three.
    #[error("`type` of a range is not `SEMVER`, `ECOSYSTEM` or `GIT`")]
    Type,
    /// OSV: `events` of a range is no list.
    #[error("`events` of a range is no list")]
    Events,
    /// OSV: an event has not exactly one of `introduced`, `fixed`, `last_affected` and `limit`, or its text is no version.
    #[error("an event is no version that is `introduced`, `fixed`, `last_affected` or `limit`")]
    Event,
    /// OSV: no event of a range is `introduced`.
    #[error("no event of a range is `introduced`")]
    NoStart,
    /// OSV: `versions` is no list.
    #[error("`versions` is no list")]
    Versions,
    /// OSV: an item of `versions` is no string.
    #[error("an item of `versions` is no string")]
    VersionText,
    /// OSV: an element of `affected` has no text of a version in `versions`, and in `ranges` none of type `SEMVER` or `ECOSYSTEM`.
    #[error("an element of `affected` has no version in `versions`, and no range of versions")]
    NoVersion,
}

/// What is wrong, and with which advisory.
#[derive(Clone, Copy, Debug, PartialEq, Eq, Drop)]
pub struct Fault<'v> {
    pub kind: FaultKind,
    /// The name of the package that the advisory stands under. In OSV's form the first installed package that the advisory is
    /// about, and empty if there is none.
    pub name: &'v str,
    /// The place of the advisory in the list under that name, or in the list of OSV objects, from 0.
    pub place: usize,
    /// The `id` of the advisory, if it is a whole number or a string, or else its `url`, if that is a string. `None` for a file
    /// or a list that is none.
    pub id: Option<AdvisoryId<'v>>,
}

/// Why there is no audit.
#[derive(Debug, Drop, PartialEq, Eq)]
pub enum AuditError<'v> {
    /// The value is no advisories that are read here.
    Refused(Fault<'v>),
    /// An allocation failed.
    Memory,
}

impl<'v> From<AllocError> for AuditError<'v> {
    ghost from_gives = { λ _ error. error ≡ Errors.Memory };

    fn from(_error: AllocError) -> AuditError<'v> {
        AuditError::Memory
    }
}

/// Why one advisory is not read.
#[derive(Clone, Copy, Debug, PartialEq, Eq, Drop)]
pub(crate) enum Unread {
    Refused(FaultKind),
    Memory,
}

impl From<AllocError> for Unread {
    ghost from_gives = { λ _ unread. unread ≡ Unreads.Memory };

    fn from(_error: AllocError) -> Unread {
        Unread::Memory
    }
}

impl From<FaultKind> for Unread {
    ghost from_gives = { λ kind unread. unread ≡ Unreads.Refused kind };

    fn from(kind: FaultKind) -> Unread {
        Unread::Refused(kind)
    }
}

/// Returns `true` if the advisory has a fault, whichever it is.
///
/// # Errors
///
/// An allocation failed.
pub(crate) fn is_refused(unread: Unread) -> Result<bool>
    ensures { (fault : Option FaultKind) → IsUnreadAs fault unread → IfOk result (λ is. is ≡ is_some fault) }
{
    match unread {
        Unread::Refused(_) => Ok(true),
        Unread::Memory => Err(AllocError),
    }
}
