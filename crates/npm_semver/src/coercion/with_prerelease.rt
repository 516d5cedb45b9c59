//! Finding a version in a text with its prerelease and its build.
ghost use Rattle.std.specs.Prelude.{◌≡◌, ◌+◌, ◌<◌, ◌≤◌, ℕ, Bool, List, IfNone, IfOk, IfSome, length, slice_range};
ghost use Rattle.npm_semver.specs.CoerceWithPrerelease as CoerceWithPrerelease;
ghost use Rattle.npm_semver.specs.CoerceWithPrerelease.{Ends, IsChosenFull, IsCoercedWithPrerelease, IsVersionOf};
ghost use Rattle.semver_texts.specs.Identifier.{values_of};
ghost use Rattle.semver_texts.specs.IdentifierText.{IsListed, identifiers_of};
ghost use Rattle.npm_semver.specs.Private.ExtraViews.{IsFullAt, ends_of};
ghost use Rattle.npm_semver.specs.Private.PieceViews.{numbers_of};
ghost use Rattle.semver_texts.specs.Version.{VersionValue};
ghost use Rattle.semver_texts.specs.declared.TheConstants.{MAX_LENGTH};

use super::CoerceOptions;
use super::full::{FullPiece, first_full};
use super::last_full::last_full;
use super::piece::Piece;
use node_semver::Version;
use semver_texts::identifier::borrowed::listed;
use semver_texts::{Identifier, MAX_LENGTH};
use std::alloc::{AllocError, Global};

/// Returns the version that is found in the text with its prerelease and its build: npm's `coerce` with
/// `includePrerelease`.
///
/// The piece is the one that [`coerce`](crate::coerce) takes. A prerelease that follows it, and a build after that, are read
/// in the form of SemVer 2.0.0, each as long as it can be. What does not have that form is left out. As in npm, an
/// identifier of a prerelease that begins with digits without a zero in front ends with them: `1.2.3-4f` is `1.2.3-4`.
///
/// With `rtl`, each piece is taken with its prerelease and its build. The version is that of the first one that ends
/// where the text ends, or one byte before. If there is none, it is that of the first one after whose start all others
/// end where it does.
///
/// Returns `None` if there is no piece, if a number of the piece has a zero in front or is greater than
/// `MAX_SAFE_INTEGER`, or if the version would have more than `MAX_LENGTH` bytes. With `rtl`, a piece that is longer
/// with its prerelease and its build is passed over.
///
/// # Errors
///
/// Returns `AllocError` if an allocation fails.
///
/// # Memory
///
/// Does not allocate for a version without prerelease and build. Otherwise allocates lists of identifiers, and the
/// text of each identifier that is no number. Takes a number of steps that is linear in the length of the text: at most
/// some hundreds for each number in it.
///
/// # Examples
///
/// - `v1.2-rc.1`: `1.2.0-rc.1`. `1.2.3-beta+build.5`: the whole text.
/// - `1.2.3.4-rc.1+rev.2`: `1.2.3`, and `2.3.4-rc.1+rev.2` with `rtl`.
/// - `1.2.3-01` and `1.2.3-`: `1.2.3`. `1.2.3-a.01`: `1.2.3-a`.
/// - `latest` and `01.2.3-a`: `None`.
///
/// # Source
///
/// The README of npm's `semver`, "Coercion".
pub fn coerce_with_prerelease(
    alloc: Global,
    text: &str,
    options: CoerceOptions,
) -> Result<Option<Version>, AllocError>
    ensures found { IfOk result (λ r. IfSome r (IsCoercedWithPrerelease options.rtl text.now)) }
    ensures none { IfOk result (λ r. IfNone r
        ((v : VersionValue) → ¬ IsCoercedWithPrerelease options.rtl text.now v)) }
{
    let bytes = text.as_bytes();
    match chosen_full(bytes, options.rtl) {
        Some(piece) => version_of(alloc, bytes, piece),
        None => Ok(None),
    }
}

// The one that starts first, or from the right the last one.
fn chosen_full(text: &[u8], rtl: bool) -> Option<FullPiece<'_>>
    ensures some { IfSome result (λ p. IsChosenFull rtl text.now p.start (ends_of p) (numbers_of p.piece)) }
    ensures within { IfSome result (λ p. p.end ≤ length text.now) }
    ensures none { IfNone result ((start : ℕ) (ends : Ends) (numbers : List (List ℕ))
        → IsChosenFull rtl text.now start ends numbers → start + MAX_LENGTH < ends.build) }
{
    if rtl {
        last_full(text)
    } else {
        first_full(text)
    }
}

// The bytes of `.0` for each number that is missing.
fn missing_length(piece: Piece<'_>) -> usize
    ensures { result ≡ CoerceWithPrerelease.missing_length (numbers_of piece.entry) }
{
    match piece {
        Piece::One(_) => 4,
        Piece::Two(_, _) => 2,
        Piece::Three(_, _, _) => 0,
    }
}

// The version of the piece.
fn version_of(
    alloc: Global,
    text: &[u8],
    full: FullPiece<'_>,
) -> Result<Option<Version>, AllocError>
    requires full { IsFullAt text.now full }
    requires within { full.end ≤ length text.now }
    ensures found { IfOk result (λ r. IfSome r
        (IsVersionOf text.now full.entry.start (ends_of full.entry) (numbers_of full.entry.piece))) }
    ensures none { IfOk result (λ r. IfNone r ((v : VersionValue)
        → ¬ IsVersionOf text.now full.entry.start (ends_of full.entry) (numbers_of full.entry.piece) v)) }
{
    if full.end + missing_length(full.piece) > full.start + MAX_LENGTH {
        return Ok(None);
    }
    let Some(release) = full.piece.release(alloc) else {
        return Ok(None);
    };
    let pre_release = identifiers(alloc, text, full.numbers_end, full.prerelease_end)?;
    let build = identifiers(alloc, text, full.prerelease_end, full.end)?;
    Ok(Some(Version {
        major: release.major,
        minor: release.minor,
        patch: release.patch,
        build,
        pre_release,
    }))
}

// The identifiers after a mark.
fn identifiers(
    alloc: Global,
    text: &[u8],
    mark: usize,
    end: usize,
) -> Result<Vec<Identifier>, AllocError>
    requires from { mark ≤ end }
    requires within { end ≤ length text.now }
    requires listed { IsListed (slice_range text.now (mark + 1) end) }
    ensures { IfOk result (λ v. values_of v.items ≡ identifiers_of (slice_range text.now (mark + 1) end)) }
{
    if mark == end {
        return Ok(Vec::new(alloc));
    }
    listed(&text[mark + 1..end]).to_vec(alloc)
}
