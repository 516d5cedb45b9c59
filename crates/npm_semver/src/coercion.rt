//! Finding a version in a text: npm's `coerce`.
ghost use Rattle.std.specs.Prelude.{◌≡◌, ℕ, Bool, List, IfNone, IfSome};
ghost use Rattle.npm_semver.specs.Coerce.{IsChosen, IsCoerced, IsPiece};
ghost use Rattle.npm_semver.specs.Private.PieceViews.{numbers_of};
ghost use Rattle.semver_texts.specs.Version.{VersionValue};

mod extras;
mod first;
mod full;
mod last;
mod last_full;
mod number;
mod piece;
pub(crate) mod with_prerelease;

use first::first_piece;
use last::last_piece;
use node_semver::Version;
use piece::Piece;
use std::alloc::Global;

/// How a version is found in a text.
///
/// # Source
///
/// The README of npm's `semver`, "Coercion".
#[derive(Clone, Copy, Debug, PartialEq, Eq, Default)]
pub struct CoerceOptions {
    /// From the right: the piece that ends last, in place of the one that starts first.
    pub rtl: bool,
}

/// Returns the version that is found in the text: that of the first piece that looks like a version.
///
/// A piece is one, two or three numbers with dots between them, as long as it can be. A number has at most 16 digits,
/// and is not beside another digit. Missing numbers are 0. With `rtl`, it is the piece that ends last, and the longest
/// of those. A prerelease and a build are not read.
///
/// Only this one piece is read. Returns `None` if there is no piece, or if a number of the piece has a zero in front
/// or is greater than `MAX_SAFE_INTEGER`.
///
/// # Memory
///
/// Does not allocate. Takes a number of steps that is linear in the length of the text.
///
/// # Examples
///
/// - `v1.2`: `1.2.0`. `node-14.x`: `14.0.0`. `1.2.3-rc.1`: `1.2.3`.
/// - `1.2.3.4`: `1.2.3`, and `2.3.4` with `rtl`.
/// - `latest`, `01.2.3` and `9007199254740992`: `None`.
/// - `12345678901234567.2.3`: `2.3.0`. The first number has 17 digits.
///
/// # Source
///
/// The README of npm's `semver`, "Coercion".
pub fn coerce(alloc: Global, text: &str, options: CoerceOptions) -> Option<Version>
    ensures found { IfSome result (λ v. IsCoerced options.rtl text.now v) }
    ensures none { IfNone result ((v : VersionValue) → ¬ IsCoerced options.rtl text.now v) }
{
    match chosen_piece(text.as_bytes(), options.rtl) {
        Some(piece) => piece.release(alloc),
        None => None,
    }
}

// The piece that starts first, or from the right the one that ends last.
fn chosen_piece(text: &[u8], rtl: bool) -> Option<Piece<'_>>
    ensures some { IfSome result (λ p. (start end : ℕ) × IsChosen rtl text.now start end (numbers_of p)) }
    ensures none { IfNone result ((start end : ℕ) (numbers : List (List ℕ)) → ¬ IsPiece text.now start end numbers) }
{
    if rtl {
        last_piece(text)
    } else {
        first_piece(text)
    }
}
