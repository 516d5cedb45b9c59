ghost use Rattle.std.specs.Prelude.{◌≡◌, IfSome, Ok};
ghost use Rattle.semver_texts.specs.Characters.{is_blank, is_version_mark};
ghost use Rattle.semver_texts.specs.Reading as Reading;
ghost use Rattle.semver_versions.specs.Private.VersionReading as VersionReading;
ghost use Rattle.semver_versions.specs.Private.VersionReading.{read_dotted};
ghost use Rattle.semver_texts.specs.Reading.{seen};

use semver_texts::parse::Fault;
use semver_texts::parse::number::{is_digit, missing, read_number};
use semver_texts::parse::skip::skip_blanks;

// The number after the dot that the text begins with, and the rest: 2 and `.3` for `.2.3`. `inline(always)` in this
// file: these readers are the usual way of each version, and hand numbers on in registers.
#[inline(always)]
#[tactic(auto, unfolding(crate::specs::Private::VersionReading::read_dot))]
fn read_dotted(text: &[u8]) -> Result<(u64, &[u8]), Fault>
    ensures { seen result ≡ read_dotted text.now }
{
    match text {
        [b'.', rest @ ..] => read_number(rest),
        _ => Err(missing(text)),
    }
}

// The text without the `v` or `V` that it begins with, if it does.
#[inline(always)]
#[tactic(auto, unfolding(semver_texts::specs::Reading::skip_one))]
fn skip_version_mark(text: &[u8]) -> &[u8]
    ensures { result.now ≡ Reading.skip_one is_version_mark text.now }
{
    match text {
        [b'v' | b'V', rest @ ..] => rest,
        _ => text,
    }
}

// The number after an optional `v` and blanks, and the rest: `1` and `.2.3` of `V 1.2.3`
#[inline(always)]
fn read_major(text: &[u8]) -> Result<(u64, &[u8]), Fault>
    ensures { seen result ≡ Reading.read_number (Reading.rest_of is_blank (Reading.skip_one is_version_mark text.now)) }
{
    // Most texts begin with a digit: they have no mark and no blanks.
    match text {
        [first, ..] if is_digit(*first) => read_number(text),
        _ => read_number(skip_blanks(skip_version_mark(text))),
    }
}

// The triple whose major was read, and the rest: `1.2.3` and `-alpha` of 1 and `.2.3-alpha`
#[inline(always)]
fn read_minor_and_patch(major: u64, text: &[u8]) -> Result<((u64, u64, u64), &[u8]), Fault>
    ensures { seen result ≡ VersionReading.read_minor_and_patch (major, text.now) }
{
    let (minor, rest) = read_dotted(text)?;
    let (patch, rest) = read_dotted(rest)?;
    Ok(((major, minor, patch), rest))
}

/// Returns three numbers after an optional `v` and blanks, and the rest: `1.2.3` and `-alpha` for `V 1.2.3-alpha`.
#[inline(always)]
#[tactic(auto, unfolding(crate::specs::Private::VersionReading::read_triple))]
pub(crate) fn read_marked_triple(text: &[u8]) -> Result<((u64, u64, u64), &[u8]), Fault>
    ensures { seen result ≡ VersionReading.read_marked_triple text.now }
{
    let (major, rest) = read_major(text)?;
    read_minor_and_patch(major, rest)
}

/// Returns the same if the text begins with a digit. Otherwise returns `None`, as for each fault.
// The fast path of most versions: without a fault and without a mark to pass over.
#[inline(always)]
pub(crate) fn read_leading_triple(text: &[u8]) -> Option<((u64, u64, u64), &[u8])>
    ensures { IfSome result (λ t. VersionReading.read_marked_triple text.now ≡ Ok (t.0, t.1.now)) }
{
    let Ok((major, rest)) = read_number(text) else {
        return None;
    };
    read_minor_and_patch(major, rest).ok()
}
