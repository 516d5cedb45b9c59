//! A text that is a full version after `^`, `~` or nothing: most ranges are such. It is read as three numbers, and its
//! caller builds its set at once. With prereleases included `^0.2.3` has another set, so no text is read here.
//!
//! `#[inline(always)]`: the numbers stay in registers.
ghost use Rattle.std.specs.Prelude.{◌≡◌, ◌∷◌, ◌++◌, ◌≤◌, [], Bool, IfSome};
ghost use Rattle.semver_texts.specs.Characters.{dot};
ghost use Rattle.npm_sets.specs.FullTexts.{IsNpmFullText};
ghost use Rattle.npm_sets.specs.Private.ReadViews.{IsNumberBefore, full_mark};

use crate::NpmOptions;
use semver_sets::read::full::{Form, FullLead, full_form};
use semver_texts::parse::number::read_number;
use semver_texts::{MAX_LENGTH, MAX_SAFE_INTEGER};

// `^` and `1.2.3` of `^1.2.3`
#[inline(always)]
fn split_mark(text: &[u8]) -> (FullLead, &[u8])
    ensures { text.now ≡ full_mark result.0 ++ result.1.now }
{
    match text {
        [b'^', rest @ ..] => (FullLead::Caret, rest),
        [b'~', rest @ ..] => (FullLead::Tilde, rest),
        _ => (FullLead::Nothing, text),
    }
}

// 1 and `2.3` of `1.2.3`. A number with a leading zero is left to the reader of words, so both forms read alike here.
#[inline(always)]
fn read_dotted(text: &[u8]) -> Option<(u64, &[u8])>
    ensures read { IfSome result (λ r. (loose : Bool) → IsNumberBefore loose text.now r.0 (dot ∷ r.1.now)) }
    ensures limit { IfSome result (λ r. r.0 ≤ MAX_SAFE_INTEGER) }
{
    match text {
        [b'0', others @ ..] => match others {
            [b'.', rest @ ..] => Some((0, rest)),
            _ => None,
        },
        _ => match read_number(text) {
            Ok((number, [b'.', rest @ ..])) => Some((number, rest)),
            _ => None,
        },
    }
}

// 3 of `3`, and nothing of `03`
#[inline(always)]
fn read_last(text: &[u8]) -> Option<u64>
    ensures read { IfSome result (λ number. (loose : Bool) → IsNumberBefore loose text.now number []) }
    ensures limit { IfSome result (λ number. number ≤ MAX_SAFE_INTEGER) }
{
    match text {
        [b'0', others @ ..] => match others {
            [] => Some(0),
            _ => None,
        },
        _ => match read_number(text) {
            Ok((number, [])) => Some(number),
            _ => None,
        },
    }
}

/// Returns the form and the three numbers of `^1.2.3`, or `None` if the text has to be read word by word.
#[inline(always)]
pub fn read_full(text: &[u8], options: NpmOptions) -> Option<(Form, u64, u64, u64)>
    ensures { IfSome result (λ f. IsNpmFullText options text.now f.0 f.1 f.2 f.3) }
{
    if options.include_prerelease || text.len() > MAX_LENGTH {
        return None;
    }
    let (lead, version) = split_mark(text);
    let (major, rest) = read_dotted(version)?;
    let (minor, rest) = read_dotted(rest)?;
    let patch = read_last(rest)?;
    Some((full_form(lead, major, minor, patch), major, minor, patch))
}
