//! The version of an installed package, as npm reads it.
ghost use Rattle.std.specs.Prelude.{◌≡◌, IfNone, IfSome, chars, slice_index};
ghost use Rattle.std.specs.Char.{is_ascii_digit};
ghost use Rattle.node_semver.specs.Versions.{VersionValue};
ghost use Rattle.npm_texts.specs.InstalledVersions as InstalledVersions;
ghost use Rattle.npm_texts.specs.InstalledVersions.{IsInstalledVersion};
ghost use Rattle.npm_texts.specs.WhiteSpace.{without_start};

use crate::white::{is_long, is_white, without_white_end};
use node_semver::VersionRef;

/// Returns the version that npm reads the `version` of an installed package as, or `None` if it reads none.
///
/// `v`, `=` and white space may come before the version, in any number and order, and white space after it. A text has at
/// most 256 characters.
///
/// # Memory
///
/// Does not allocate. The version borrows the text.
///
/// # Examples
///
/// `=1.2.3`, ` 1.2.3 ` and `vv1.2.3` are read as 1.2.3. `V1.2.3`, `1.2` and `latest` are no versions.
pub fn installed_version(text: &str) -> Option<VersionRef<'_>>
    ensures found { IfSome result (IsInstalledVersion text.now) }
    ensures none { IfNone result ((v : VersionValue) → ¬ IsInstalledVersion text.now v) }
{
    let written = bare(text);
    if is_long(text) || !begins_with_digit(written) {
        return None;
    }
    match VersionRef::parse(written) {
        Ok(version) => Some(version),
        Err(_) => None,
    }
}

fn begins_with_digit(text: &str) -> bool
    ensures { result ≡ is_ascii_digit (slice_index text.now 0) }
{
    match text.as_bytes() {
        [first, ..] => first.is_ascii_digit(),
        [] => false,
    }
}

/// Returns the text without leads at its start and white space at its end.
fn bare(text: &str) -> &str
    ensures { result.now ≡ InstalledVersions.bare text.now }
{
    without_white_end(without_leads(text))
}

/// Returns the text without `v`, `=` and white space at its start.
fn without_leads(text: &str) -> &str
    ensures { chars result.now ≡ without_start InstalledVersions.is_lead (chars text.now) }
{
    let mut left = text.chars();
    'leads: loop {
        let rest = left.as_str();
        match left.next() {
            Some(c) if is_lead(c) => {}
            _ => return rest,
        }
    }
}

fn is_lead(c: char) -> bool
    ensures { result ≡ InstalledVersions.is_lead c }
{
    c == 'v' || c == '=' || is_white(c)
}
