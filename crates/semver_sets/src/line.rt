//! The text of a set in one array, for sets whose ends have no lists.
ghost use Rattle.std.specs.Prelude.{◌≡◌, ◌+◌, ◌≤◌, ◌∷◌, ◌++◌, IfSome, codes, drop};
ghost use Rattle.semver_texts.specs.Print.{version_text};
ghost use Rattle.semver_cuts.specs.declared.cut.Cut.TheVariants.{Before};
ghost use Rattle.semver_sets.specs.RangePrint.{both_text, set_text};
ghost use Rattle.semver_texts.specs.declared.line.TheConstants.{ROOM, VERSION_ROOM};

use semver_cuts::{Cut, Span};
use semver_texts::end::EndVersion;
use semver_texts::line::{ROOM, put_byte, put_version};
use std::str;

/// Writes the set's text into the array and returns it.
///
/// Returns `None` if the set has another form than `>=1.2.3 <2.0.0-0`, `1.2.3` or `>=1.2.3`, or if an end has a build
/// or a prerelease other than `0`.
#[inline]
pub fn line_of<'a>(line: &'a mut [u8; ROOM], set: &Span<EndVersion>) -> Option<&'a str>
    ensures { IfSome result (λ text. text.now ≡ set_text set.now) }
{
    let start = put_set(line, set)?;
    str::from_utf8(&line[start..]).ok()
}

// Writes the set's text to the end of the line, and returns where it begins.
#[inline]
fn put_set(line: &mut [u8; ROOM], set: &Span<EndVersion>) -> Option<usize>
    ensures place { IfSome result (λ start. start ≤ ROOM) }
    ensures text { IfSome result (λ start. drop start line.new ≡ set_text set.now) }
{
    let Cut::Before(low) = set.lower() else {
        return None;
    };
    match set.upper() {
        Cut::Before(high) => put_both(line, low, high),
        Cut::After(high) if low == high => put_version(line, ROOM, low),
        Cut::End => put_at_least(line, ROOM, low),
        _ => None,
    }
}

// `>=1.2.3 <2.0.0-0`, at the end of the line
#[inline]
fn put_both(line: &mut [u8; ROOM], low: &EndVersion, high: &EndVersion) -> Option<usize>
    ensures place { IfSome result (λ start. start ≤ ROOM) }
    ensures text { IfSome result (λ start. drop start line.new ≡ both_text (Before low.now) (Before high.now)) }
{
    let at = put_below(line, high)?;
    let at = put_byte(line, at, b' ');
    put_at_least(line, at, low)
}

// `>=1.2.3`
#[inline]
fn put_at_least(line: &mut [u8; ROOM], end: usize, version: &EndVersion) -> Option<usize>
    requires { (VERSION_ROOM + 2 ≤ end) × (end ≤ ROOM) }
    ensures place { IfSome result (λ start. start ≤ end) }
    ensures text { IfSome result (λ start.
        drop start line.new ≡ codes ">=" ++ (version_text version.now ++ drop end line.old)) }
{
    let at = put_version(line, end, version)?;
    let at = put_byte(line, at, b'=');
    Some(put_byte(line, at, b'>'))
}

// `<2.0.0-0`, at the end of the line
#[inline]
fn put_below(line: &mut [u8; ROOM], version: &EndVersion) -> Option<usize>
    ensures place { IfSome result (λ start. (ROOM ≤ start + VERSION_ROOM + 1) × (start ≤ ROOM)) }
    ensures text { IfSome result (λ start. drop start line.new ≡ codes "<" ++ version_text version.now) }
{
    let at = put_version(line, ROOM, version)?;
    Some(put_byte(line, at, b'<'))
}
