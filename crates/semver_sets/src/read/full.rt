//! A text that is a full version after `^`, `~` or nothing: nine of ten ranges are such. It is read as three numbers,
//! and its set is built at once. Each kind has a function of its own.
//!
//! `#[inline(always)]`: the numbers stay in registers, and the set is built in the place of the caller's result.
ghost use Rattle.std.specs.Prelude.{◌≡◌, IfSome, Some};
ghost use Rattle.semver_cuts.specs.Ends.{IsCutBelow};
ghost use Rattle.semver_cuts.specs.declared.cut.Cut.TheVariants.{After, Before};
ghost use Rattle.semver_texts.specs.Comparison.{version_cmp};
ghost use Rattle.semver_texts.specs.Version as Versions;
ghost use Rattle.semver_sets.specs.Comparator as Comparators;
ghost use Rattle.semver_sets.specs.FullTexts as FullTexts;
ghost use Rattle.semver_sets.specs.FullTexts.{AreInLimit, IsFullText};
ghost use Rattle.semver_sets.specs.RangeSets.{IsRangeSet};

use semver_cuts::{Cut, Span};
use semver_texts::end::EndVersion;
use semver_texts::parse::number::read_number;

/// What is written before the version.
#[derive(Clone, Copy)]
pub enum FullLead {
    /// `^`
    Caret,
    /// `~`
    Tilde,
    /// nothing
    Nothing,
}

/// Which set a full version has. The examples are for `1.2.3`.
#[derive(Clone, Copy)]
pub enum Form {
    /// `>=1.2.3 <=1.2.3`
    Exactly,
    /// `>=1.2.3 <2.0.0-0`
    ToNextMajor,
    /// `>=1.2.3 <1.3.0-0`
    ToNextMinor,
    /// `>=1.2.3 <1.2.4-0`
    ToNextPatch,
}

/// Returns which set the row of a lead gives for a full version.
#[inline(always)]
pub fn full_form(lead: FullLead, major: u64, minor: u64, patch: u64) -> Form
    ensures { FullTexts.full_row lead major minor patch ≡ Some (FullTexts.full_set result major minor patch) }
{
    match (lead, major, minor) {
        (FullLead::Nothing, _, _) => Form::Exactly,
        (FullLead::Tilde, _, _) => Form::ToNextMinor,
        (FullLead::Caret, 0, 0) => Form::ToNextPatch,
        (FullLead::Caret, 0, _) => Form::ToNextMinor,
        (FullLead::Caret, _, _) => Form::ToNextMajor,
    }
}

/// Returns the form and the three numbers of `^1.2.3`, or `None` if the text has to be read word by word.
#[inline(always)]
pub fn read_full(text: &[u8]) -> Option<(Form, u64, u64, u64)>
    ensures { IfSome result (λ f. IsFullText text.now f.0 f.1 f.2 f.3) }
{
    let (lead, version) = match text {
        [b'^', rest @ ..] => (FullLead::Caret, rest),
        [b'~', rest @ ..] => (FullLead::Tilde, rest),
        _ => (FullLead::Nothing, text),
    };
    let Ok((major, [b'.', rest @ ..])) = read_number(version) else {
        return None;
    };
    let Ok((minor, [b'.', rest @ ..])) = read_number(rest) else {
        return None;
    };
    let Ok((patch, [])) = read_number(rest) else {
        return None;
    };
    Some((full_form(lead, major, minor, patch), major, minor, patch))
}

/// Returns the set of a form and a full version: `>=1.2.3 <2.0.0-0` for `^1.2.3`.
#[inline(always)]
pub fn full_set(form: Form, major: u64, minor: u64, patch: u64) -> Span<EndVersion>
    requires set { IsRangeSet (FullTexts.full_set form major minor patch) }
    requires limit { AreInLimit major minor patch }
    ensures { result ≡ FullTexts.full_set form major minor patch }
{
    let version = (major, minor, patch);
    match form {
        Form::ToNextMajor => set_up_to(version, (major + 1, 0, 0)),
        Form::ToNextMinor => set_up_to(version, (major, minor + 1, 0)),
        Form::ToNextPatch => set_up_to(version, (major, minor, patch + 1)),
        Form::Exactly => set_of_one(version),
    }
}

// The set of one release: `>=1.2.3 <=1.2.3`
#[inline(always)]
fn set_of_one(version: (u64, u64, u64)) -> Span<EndVersion>
    requires { let v = Versions.release version.0 version.1 version.2 in
        IsCutBelow version_cmp (Before v) (After v) }
    ensures { result ≡ Comparators.exactly (Versions.release version.0 version.1 version.2) }
{
    let lower = EndVersion::release(version.0, version.1, version.2);
    let upper = EndVersion::release(version.0, version.1, version.2);
    Span::between(Cut::Before(lower), Cut::After(upper))
}

// The set from a release up to the least version of another triple.
#[inline(always)]
fn set_up_to(lower: (u64, u64, u64), upper: (u64, u64, u64)) -> Span<EndVersion>
    requires { IsCutBelow version_cmp (Before (Versions.release lower.0 lower.1 lower.2))
        (Before (Versions.least_of upper.0 upper.1 upper.2)) }
    ensures { result ≡ Comparators.from_up_to (Versions.release lower.0 lower.1 lower.2)
        (Versions.least_of upper.0 upper.1 upper.2) }
{
    let lower = EndVersion::release(lower.0, lower.1, lower.2);
    let upper = EndVersion::least(upper.0, upper.1, upper.2);
    Span::between(Cut::Before(lower), Cut::Before(upper))
}
