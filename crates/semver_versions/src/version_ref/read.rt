//! Reading a version that borrows its text. `Version::parse` reads by the same functions, and copies the result.
//!
//! `#[inline(always)]`: the readers hand numbers and slices on in registers.
ghost use Rattle.std.specs.Prelude.{IfOk, IfErr};
ghost use Rattle.semver_versions.specs.Private.VersionReading.{IsBegun};
ghost use Rattle.semver_texts.specs.Version.{VersionValue};
ghost use Rattle.semver_texts.specs.VersionText.{IsVersionText};
ghost use Rattle.semver_versions.specs.Private.FaultViews.{IsReadFault};
ghost use Rattle.semver_versions.specs.VersionFault.{IsBorrowedAs, IsVersionFault};

use crate::parse::read_marked_triple;
use crate::version_ref::{VersionFault, VersionRef};
use semver_texts::identifier::borrowed::borrow_extras;
use semver_texts::parse::Fault;
use semver_texts::{Identifiers, MAX_LENGTH};

impl<'a> VersionRef<'a> {
    /// Reads a version from a text, and borrows the text.
    ///
    /// Reads the same texts as `Version::parse`, as the same versions.
    ///
    /// # Errors
    ///
    /// Returns the kind of the fault and its byte offset, as the error of `Version::parse` has them: `1.2` has the kind
    /// `Context("version")` at 3, `1.2.3 ` has `Other` at 5.
    ///
    /// # Memory
    ///
    /// Does not allocate.
    ///
    /// # Examples
    ///
    /// `1.2.3-alpha.1+5` and `v 01.2.3alpha.1+5` are read as equal versions. `1.2.3.4` is not read.
    ///
    /// # Source
    ///
    /// SemVer 2.0.0, sections 2, 9 and 10; the Rust crate `node-semver` 2.2.0.
    #[inline(always)]
    pub fn parse(text: &'a str) -> Result<VersionRef<'a>, VersionFault>
        ensures found { IfOk result (λ v. IsVersionText text.now v) }
        ensures only { (v : VersionValue) → IsVersionText text.now v → IsBorrowedAs v result }
        ensures fault { IfErr result (λ f. IsVersionFault text.now f) }
    {
        match whole(text) {
            Ok(version) => Ok(version),
            Err(fault) => Err(fault_of(text.as_bytes(), fault)),
        }
    }
}

// The version that is the whole text.
#[inline(always)]
fn whole(text: &str) -> Result<VersionRef<'_>, Fault>
    ensures found { IfOk result (λ v. IsVersionText text.now v) }
    ensures fault { IfErr result (IsReadFault text.now) }
{
    let (triple, rest) = read_numbers(text.as_bytes())?;
    read_rest(text, triple, rest)
}

// The three numbers of a version text, and the rest: `1.2.3` and `-alpha` of `V 1.2.3-alpha`
#[inline(always)]
pub(crate) fn read_numbers(text: &[u8]) -> Result<((u64, u64, u64), &[u8]), Fault>
    ensures begun { IfOk result (λ t. IsBegun text.now t.0 t.1.now) }
    ensures fault { IfErr result (IsReadFault text.now) }
{
    if text.len() > MAX_LENGTH {
        // The fault is at the last byte.
        return Err(Fault::TooLong(1));
    }
    read_marked_triple(text)
}

// The version of a text, whose three numbers were read and are followed by `rest`.
#[inline(always)]
pub(crate) fn read_rest<'a>(
    text: &'a str,
    triple: (u64, u64, u64),
    rest: &'a [u8],
) -> Result<VersionRef<'a>, Fault>
    requires { IsBegun text.now triple rest.now }
    ensures found { IfOk result (λ v. IsVersionText text.now v) }
    ensures fault { IfErr result (IsReadFault text.now) }
{
    let (major, minor, patch) = triple;
    // Most versions end here.
    if let [] = rest {
        return Ok(VersionRef {
            text,
            major,
            minor,
            patch,
            pre_release: Identifiers::none(),
            build: Identifiers::none(),
        });
    }
    let (pre_release, build, left) = borrow_extras(rest);
    match left {
        [] => Ok(VersionRef {
            text,
            major,
            minor,
            patch,
            pre_release,
            build,
        }),
        _ => Err(Fault::LeftOver(left.len())),
    }
}

// The fault with its place. `cold`, `inline(never)`: few texts have one.
#[cold]
#[inline(never)]
fn fault_of(text: &[u8], fault: Fault) -> VersionFault
    requires { IsReadFault text.now fault }
    ensures { IsVersionFault text.now result }
{
    VersionFault::of(text, fault)
}
