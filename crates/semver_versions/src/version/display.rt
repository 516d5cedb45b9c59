//! How versions are printed.

ghost use Rattle.std.specs.Prelude.{◌∷◌, ◌++◌, Some, decimal, flat_map};
ghost use Rattle.std.specs.Fmt.{WritesOnOk};
ghost use Rattle.semver_texts.specs.Characters.{dot};
ghost use Rattle.semver_texts.specs.Identifier.{values_of};
ghost use Rattle.semver_texts.specs.Print.{version_text};
ghost use Rattle.semver_versions.specs.Lemmas.Print.{dotted_text, led_text};

use crate::Version;
use semver_texts::Identifier;
use semver_texts::line::{ROOM, triple_text};
use std::fmt;

/// Prints major, minor and patch with dots between them, `-` and the prerelease, `+` and the build. Identifiers have
/// dots between them.
///
/// Width and fill are ignored. Identifiers that cannot be read from a text are printed as they are.
///
/// # Examples
///
/// `1.2.34-abc.213+2` prints as itself, also with `{:>40}`.
///
/// # Source
///
/// SemVer 2.0.0, sections 2, 9 and 10.
impl fmt::Display for Version {
    ghost output = { λ v. Some (version_text v) };

    fn fmt<W: fmt::Write>(&self, f: &mut fmt::Formatter<W>) -> fmt::Result {
        let triple = (self.major, self.minor, self.patch);
        write_version(f, triple, &self.pre_release, &self.build)
    }
}

// Writes the version with this triple, prerelease and build.
pub fn write_version<W: fmt::Write>(
    f: &mut fmt::Formatter<W>,
    triple: (u64, u64, u64),
    pre_release: &[Identifier],
    build: &[Identifier],
) -> fmt::Result
    ensures { WritesOnOk W.write_str_gives f.old result (version_text record {
      major = triple.0;
      minor = triple.1;
      patch = triple.2;
      pre_release = values_of pre_release.now;
      build = values_of build.now;
    }) f.new }
{
    write_triple(f, triple)?;
    write_marked(f, "-", pre_release)?;
    write_marked(f, "+", build)
}

// Writes `1.2.3` in one write.
#[inline]
pub(crate) fn write_triple<W: fmt::Write>(
    f: &mut fmt::Formatter<W>,
    triple: (u64, u64, u64),
) -> fmt::Result
    ensures { WritesOnOk W.write_str_gives f.old result
        (decimal triple.0 ++ (dot ∷ (decimal triple.1 ++ (dot ∷ decimal triple.2)))) f.new }
{
    let mut line = [0; ROOM];
    f.write_str(triple_text(&mut line, triple.0, triple.1, triple.2))
}

// Writes the mark and the identifiers with dots between them. `inline(always)`: most versions have none, which is one
// test.
#[inline(always)]
fn write_marked<W: fmt::Write>(
    f: &mut fmt::Formatter<W>,
    mark: &str,
    identifiers: &[Identifier],
) -> fmt::Result
    ensures { WritesOnOk W.write_str_gives f.old result (led_text mark.now identifiers.now) f.new }
{
    match identifiers {
        [] => Ok(()),
        [first, rest @ ..] => write_some(f, mark, first, rest),
    }
}

// Writes the mark, the first identifier and the others. `inline(never)`: few versions need it.
#[inline(never)]
fn write_some<W: fmt::Write>(
    f: &mut fmt::Formatter<W>,
    mark: &str,
    first: &Identifier,
    others: &[Identifier],
) -> fmt::Result
    ensures { WritesOnOk W.write_str_gives f.old result (led_text mark.now (first.now ∷ others.now)) f.new }
{
    f.write_str(mark)?;
    fmt::Display::fmt(first, f)?;
    write_dotted(f, others)
}

// Writes a dot and the identifier, for each identifier.
fn write_dotted<W: fmt::Write>(f: &mut fmt::Formatter<W>, identifiers: &[Identifier]) -> fmt::Result
    ensures { WritesOnOk W.write_str_gives f.old result (flat_map dotted_text identifiers.now) f.new }
{
    'identifiers: for identifier in identifiers {
        f.write_str(".")?;
        fmt::Display::fmt(identifier, f)?;
    }
    Ok(())
}
