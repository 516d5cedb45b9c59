//! How versions that borrow their text are printed.
ghost use Rattle.std.specs.Prelude.{Some};
ghost use Rattle.std.specs.Fmt.{WritesOnOk};
ghost use Rattle.semver_texts.specs.IdentifierText.{IsListed, identifiers_of};
ghost use Rattle.semver_texts.specs.Print.{version_text};
ghost use Rattle.semver_versions.specs.Lemmas.Print.{led_values};

use crate::VersionRef;
use crate::version::display::write_triple;
use semver_texts::identifier::borrowed::{borrowed_of, text_of};
use semver_texts::parse::listed::split_first;
use std::fmt;

/// Prints what the [`Version`](crate::Version) of the text prints: not the text itself, if that has a mark or leading
/// zeros. Width and fill are ignored.
///
/// # Examples
///
/// `v1.02.3-rc.01` prints `1.2.3-rc.1`.
impl<'a> fmt::Display for VersionRef<'a> {
    ghost output = { λ v. Some (version_text v) };

    fn fmt<W: fmt::Write>(&self, f: &mut fmt::Formatter<W>) -> fmt::Result {
        write_triple(f, (self.major, self.minor, self.patch))?;
        write_list(f, "-", text_of(&self.pre_release))?;
        write_list(f, "+", text_of(&self.build))
    }
}

// Writes the mark and the identifiers with dots between them, or nothing if there are none. It calls itself at most 128
// times, since a version has at most 256 bytes.
fn write_list<W: fmt::Write>(f: &mut fmt::Formatter<W>, mark: &str, text: &[u8]) -> fmt::Result
    requires { IsListed text.now }
    ensures { WritesOnOk W.write_str_gives f.old result (led_values mark.now (identifiers_of text.now)) f.new }
{
    if text.is_empty() {
        return Ok(());
    }
    let (first, rest) = split_first(text);
    f.write_str(mark)?;
    fmt::Display::fmt(&borrowed_of(first), f)?;
    write_list(f, ".", rest)
}
