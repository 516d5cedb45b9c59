//! How ranges are printed.

ghost use Rattle.std.specs.Prelude.{◌++◌, Some, flat_map};
ghost use Rattle.std.specs.Fmt.{WritesOnOk};
ghost use Rattle.semver_texts.specs.Print.{version_text};
ghost use Rattle.semver_sets.specs.RangePrint.{lower_text, range_text, set_text, upper_text};
ghost use Rattle.node_semver.specs.Lemmas.RangePrint.{barred_text};

use crate::Range;
use semver_cuts::{Cut, Span};
use semver_sets::line::line_of;
use semver_texts::end::{EndVersion, Zero};
use semver_texts::line::ROOM;
use semver_versions::version::display::write_version;
use std::fmt;

/// Prints the sets in their order, with `||` and no blank between them. A set prints as a text that gives this set:
///
/// | set | text |
/// |---|---|
/// | all cuts | `*` |
/// | one end open | `>=1.2.3`, `>1.2.3`, `<1.2.3` or `<=1.2.3` |
/// | from before a version to after an equal one | `1.2.3` |
/// | any other | both ends, as `>=1.2.3 <2.0.0-0` |
///
/// Width and fill are ignored. The builds of the ends are printed, except that `1.2.3` has only the build of the lower
/// end. The text `*` is read as `>=0.0.0`, and that range prints as `>=0.0.0`: only [`Range::any`] prints `*`.
///
/// # Memory
///
/// Does not allocate.
///
/// # Examples
///
/// `^1.2.3-rc.4` prints `>=1.2.3-rc.4 <2.0.0-0`, and `= 1.2.3 || >4` prints `1.2.3||>=5.0.0`.
impl fmt::Display for Range {
    ghost output = { λ r. Some (range_text r) };

    fn fmt<W: fmt::Write>(&self, f: &mut fmt::Formatter<W>) -> fmt::Result {
        match self.sets.as_slice() {
            [] => Ok(()),
            [first, rest @ ..] => {
                write_set(f, first)?;
                write_barred(f, rest)
            }
        }
    }
}

// Writes `||` and the set, for each set.
fn write_barred<W: fmt::Write>(f: &mut fmt::Formatter<W>, sets: &[Span<EndVersion>]) -> fmt::Result
    ensures { WritesOnOk W.write_str_gives f.old result (flat_map barred_text sets.now) f.new }
{
    'sets: for set in sets {
        f.write_str("||")?;
        write_set(f, set)?;
    }
    Ok(())
}

// `*`, `>=1.2.3`, `1.2.3`, `>1.2.3 <=2.0.0`. One write if the text of the set fits `line`.
fn write_set<W: fmt::Write>(f: &mut fmt::Formatter<W>, set: &Span<EndVersion>) -> fmt::Result
    ensures { WritesOnOk W.write_str_gives f.old result (set_text set.now) f.new }
{
    let mut line = [0; ROOM];
    match line_of(&mut line, set) {
        Some(text) => f.write_str(text),
        None => write_ends(f, set),
    }
}

// Writes the text of any set, in several writes. `inline(never)`: few sets need it.
#[inline(never)]
fn write_ends<W: fmt::Write>(f: &mut fmt::Formatter<W>, set: &Span<EndVersion>) -> fmt::Result
    ensures { WritesOnOk W.write_str_gives f.old result (set_text set.now) f.new }
{
    match (set.lower(), set.upper()) {
        (Cut::Start, Cut::End) => f.write_str("*"),
        (Cut::Start, upper) => write_upper(f, upper),
        (lower, Cut::End) => write_lower(f, lower),
        (Cut::Before(v), Cut::After(w)) if v == w => write_end(f, v),
        (lower, upper) => {
            write_lower(f, lower)?;
            f.write_str(" ")?;
            write_upper(f, upper)
        }
    }
}

// `>=1.2.3`
fn write_lower<W: fmt::Write>(f: &mut fmt::Formatter<W>, lower: &Cut<EndVersion>) -> fmt::Result
    ensures { WritesOnOk W.write_str_gives f.old result (lower_text lower.now) f.new }
{
    match lower {
        Cut::Start | Cut::End => Ok(()),
        Cut::Before(v) => write_operator(f, ">=", v),
        Cut::After(v) => write_operator(f, ">", v),
    }
}

// `<2.0.0`
fn write_upper<W: fmt::Write>(f: &mut fmt::Formatter<W>, upper: &Cut<EndVersion>) -> fmt::Result
    ensures { WritesOnOk W.write_str_gives f.old result (upper_text upper.now) f.new }
{
    match upper {
        Cut::Start | Cut::End => Ok(()),
        Cut::Before(v) => write_operator(f, "<", v),
        Cut::After(v) => write_operator(f, "<=", v),
    }
}

// The operator, and the version after it.
fn write_operator<W: fmt::Write>(
    f: &mut fmt::Formatter<W>,
    operator: &str,
    end: &EndVersion,
) -> fmt::Result
    ensures { WritesOnOk W.write_str_gives f.old result (operator.now ++ version_text end.now) f.new }
{
    f.write_str(operator)?;
    write_end(f, end)
}

// `1.2.3-rc.4+5`
fn write_end<W: fmt::Write>(f: &mut fmt::Formatter<W>, end: &EndVersion) -> fmt::Result
    ensures { WritesOnOk W.write_str_gives f.old result (version_text end.now) f.new }
{
    let zero = Zero::new();
    let triple = (end.major, end.minor, end.patch);
    write_version(f, triple, end.pre_release().as_slice(&zero), end.build())
}
