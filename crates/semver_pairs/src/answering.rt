//! The output for pairs of lines.
ghost use Rattle.std.specs.Prelude.{◌≡◌, ℕ, List, [], false, ◌<◌, ◌≤◌, length, MatchOption, MatchResult};
ghost use Rattle.std.specs.Prelude.{IfOk, IfSome, IfNone, IsTrue};
ghost use Rattle.std.specs.Str.{IsAscii};
ghost use Rattle.std.specs.Str.Lines.{strip_carriage_return};
ghost use Rattle.semver_pairs.specs.Answer.{IsBadRange};
ghost use Rattle.semver_pairs.specs.GaugeValue.{HasFailed};
ghost use Rattle.semver_pairs.specs.Pairs.{pairs_read};
ghost use Rattle.semver_pairs.specs.Private.Answering.{AnswersOne, AnswersOneInPart, AnswersPast, AnswersRange};
ghost use Rattle.semver_pairs.specs.Private.Answering.{AnswersRangeInPart, AnswersInPart, IsAnswerLine, IsReadRange};
ghost use Rattle.semver_pairs.specs.Private.Answering.{TellsFailure};
ghost use Rattle.semver_pairs.specs.Private.Splitting.{BeginsWithPair, HasNoNewline};
ghost use Rattle.semver_sets.specs.Meaning.{RangeAdmits};

use crate::answers::Answers;
use crate::gauge::Gauge;
use crate::lines::{past_line, split_line, without_return};
use crate::run_error::RunError;
use crate::text::text_of;
use node_semver::{Range, VersionRef};
use std::alloc::Global;
use std::io::Write;

/// A range line, a version line, the bytes after them, and whether all of these are known to be ASCII.
#[derive(Clone, Copy)]
struct Pair<'b> {
    range: &'b [u8],
    version: &'b [u8],
    rest: &'b [u8],
    is_ascii: bool,
}

/// Adds the output for the complete pairs in these bytes, and returns the rest.
pub(crate) fn answer_pairs<'b, W: Write>(
    alloc: Global,
    bytes: &'b [u8],
    answers: &mut Answers,
    writer: &mut Gauge<W>,
) -> Result<&'b [u8], RunError>
    requires { ¬ HasFailed writer.old }
    ensures answers { MatchResult result
        (λ rest. AnswersPast bytes.now rest.now
        (W.contents writer.old.inner) (W.contents writer.new.inner) answers.old answers.new)
        (λ _. AnswersInPart bytes.now (W.contents writer.old.inner) (W.contents writer.new.inner) answers.old) }
    ensures none { IfOk result (λ rest. pairs_read false rest.now ≡ []) }
    ensures failure { TellsFailure result (HasFailed writer.new) }
{
    let is_ascii = bytes.is_ascii();
    let mut rest = bytes;
    'pairs: while let Some(pair) = first_pair(rest, is_ascii) {
        rest = answer_range(alloc, &pair, answers, writer)?;
    }
    Ok(rest)
}

/// Returns the first pair if it is complete.
fn first_pair(bytes: &[u8], is_ascii: bool) -> Option<Pair<'_>>
    ensures found { IfSome result (λ pair. BeginsWithPair bytes.now pair.range.now pair.version.now pair.rest.now) }
    ensures fewer { IfSome result (λ pair. length pair.rest.now < length bytes.now) }
    ensures ascii { IfSome result (λ pair. IsAscii bytes.now
        → IsAscii pair.range.now × IsAscii pair.version.now × IsAscii pair.rest.now) }
    ensures marked { IfSome result (λ pair. pair.is_ascii ≡ is_ascii) }
    ensures none { IfNone result (pairs_read false bytes.now ≡ []) }
{
    let (range, others) = split_line(bytes)?;
    let (version, rest) = split_line(others)?;
    Some(Pair {
        range,
        version: without_return(version),
        rest,
        is_ascii,
    })
}

/// Adds the output for a pair after which nothing follows.
// `inline(never)`: few pairs take more than one read.
#[inline(never)]
pub(crate) fn answer_one<W: Write>(
    alloc: Global,
    range: &[u8],
    version: &[u8],
    answers: &mut Answers,
    writer: &mut Gauge<W>,
) -> Result<(), RunError>
    requires one_line { HasNoNewline range.now }
    requires unfailed { ¬ HasFailed writer.old }
    ensures answers { MatchResult result
        (λ _. AnswersOne range.now version.now
        (W.contents writer.old.inner) (W.contents writer.new.inner) answers.old answers.new)
        (λ _. AnswersOneInPart range.now version.now
        (W.contents writer.old.inner) (W.contents writer.new.inner) answers.old) }
    ensures failure { TellsFailure result (HasFailed writer.new) }
{
    let pair = Pair {
        range,
        version,
        rest: &[],
        is_ascii: false,
    };
    answer_range(alloc, &pair, answers, writer)?;
    Ok(())
}

/// Adds the output for a pair and for the pairs right after it with the same range line, and returns the rest.
// `inline(always)`: it is then part of the loop of `answer_pairs`.
#[inline(always)]
fn answer_range<'b, W: Write>(
    alloc: Global,
    pair: &Pair<'b>,
    answers: &mut Answers,
    writer: &mut Gauge<W>,
) -> Result<&'b [u8], RunError>
    requires one_line { HasNoNewline pair.now.range.now }
    requires ascii { IsTrue pair.now.is_ascii
        → IsAscii pair.now.range.now × IsAscii pair.now.version.now × IsAscii pair.now.rest.now }
    requires unfailed { ¬ HasFailed writer.old }
    ensures answers { MatchResult result
        (λ rest. AnswersRange pair.now.range.now pair.now.version.now pair.now.rest.now rest.now
        (W.contents writer.old.inner) (W.contents writer.new.inner) answers.old answers.new)
        (λ _. AnswersRangeInPart pair.now.range.now pair.now.version.now pair.now.rest.now
        (W.contents writer.old.inner) (W.contents writer.new.inner) answers.old) }
    ensures fewer { IfOk result (λ rest. length rest.now ≤ length pair.now.rest.now) }
    ensures ascii { IfOk result (λ rest. IsTrue pair.now.is_ascii → IsAscii rest.now) }
    ensures failure { TellsFailure result (HasFailed writer.new) }
{
    let Some(text) = text_of(without_return(pair.range), pair.is_ascii) else {
        return answer_versions(None, pair, answers, writer);
    };
    match &Range::parse(alloc, text) {
        Err(error) if error.is_out_of_memory() => Err(RunError::Memory),
        Err(_) => answer_versions(None, pair, answers, writer),
        Ok(range) => answer_versions(Some(range), pair, answers, writer),
    }
}

/// Answers the pairs of a range line that was parsed: `range` is `None` if the line is no range.
// `inline(never)`: it is one call for each range line, and the loop over versions has a stack of its own.
#[inline(never)]
fn answer_versions<'b, W: Write>(
    range: Option<&Range>,
    pair: &Pair<'b>,
    answers: &mut Answers,
    writer: &mut Gauge<W>,
) -> Result<&'b [u8], RunError>
    requires one_line { HasNoNewline pair.now.range.now }
    requires range { MatchOption range (IsBadRange (strip_carriage_return pair.now.range.now))
        (λ r. IsReadRange (strip_carriage_return pair.now.range.now) (RangeAdmits r.now)) }
    requires ascii { IsTrue pair.now.is_ascii → IsAscii pair.now.version.now × IsAscii pair.now.rest.now }
    requires unfailed { ¬ HasFailed writer.old }
    ensures answers { MatchResult result
        (λ rest. AnswersRange pair.now.range.now pair.now.version.now pair.now.rest.now rest.now
        (W.contents writer.old.inner) (W.contents writer.new.inner) answers.old answers.new)
        (λ _. AnswersRangeInPart pair.now.range.now pair.now.version.now pair.now.rest.now
        (W.contents writer.old.inner) (W.contents writer.new.inner) answers.old) }
    ensures fewer { IfOk result (λ rest. length rest.now ≤ length pair.now.rest.now) }
    ensures ascii { IfOk result (λ rest. IsTrue pair.now.is_ascii → IsAscii rest.now) }
    ensures failure { TellsFailure result (HasFailed writer.new) }
{
    let mut version = pair.version;
    let mut rest = pair.rest;
    'versions: loop {
        let answer = answer_of(range, version, pair.is_ascii);
        answers.put(writer, answer.as_bytes())?;
        let Some((next, others)) = next_version(rest, pair.range) else {
            return Ok(rest);
        };
        version = next;
        rest = others;
    }
}

/// Returns the version line of the first pair and the bytes after it, if the pair is complete and has this range line.
fn next_version<'b>(bytes: &'b [u8], range: &[u8]) -> Option<(&'b [u8], &'b [u8])>
    requires { HasNoNewline range.now }
    ensures found { IfSome result (λ pair. BeginsWithPair bytes.now range.now pair.0.now pair.1.now) }
    ensures fewer { IfSome result (λ pair. length pair.1.now < length bytes.now) }
    ensures ascii { IfSome result (λ pair. IsAscii bytes.now → IsAscii pair.0.now × IsAscii pair.1.now) }
{
    let (version, rest) = split_line(past_line(bytes, range)?)?;
    Some((without_return(version), rest))
}

/// Returns the output for a range and a version line, with a newline. `range` is `None` if the range line is no range.
/// Does not allocate.
fn answer_of(range: Option<&Range>, version: &[u8], is_ascii: bool) -> &'static str
    requires { IsTrue is_ascii → IsAscii version.now }
    ensures answer { (line : List ℕ)
        → MatchOption range.entry (IsBadRange line) (λ r. IsReadRange line (RangeAdmits r.now))
        → IsAnswerLine line version.now result.now }
    ensures short { length result.now ≤ 4096 }
{
    let Some(range) = range else {
        return "bad range\n";
    };
    let Some(text) = text_of(version, is_ascii) else {
        return "bad version\n";
    };
    match &VersionRef::parse(text) {
        Ok(version) if range.satisfies(version) => "yes\n",
        Ok(_) => "no\n",
        Err(_) => "bad version\n",
    }
}
