//! The output for the bytes of one read, and for the bytes that are left at the end of the input.
ghost use Rattle.std.specs.Prelude.{◌≡◌, ◌≢◌, [], ◌++◌, MatchResult, IfOk, IfSome, IfNone, OnOk};
ghost use Rattle.semver_pairs.specs.GaugeValue.{HasFailed};
ghost use Rattle.semver_pairs.specs.Private.Answering.{AnswersAll, AnswersAllInPart, AnswersPast, AnswersInPart};
ghost use Rattle.semver_pairs.specs.Private.Answering.{TellsFailure};
ghost use Rattle.semver_pairs.specs.Private.OpenPair.{IsOpen, open_bytes};

use crate::answering::{answer_one, answer_pairs};
use crate::answers::Answers;
use crate::gauge::Gauge;
use crate::lines::without_return;
use crate::open_pair::OpenPair;
use crate::run_error::RunError;
use std::alloc::Global;
use std::io::Write;

/// Adds the output for the pairs that a piece of the input completes.
pub(crate) fn answer_piece<W: Write>(
    alloc: Global,
    piece: &[u8],
    kept: &mut OpenPair,
    answers: &mut Answers,
    writer: &mut Gauge<W>,
) -> Result<(), RunError>
    requires lines { IsOpen kept.old }
    requires written { answers.old ≡ [] }
    requires unfailed { ¬ HasFailed writer.old }
    ensures answers { MatchResult result
        (λ _. AnswersPast (open_bytes kept.old ++ piece.now) (open_bytes kept.new)
        (W.contents writer.old.inner) (W.contents writer.new.inner) [] [])
        (λ _. AnswersInPart (open_bytes kept.old ++ piece.now)
        (W.contents writer.old.inner) (W.contents writer.new.inner) []) }
    ensures lines { OnOk result (IsOpen kept.new) }
    ensures written { OnOk result (answers.new ≡ []) }
    ensures failure { TellsFailure result (HasFailed writer.new) }
{
    let Some(rest) = answer_open(alloc, piece, kept, answers, writer)? else {
        return Ok(());
    };
    let rest = answer_pairs(alloc, rest, answers, writer)?;
    answers.flush(writer)?;
    kept.begin(rest)
}

/// Adds the output for the open pair if the piece completes it, and returns the rest of the piece. If the pair stays
/// open, adds nothing.
fn answer_open<'b, W: Write>(
    alloc: Global,
    piece: &'b [u8],
    kept: &mut OpenPair,
    answers: &mut Answers,
    writer: &mut Gauge<W>,
) -> Result<Option<&'b [u8]>, RunError>
    requires lines { IsOpen kept.old }
    requires unfailed { ¬ HasFailed writer.old }
    ensures answers { MatchResult result
        (λ found. IfSome found (λ rest. AnswersPast (open_bytes kept.old ++ piece.now) rest.now
        (W.contents writer.old.inner) (W.contents writer.new.inner) answers.old answers.new))
        (λ _. AnswersInPart (open_bytes kept.old ++ piece.now)
        (W.contents writer.old.inner) (W.contents writer.new.inner) answers.old) }
    ensures left { IfOk result (λ found. IfNone found
        (IsOpen kept.new × (open_bytes kept.new ≡ open_bytes kept.old ++ piece.now))) }
    ensures untouched { IfOk result (λ found. IfNone found
        ((answers.new ≡ answers.old) × (writer.new ≡ writer.old))) }
    ensures failure { TellsFailure result (HasFailed writer.new) }
{
    if kept.is_empty() {
        return Ok(Some(piece));
    }
    let Some(rest) = kept.read_on(piece)? else {
        return Ok(None);
    };
    let version = without_return(kept.version());
    answer_one(alloc, kept.range(), version, answers, writer)?;
    Ok(Some(rest))
}

/// Writes the output for the last pair, after the end of the input was read.
pub(crate) fn answer_last<W: Write>(
    alloc: Global,
    kept: &OpenPair,
    answers: &mut Answers,
    writer: &mut Gauge<W>,
) -> Result<(), RunError>
    requires lines { IsOpen kept.now }
    requires written { answers.old ≡ [] }
    requires unfailed { ¬ HasFailed writer.old }
    ensures answers { MatchResult result
        (λ _. AnswersAll (open_bytes kept.now) (W.contents writer.old.inner) (W.contents writer.new.inner) [] [])
        (λ _. AnswersAllInPart (open_bytes kept.now) (W.contents writer.old.inner) (W.contents writer.new.inner) []) }
    ensures failure { TellsFailure result (HasFailed writer.new) }
{
    if kept.is_empty() {
        return Ok(());
    }
    add_last(alloc, kept, answers, writer)?;
    answers.flush(writer)?;
    Ok(())
}

/// Adds the output for the last pair, of which something was read.
fn add_last<W: Write>(
    alloc: Global,
    kept: &OpenPair,
    answers: &mut Answers,
    writer: &mut Gauge<W>,
) -> Result<(), RunError>
    requires lines { IsOpen kept.now }
    requires some { open_bytes kept.now ≢ [] }
    requires written { answers.old ≡ [] }
    requires unfailed { ¬ HasFailed writer.old }
    ensures answers { MatchResult result
        (λ _. AnswersAll (open_bytes kept.now)
        (W.contents writer.old.inner) (W.contents writer.new.inner) [] answers.new)
        (λ _. AnswersAllInPart (open_bytes kept.now) (W.contents writer.old.inner) (W.contents writer.new.inner) []) }
    ensures failure { TellsFailure result (HasFailed writer.new) }
{
    if !kept.has_version() {
        answers.put(writer, b"missing version\n")?;
        return Ok(());
    }
    answer_one(alloc, kept.range(), kept.version(), answers, writer)
}
