//! The program, for any reader and writer.
//!
//! Input is read in pieces of 4,096 bytes. A line counts with its newline, since a failed read may have cut it.
ghost use Rattle.std.specs.Prelude.{◌≡◌, ◌⊎◌, ◌↔◌, ◌^◌, ◌-◌, ◌≤◌, length, OnOk, OnErr, IfSome, IsErrOf};
ghost use Rattle.semver_pairs.specs.GaugeValue.{HasFailed};
ghost use Rattle.semver_pairs.specs.Output.{Exchanges, HasEnded, IsOutput, IsOutputBeforeEnd, IsOutputPrefix};

use crate::answers::Answers;
use crate::gauge::Gauge;
use crate::open_pair::OpenPair;
use crate::piece::{answer_last, answer_piece};
use crate::run_error::RunError;
use std::alloc::Global;
use std::io::{Read, Write};

/// Reads to the end, and writes one line for each pair of lines: a range line and a version line. The line for a pair
/// that was completely read is written before the next read.
///
/// The line is `bad range` if the range line is no range, else `bad version` if the version line is no version, else
/// `yes` or `no`. A last range line without a version line gives `missing version`, whatever it contains.
///
/// A line ends at a newline byte. One carriage return just before that byte is ignored. The bytes after the last
/// newline byte are a line too, unless there are none; a carriage return at their end stays. A line that is not UTF-8
/// is no range and no version. A call that failed is not made again.
///
/// # Errors
///
/// - `Read`: the reader's gauge has failed, now or before.
/// - `Write`: the writer's gauge has failed, now or before. If both had failed before, the error is `Read`.
/// - `Memory`: an allocation failed.
/// - `Endless`: 18446744073709551615 reads returned bytes without reaching the end.
///
/// The bytes written are then the beginning of the output for the pairs that were completely read. A pair is completely
/// read as soon as the newline byte of its version line is read, or the end. A last line without a version line is, as
/// soon as the end is read. After `Read`, all of this output was written.
///
/// # Memory
///
/// Allocates for one range at a time, and for the pair that is not completely read: as much as the
/// longest pair so far that took more than one read.
///
/// # Examples
///
/// - `^1.2.3-rc.4`, `1.2.3-rc.5`, `foo`, `1.0.0`, `1`, `bad`, `1`, a line each, give `yes`, `bad range`, `bad version`,
///   `missing version`, a line each.
/// - `>=1.2.3 <2.0.0` and `2.0.0` give `no`.
/// - No bytes give no bytes.
pub fn run<R: Read, W: Write>(
    alloc: Global,
    reader: &mut Gauge<R>,
    writer: &mut Gauge<W>,
) -> Result<(), RunError>
    // The bytes that were read, and their output.
    ensures answered { OnOk result (Exchanges IsOutput (R.remaining reader.old.inner)
        (R.remaining reader.new.inner) (W.contents writer.old.inner) (W.contents writer.new.inner)) }
    ensures ended { OnOk result (HasEnded R.remaining reader.new) }
    ensures beginning { OnErr result (Exchanges (IsOutputPrefix (HasEnded R.remaining reader.new))
        (R.remaining reader.old.inner) (R.remaining reader.new.inner)
        (W.contents writer.old.inner) (W.contents writer.new.inner)) }
    // After a failed read, no output is missing.
    ensures complete { IsErrOf result RunError.Read → Exchanges IsOutputBeforeEnd
        (R.remaining reader.old.inner) (R.remaining reader.new.inner)
        (W.contents writer.old.inner) (W.contents writer.new.inner) }

    // When each error is returned.
    ensures read { IsErrOf result RunError.Read ↔ HasFailed reader.new }
    ensures write { ¬ HasFailed reader.old → IsErrOf result RunError.Write ↔ HasFailed writer.new }
    ensures endless { IsErrOf result RunError.Endless
        → IfSome (R.remaining reader.old.inner) (λ bytes. 2 ^ 64 - 1 ≤ length bytes) }

    // If a gauge had failed before, nothing is read or written, and the error is that of this gauge.
    ensures untouched { (HasFailed reader.old ⊎ HasFailed writer.old)
        → (reader.new ≡ reader.old) × (writer.new ≡ writer.old) }
{
    if reader.failed() {
        return Err(RunError::Read);
    }
    if writer.failed() {
        return Err(RunError::Write);
    }
    let mut kept = OpenPair::new(alloc);
    let mut answers = Answers::new();
    let mut piece = [0u8; 4096];
    'reads: for _ in 0..u64::MAX {
        match reader.read(&mut piece) {
            Ok(0) => return answer_last(alloc, &kept, &mut answers, writer),
            Ok(count) => answer_piece(alloc, &piece[..count], &mut kept, &mut answers, writer)?,
            Err(_) => return Err(RunError::Read),
        }
    }
    Err(RunError::Endless)
}
