//! Writing a whole text.
ghost use Rattle.std.specs.Prelude.{◌≡◌, ◌↔◌, ℕ, take, OnOk, OnErr, IfErr, IsErr};
ghost use Rattle.std.specs.Io.KnownBytes.{Appends};
ghost use Rattle.semver_pairs.specs.GaugeValue.{HasFailed};

use crate::gauge::Gauge;
use crate::run_error::RunError;
use std::io::Write;

/// Writes the whole text, with as many calls of `write` as are needed.
pub(crate) fn write_all<W: Write>(writer: &mut Gauge<W>, text: &[u8]) -> Result<(), RunError>
    requires { ¬ HasFailed writer.old }
    ensures all { OnOk result (Appends (W.contents writer.old.inner) (W.contents writer.new.inner) text.now) }
    ensures part { OnErr result ((count : ℕ) × Appends (W.contents writer.old.inner)
        (W.contents writer.new.inner) (take count text.now)) }
    ensures write { IsErr result ↔ HasFailed writer.new }
    ensures only { IfErr result (λ e. e ≡ RunError.Write) }
{
    let mut at = 0;
    'writes: while at < text.len() {
        match writer.write(&text[at..]) {
            Ok(0) => return Err(RunError::Write),
            Ok(n) => at += n,
            Err(_) => return Err(RunError::Write),
        }
    }
    Ok(())
}
