//! A list of output lines, so that many are written at once.
ghost use Rattle.std.specs.Prelude.{◌≡◌, ◌↔◌, ℕ, List, ◌+◌, ◌≤◌, [], ◌++◌, length, take, OnOk, OnErr, IfErr, IsErr};
ghost use Rattle.std.specs.Io.KnownBytes.{Appends};
ghost use Rattle.semver_pairs.specs.GaugeValue.{HasFailed};
ghost use Rattle.semver_pairs.specs.Private.Answering.{Moves};

use crate::gauge::Gauge;
use crate::run_error::RunError;
use crate::writing::write_all;
use std::io::Write;
use std::marker::Model;

/// The output lines that are still to be written.
#[derive(Drop)]
pub(crate) struct Answers {
    bytes: [u8; 4096],
    count: usize,
}

impl Model for Answers {
    ghost Value = { List ℕ };

    ghost view = { λ answers. take answers.count answers.bytes };

    ghost invariant = { λ answers. answers.count ≤ 4096 };
}

impl Answers {
    /// Returns an empty list.
    pub(crate) fn new() -> Answers
        ensures { result ≡ [] }
    {
        Answers {
            bytes: [0; 4096],
            count: 0,
        }
    }

    /// Adds one more output line. If it does not fit, all lines before it are written first.
    pub(crate) fn put<W: Write>(
        &mut self,
        writer: &mut Gauge<W>,
        line: &[u8],
    ) -> Result<(), RunError>
        requires short { length line.now ≤ 4096 }
        requires unfailed { ¬ HasFailed writer.old }
        ensures put { OnOk result (Moves (W.contents writer.old.inner) (W.contents writer.new.inner)
            self.old line.now self.new) }
        ensures part { OnErr result ((left : List ℕ) × Moves (W.contents writer.old.inner)
            (W.contents writer.new.inner) self.old line.now left) }
        ensures write { IsErr result ↔ HasFailed writer.new }
        ensures only { IfErr result (λ e. e ≡ RunError.Write) }
    {
        if line.len() > self.bytes.len() - self.count {
            self.flush(writer)?;
        }
        self.append(line);
        Ok(())
    }

    /// Writes all output lines, and empties the list.
    pub(crate) fn flush<W: Write>(&mut self, writer: &mut Gauge<W>) -> Result<(), RunError>
        requires { ¬ HasFailed writer.old }
        ensures all { OnOk result (Appends (W.contents writer.old.inner) (W.contents writer.new.inner) self.old) }
        ensures none { OnOk result (self.new ≡ []) }
        ensures part { OnErr result ((count : ℕ) × Appends (W.contents writer.old.inner)
            (W.contents writer.new.inner) (take count self.old)) }
        ensures write { IsErr result ↔ HasFailed writer.new }
        ensures only { IfErr result (λ e. e ≡ RunError.Write) }
    {
        write_all(writer, &self.bytes[..self.count])?;
        self.count = 0;
        Ok(())
    }

    /// Adds an output line for which there is room.
    fn append(&mut self, line: &[u8])
        requires { length self.old + length line.now ≤ 4096 }
        ensures { self.new ≡ self.old ++ line.now }
    {
        let end = self.count + line.len();
        self.bytes[self.count..end].copy_from_slice(line);
        self.count = end;
    }
}
