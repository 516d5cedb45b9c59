//! The pair that is not completely read.
ghost use Rattle.std.specs.Prelude.{◌≡◌, ◌≢◌, ◌↔◌, [], ◌++◌, true, false, IfOk, IfErr, IfSome, IfNone, OnOk, IsTrue};
ghost use Rattle.std.specs.Str.Lines.{strip_carriage_return};
ghost use Rattle.semver_pairs.specs.Pairs.{pairs_read};
ghost use Rattle.semver_pairs.specs.Private.OpenPair.{IsOpen, open_bytes};
ghost use Rattle.semver_pairs.specs.Private.Splitting.{BeginsWithPair};

use crate::lines::split_line;
use crate::run_error::RunError;
use std::alloc::Global;

/// The bytes read of the pair that is not completely read: its range line, and its version line as soon as the range
/// line is ended.
#[derive(Drop)]
pub(crate) struct OpenPair {
    range: Vec<u8>,
    is_range_ended: bool,
    version: Vec<u8>,
}

impl OpenPair {
    /// Returns an open pair of which nothing was read.
    pub(crate) fn new(alloc: Global) -> OpenPair
        ensures lines { IsOpen result }
        ensures none { open_bytes result ≡ [] }
    {
        OpenPair {
            range: Vec::new(alloc),
            is_range_ended: false,
            version: Vec::new(alloc),
        }
    }

    /// Returns `true` if nothing of the pair was read.
    #[tactic(auto, using(crate::proofs::OpenPairLemmas::open_pair))]
    pub(crate) fn is_empty(&self) -> bool
        ensures { IsTrue result ↔ (open_bytes self.now ≡ []) }
    {
        let is_range_ended = self.is_range_ended;
        !is_range_ended && self.range.is_empty()
    }

    /// Returns `true` if the range line is ended, and something of the version line was read.
    pub(crate) fn has_version(&self) -> bool
        ensures { IsTrue result ↔ ((self.now.is_range_ended ≡ true) × (self.now.version.items ≢ [])) }
    {
        self.is_range_ended && !self.version.is_empty()
    }

    /// Returns the range line, or the part of it that was read.
    pub(crate) fn range(&self) -> &[u8]
        ensures { result.now ≡ self.now.range.items }
    {
        &self.range
    }

    /// Returns the part of the version line that was read.
    pub(crate) fn version(&self) -> &[u8]
        ensures { result.now ≡ self.now.version.items }
    {
        &self.version
    }

    /// Adds the bytes up to the end of the pair. If the version line is ended too, returns the bytes after it.
    pub(crate) fn read_on<'b>(&mut self, bytes: &'b [u8]) -> Result<Option<&'b [u8]>, RunError>
        requires { IsOpen self.old }
        ensures whole { IfOk result (λ found. IfSome found (λ rest. BeginsWithPair
            (open_bytes self.old ++ bytes.now) self.new.range.items
            (strip_carriage_return self.new.version.items) rest.now)) }
        ensures lines { IfOk result (λ found. IfNone found (IsOpen self.new)) }
        ensures more { IfOk result (λ found. IfNone found
            (open_bytes self.new ≡ open_bytes self.old ++ bytes.now)) }
        ensures memory { IfErr result (λ e. e ≡ RunError.Memory) }
    {
        match self.read_range(bytes)? {
            Some(rest) => self.read_version(rest),
            None => Ok(None),
        }
    }

    /// Adds the bytes up to the end of the range line. If that is ended, returns the bytes after it.
    #[tactic(auto, using(crate::proofs::OpenPairLemmas::open_pair))]
    fn read_range<'b>(&mut self, bytes: &'b [u8]) -> Result<Option<&'b [u8]>, RunError>
        requires { IsOpen self.old }
        ensures lines { OnOk result (IsOpen self.new) }
        ensures ended { IfOk result (λ found. IfSome found (λ _. self.new.is_range_ended ≡ true)) }
        ensures rest { IfOk result (λ found. IfSome found (λ rest.
            open_bytes self.old ++ bytes.now ≡ open_bytes self.new ++ rest.now)) }
        ensures more { IfOk result (λ found. IfNone found
            (open_bytes self.new ≡ open_bytes self.old ++ bytes.now)) }
        ensures memory { IfErr result (λ e. e ≡ RunError.Memory) }
    {
        if self.is_range_ended {
            return Ok(Some(bytes));
        }
        match split_line(bytes) {
            Some((line, rest)) => {
                append(&mut self.range, line)?;
                self.is_range_ended = true;
                Ok(Some(rest))
            }
            None => {
                append(&mut self.range, bytes)?;
                Ok(None)
            }
        }
    }

    /// Adds the bytes up to the end of the version line. If that is ended, returns the bytes after it.
    fn read_version<'b>(&mut self, bytes: &'b [u8]) -> Result<Option<&'b [u8]>, RunError>
        requires lines { IsOpen self.old }
        requires ended { self.old.is_range_ended ≡ true }
        ensures whole { IfOk result (λ found. IfSome found (λ rest. BeginsWithPair
            (open_bytes self.old ++ bytes.now) self.new.range.items
            (strip_carriage_return self.new.version.items) rest.now)) }
        ensures lines { IfOk result (λ found. IfNone found (IsOpen self.new)) }
        ensures more { IfOk result (λ found. IfNone found
            (open_bytes self.new ≡ open_bytes self.old ++ bytes.now)) }
        ensures memory { IfErr result (λ e. e ≡ RunError.Memory) }
    {
        match split_line(bytes) {
            Some((line, rest)) => {
                append(&mut self.version, line)?;
                Ok(Some(rest))
            }
            None => {
                append(&mut self.version, bytes)?;
                Ok(None)
            }
        }
    }

    /// Begins a new pair with these bytes.
    #[tactic(auto, using(crate::proofs::OpenPairLemmas::open_pair))]
    pub(crate) fn begin(&mut self, bytes: &[u8]) -> Result<(), RunError>
        requires { pairs_read false bytes.now ≡ [] }
        ensures lines { OnOk result (IsOpen self.new) }
        ensures bytes { OnOk result (open_bytes self.new ≡ bytes.now) }
        ensures memory { IfErr result (λ e. e ≡ RunError.Memory) }
    {
        self.range.clear();
        self.version.clear();
        match split_line(bytes) {
            Some((line, rest)) => {
                self.is_range_ended = true;
                append(&mut self.range, line)?;
                append(&mut self.version, rest)
            }
            None => {
                self.is_range_ended = false;
                append(&mut self.range, bytes)
            }
        }
    }
}

/// Appends the bytes to a text.
fn append(text: &mut Vec<u8>, bytes: &[u8]) -> Result<(), RunError>
    ensures appended { OnOk result (text.new.items ≡ text.old.items ++ bytes.now) }
    ensures memory { IfErr result (λ e. e ≡ RunError.Memory) }
{
    match text.extend_from_slice(bytes) {
        Ok(()) => Ok(()),
        Err(_) => Err(RunError::Memory),
    }
}
