//! A run on readers and writers in memory.
use super::stepwise::Stepwise;
use crate::gauge::Gauge;
use crate::program::run;
use crate::run_error::RunError;
use std::alloc::Global;
use std::io::Cursor;

/// All bytes in one call.
pub(crate) const WHOLE: (usize, usize) = (usize::MAX, usize::MAX);

/// The outcome of a run.
#[derive(Drop)]
pub(crate) struct Outcome {
    pub(crate) result: Result<(), RunError>,
    pub(crate) has_read_failed: bool,
    pub(crate) has_write_failed: bool,
    pub(crate) reads: usize,
    pub(crate) writes: usize,
    written: Cursor<[u8; 12_000]>,
}

impl Outcome {
    /// The bytes that were written.
    pub(crate) fn text(&self) -> &[u8] {
        let count = self.written.position() as usize;
        self.written.get_ref().get(..count).unwrap_or(&[])
    }

    /// Returns `true` if the run ended with a failed read, and no write has failed.
    pub(crate) fn has_stopped_reading(&self) -> bool {
        let is_reported = self.result == Err(RunError::Read);
        is_reported && self.has_read_failed && !self.has_write_failed
    }

    /// Returns `true` if the run ended with a failed write, and no read has failed.
    pub(crate) fn has_stopped_writing(&self) -> bool {
        let is_reported = self.result == Err(RunError::Write);
        is_reported && !self.has_read_failed && self.has_write_failed
    }

    /// Returns `true` if the run ended because an allocation failed, and no read and no write has failed.
    pub(crate) fn is_out_of_memory(&self) -> bool {
        let is_reported = self.result == Err(RunError::Memory);
        is_reported && !self.has_read_failed && !self.has_write_failed
    }
}

/// Runs the program on the input, with at most so many bytes in one call and in all.
pub(crate) fn outcome_of(
    alloc: Global,
    input: &[u8],
    read: (usize, usize),
    write: (usize, usize),
) -> Outcome {
    let mut reader = Gauge::new(Stepwise::new(input, read));
    let mut writer = Gauge::new(Stepwise::new(Cursor::new([0; 12_000]), write));
    let result = run(alloc, &mut reader, &mut writer);
    let (has_read_failed, has_write_failed) = (reader.failed(), writer.failed());
    let (reader, writer) = (reader.into_inner(), writer.into_inner());
    Outcome {
        result,
        has_read_failed,
        has_write_failed,
        reads: reader.calls,
        writes: writer.calls,
        written: writer.inner,
    }
}

/// Returns `true` if the run ended with `Ok` and wrote exactly this, and no read and no write has failed.
pub(crate) fn gives(outcome: &Outcome, output: &[u8]) -> bool {
    let has_failed = outcome.has_read_failed || outcome.has_write_failed;
    outcome.result == Ok(()) && !has_failed && outcome.text() == output
}

/// Returns `true` if a run makes no call after a gauge had failed, and its error says which one had, the reader's
/// first.
pub(crate) fn leaves_both_alone(
    alloc: Global,
    input: &[u8],
    has_read: bool,
    has_written: bool,
) -> bool {
    let mut reader = Gauge::new(Stepwise::new(input, limits(has_read)));
    let mut writer = Gauge::new(Stepwise::new(Cursor::new([0; 12_000]), limits(has_written)));
    if has_read && reader.read(&mut [0; 4]).is_ok() {
        return false;
    }
    if has_written && writer.write(b"no").is_ok() {
        return false;
    }
    let is_reported = match run(alloc, &mut reader, &mut writer) {
        Err(RunError::Read) => has_read,
        Err(RunError::Write) => !has_read,
        _ => false,
    };
    // No failed call was made again.
    let calls = (reader.into_inner().calls, writer.into_inner().calls);
    is_reported && calls == (usize::from(has_read), usize::from(has_written))
}

/// No bytes if the first call is to fail.
fn limits(fails: bool) -> (usize, usize) {
    if fails { (usize::MAX, 0) } else { WHOLE }
}
