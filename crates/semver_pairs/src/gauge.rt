//! Readers and writers that record whether a call has failed.
ghost use Rattle.std.specs.Prelude.{◌≡◌, ◌↔◌, false, IsTrue, IsErr};
ghost use Rattle.std.specs.Io.{ReadsAtMost, WritesAtMost};
ghost use Rattle.std.specs.Io.KnownBytes.{ReadConsumes, WriteAppends};
ghost use Rattle.semver_pairs.specs.GaugeValue.{GaugeValue, HasFailed, HasReportedEnd, IsEnd, IsFailedWrite};

use std::io;
use std::io::{Read, Write};
use std::marker::Model;

/// A reader or writer, with two marks: whether a call through it has failed, and whether the last read reported the
/// end.
///
/// Only `read` and `write` set the first mark, exactly if they fail. Neither can be called after that.
///
/// # Memory
///
/// No method allocates.
#[derive(Drop)]
pub struct Gauge<T> {
    inner: T,
    failed: bool,
    ended: bool,
}

impl<T> Model for Gauge<T> {
    ghost Value = { GaugeValue T };

    ghost view = { λ gauge. record { inner = gauge.inner; failed = gauge.failed; ended = gauge.ended } };
}

impl<T> Gauge<T> {
    /// Returns a gauge through which no call has failed.
    ///
    /// # Examples
    ///
    /// `Gauge::new(reader).failed()` is false, even if the next read will fail.
    pub fn new(inner: T) -> Gauge<T>
        ensures held { result.inner ≡ inner }
        ensures unfailed { ¬ HasFailed result }
        ensures unread { ¬ HasReportedEnd result }
    {
        Gauge {
            inner,
            failed: false,
            ended: false,
        }
    }

    /// Returns the reader or writer.
    ///
    /// The marks are lost: a new gauge of the same reader has not failed.
    ///
    /// # Examples
    ///
    /// `Gauge::new(writer).into_inner()` is `writer`.
    pub fn into_inner(self) -> T
        ensures { result ≡ self.inner }
    {
        let Gauge {
            inner,
            failed: _,
            ended: _,
        } = self;
        inner
    }

    /// Returns `true` if a call through the gauge has failed.
    ///
    /// # Examples
    ///
    /// `false` for a new gauge. `true` after a read that returned an error.
    pub fn failed(&self) -> bool
        ensures { IsTrue result ↔ HasFailed self.now }
    {
        self.failed
    }
}

impl<R: Read> Gauge<R> {
    /// Calls `read` of the reader once.
    ///
    /// The gauge must not have failed. If the piece has room and `Ok(0)` is returned, the end of the input is reached.
    ///
    /// # Errors
    ///
    /// Returns the error of the reader. The gauge has then failed.
    ///
    /// # Examples
    ///
    /// Into a piece of four bytes, from a reader that holds `yes`: `Ok(3)`, then `Ok(0)`. The gauge has not failed.
    pub fn read(&mut self, piece: &mut [u8]) -> io::Result<usize>
        requires { ¬ HasFailed self.old }
        ensures at_most { ReadsAtMost result piece.new }
        ensures bytes { ReadConsumes (R.remaining self.old.inner) (R.remaining self.new.inner)
            result piece.new }
        ensures mark { HasFailed self.new ↔ IsErr result }
        ensures end { HasReportedEnd self.new ↔ IsEnd piece.new result }
    {
        let result = self.inner.read(piece);
        self.failed = result.is_err();
        self.ended = is_end(&result, piece);
        result
    }
}

impl<W: Write> Gauge<W> {
    /// Calls `write` of the writer once.
    ///
    /// The gauge must not have failed. `Ok(0)` counts as a failure too, unless the piece is empty.
    ///
    /// # Errors
    ///
    /// Returns the error of the writer. The gauge has then failed.
    ///
    /// # Examples
    ///
    /// To a writer with room for two bytes: `yes` gives `Ok(2)`, then `s` gives `Ok(0)`, and the gauge has failed.
    pub fn write(&mut self, piece: &[u8]) -> io::Result<usize>
        requires { ¬ HasFailed self.old }
        ensures at_most { WritesAtMost result piece.now }
        ensures bytes { WriteAppends (W.contents self.old.inner) (W.contents self.new.inner)
            result piece.now }
        ensures mark { HasFailed self.new ↔ IsFailedWrite piece.now result }
    {
        let result = self.inner.write(piece);
        self.failed = is_failure(&result, piece);
        result
    }
}

/// Returns `true` if the read into a piece reported the end.
fn is_end(answer: &io::Result<usize>, piece: &[u8]) -> bool
    ensures { IsTrue result ↔ IsEnd piece.now answer.now }
{
    matches!(answer, Ok(0)) && !piece.is_empty()
}

/// Returns `true` if the write of a piece has failed.
fn is_failure(answer: &io::Result<usize>, piece: &[u8]) -> bool
    ensures { IsTrue result ↔ IsFailedWrite piece.now answer.now }
{
    match answer {
        Ok(0) => !piece.is_empty(),
        Ok(_) => false,
        Err(_) => true,
    }
}
