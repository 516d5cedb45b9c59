//! Readers and writers that remember that a call failed.
ghost use Rattle.std.specs.Prelude.{◌≡◌, ◌+◌, IfOk, None, OnOk, vec_len};
ghost use Rattle.std.specs.Option.{option_or};
ghost use Rattle.std.specs.Io.{StartsWith, appended_bytes};
ghost use Rattle.std.specs.Io.KnownBytes.{Appends, Consumes, IsAtEnd};
ghost use Rattle.command_lines.specs.WatchedValue.{WatchedValue, failure_of};

use std::io;
use std::io::{ErrorKind, Read, Write};
use std::marker::Model;

/// A reader or writer, and the kind of error of the first call through this one that failed, if one did.
#[derive(Drop)]
pub struct Watched<T> {
    inner: T,
    failure: Option<ErrorKind>,
}

impl<T> Model for Watched<T> {
    ghost Value = { WatchedValue T };

    ghost view = { λ watched. record { inner = watched.inner; failure = watched.failure } };
}

impl<T> Watched<T> {
    /// Returns one through which no call has failed.
    pub fn new(inner: T) -> Watched<T>
        ensures { result ≡ (record { inner = inner; failure = None }) }
    {
        Watched {
            inner,
            failure: None,
        }
    }

    /// Returns the kind of error of the first call that failed, if one did.
    pub fn failure(&self) -> Option<ErrorKind>
        ensures { result ≡ self.now.failure }
    {
        self.failure
    }

    /// Keeps the failure of a call, if none is kept yet.
    fn keep<O>(&mut self, outcome: &io::Result<O>)
        ensures inner { self.new.inner ≡ self.old.inner }
        ensures failure { self.new.failure ≡ option_or self.old.failure (failure_of outcome.now) }
    {
        self.failure = self.failure.or(failure_of(outcome));
    }
}

impl<R: Read> Watched<R> {
    /// Reads to the end.
    pub fn read_to_end(&mut self, bytes: &mut Vec<u8>) -> io::Result<usize>
        ensures count { IfOk result (λ count. vec_len bytes.new ≡ vec_len bytes.old + count) }
        ensures appends { StartsWith bytes.new.items bytes.old.items }
        ensures taken { Consumes (R.remaining self.old.inner) (R.remaining self.new.inner)
            (appended_bytes bytes.old.items bytes.new.items) }
        ensures ended { OnOk result (IsAtEnd (R.remaining self.new.inner)) }
        ensures failure { self.new.failure ≡ option_or self.old.failure (failure_of result) }
    {
        let read = self.inner.read_to_end(bytes);
        self.keep(&read);
        read
    }
}

impl<W: Write> Watched<W> {
    /// Writes all of these bytes.
    pub fn write_all(&mut self, bytes: &[u8]) -> io::Result<()>
        ensures written { OnOk result (Appends (W.contents self.old.inner) (W.contents self.new.inner) bytes.now) }
        ensures failure { self.new.failure ≡ option_or self.old.failure (failure_of result) }
    {
        let written = self.inner.write_all(bytes);
        self.keep(&written);
        written
    }
}

/// The kind of the error, if the call failed.
fn failure_of<T>(outcome: &io::Result<T>) -> Option<ErrorKind>
    ensures { result ≡ failure_of outcome.now }
{
    outcome.as_ref().err().map(io::Error::kind)
}
