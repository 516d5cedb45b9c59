//! A reader or writer in memory that takes small steps, and fails.
ghost use Rattle.std.specs.Prelude.{◌≤◌, IfOk};

use std::io;
use std::io::{ErrorKind, Read, Write};

/// A reader or writer in memory that passes at most so many bytes in one call, and fails after so many in all.
#[derive(Drop)]
pub(crate) struct Stepwise<T> {
    pub(crate) inner: T,
    pub(crate) calls: usize,
    most: usize,
    left: usize,
}

impl<T> Stepwise<T> {
    pub(crate) fn new(inner: T, limits: (usize, usize)) -> Stepwise<T> {
        Stepwise {
            inner,
            calls: 0,
            most: limits.0,
            left: limits.1,
        }
    }

    fn room(&mut self, asked: usize) -> io::Result<usize>
        ensures { IfOk result (λ count. count ≤ asked) }
    {
        self.calls = self.calls.saturating_add(1);
        if self.left == 0 {
            return Err(io::Error::from(ErrorKind::Interrupted));
        }
        Ok(asked.min(self.most).min(self.left))
    }
}

impl<R: Read> Read for Stepwise<R> {
    fn read(&mut self, piece: &mut [u8]) -> io::Result<usize> {
        let room = self.room(piece.len())?;
        let count = self.inner.read(&mut piece[..room])?;
        self.left = self.left.saturating_sub(count);
        Ok(count)
    }
}

impl<W: Write> Write for Stepwise<W> {
    fn write(&mut self, piece: &[u8]) -> io::Result<usize> {
        let room = self.room(piece.len())?;
        let count = self.inner.write(&piece[..room])?;
        self.left = self.left.saturating_sub(count);
        Ok(count)
    }

    fn flush(&mut self) -> io::Result<()> {
        self.inner.flush()
    }
}
