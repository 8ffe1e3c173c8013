//! Any of std's readers as a source.
ghost use Rattle.std.specs.Prelude.{◌≡◌, ◌<◌, ◌≤◌, ◌↔◌, false, length, take, IsTrue, IsErr, IfOk, OnErr};
ghost use Rattle.std.specs.Io.KnownBytes.{Consumes, IsAtEnd, Keeps};

use super::{Failed, Source};
use std::io;

/// A reader as a source, which fails at the reader's first error.
#[derive(Debug, Drop)]
pub struct FromRead<R> {
    reader: R,
    has_failed: bool,
}

impl<R: io::Read> FromRead<R> {
    /// A source of the bytes that `reader` has left. It has not failed.
    pub fn new(reader: R) -> Self
        ensures left { ⟦<FromRead<R> as Source>⟧.left result ≡ R.remaining reader }
        ensures sound { ⟦<FromRead<R> as Source>⟧.has_failed result ≡ false }
    {
        FromRead {
            reader,
            has_failed: false,
        }
    }
}

impl<R: io::Read> Source for FromRead<R> {
    ghost left = { λ s. R.remaining s.reader };

    ghost has_failed = { λ s. s.has_failed };

    /// Once the source has failed, the reader is left alone.
    fn read(&mut self, buffer: &mut [u8]) -> Result<usize, Failed>
        ensures within { IfOk result (λ count. count ≤ length buffer.new) }
        ensures bytes { IfOk result (λ count.
            Consumes (R.remaining self.old.reader) (R.remaining self.new.reader)
            (take count buffer.new)) }
        ensures end { IfOk result (λ count.
            count ≡ 0 → 0 < length buffer.new → IsAtEnd (R.remaining self.new.reader)) }
        ensures kept { OnErr result (Keeps (R.remaining self.old.reader)
            (R.remaining self.new.reader)) }
        ensures failed { IsErr result ↔ IsTrue self.new.has_failed }
        ensures untouched { IsTrue self.old.has_failed → self.new ≡ self.old }
    {
        if self.has_failed {
            return Err(Failed);
        }
        match self.reader.read(buffer) {
            Ok(count) => Ok(count),
            Err(_) => {
                self.has_failed = true;
                Err(Failed)
            }
        }
    }
}
