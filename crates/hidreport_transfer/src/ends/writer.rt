//! Any of std's writers as a sink.
ghost use Rattle.std.specs.Prelude.{◌≡◌, ◌<◌, ◌≤◌, ◌↔◌, false, length, take, IsTrue, IsErr, IfOk, OnErr};
ghost use Rattle.std.specs.Io.KnownBytes.{Appends, Keeps};

use super::{Failed, Sink};
use std::io;

/// A writer as a sink, which fails at the writer's first error.
///
/// A write of bytes that takes none is such an error too.
#[derive(Debug, Drop)]
pub struct ToWrite<W> {
    writer: W,
    has_failed: bool,
}

impl<W: io::Write> ToWrite<W> {
    /// A sink that writes to `writer`. It has not failed.
    pub fn new(writer: W) -> Self
        ensures taken { ⟦<ToWrite<W> as Sink>⟧.taken result ≡ W.contents writer }
        ensures sound { ⟦<ToWrite<W> as Sink>⟧.has_failed result ≡ false }
    {
        ToWrite {
            writer,
            has_failed: false,
        }
    }
}

impl<W: io::Write> Sink for ToWrite<W> {
    ghost taken = { λ s. W.contents s.writer };

    ghost has_failed = { λ s. s.has_failed };

    /// Once the sink has failed, the writer is left alone.
    fn write(&mut self, bytes: &[u8]) -> Result<usize, Failed>
        ensures within { IfOk result (λ count. count ≤ length bytes.now) }
        ensures bytes { IfOk result (λ count.
            Appends (W.contents self.old.writer) (W.contents self.new.writer)
            (take count bytes.now)) }
        ensures progress { IfOk result (λ count. 0 < length bytes.now → 0 < count) }
        ensures kept { OnErr result (Keeps (W.contents self.old.writer)
            (W.contents self.new.writer)) }
        ensures failed { IsErr result ↔ IsTrue self.new.has_failed }
        ensures untouched { IsTrue self.old.has_failed → self.new ≡ self.old }
    {
        if self.has_failed {
            return Err(Failed);
        }
        match self.writer.write(bytes) {
            Ok(count) if count > 0 || bytes.is_empty() => Ok(count),
            _ => {
                self.has_failed = true;
                Err(Failed)
            }
        }
    }
}
