//! A source of which no more than so many bytes are read.
ghost use Rattle.std.specs.Prelude.{◌≡◌, ◌+◌, ◌<◌, ◌≤◌, ◌↔◌, false, length, min, take, IsTrue, IsErr, IfOk, OnErr};
ghost use Rattle.std.specs.Io.KnownBytes.{Consumes, IsAtEnd, Keeps};

use super::{Failed, Source};

/// A source that fails once more bytes were read of it than it may have: an endless input ends so,
/// as one that can't be read.
#[derive(Debug, Drop)]
pub struct Bounded<S> {
    source: S,
    /// How many bytes are still read: one more than it may have.
    allowance: usize,
    has_failed: bool,
}

impl<S: Source> Bounded<S> {
    /// A source of the bytes that `source` has left, which fails behind byte `most` + 1 of them. It
    /// has not failed.
    pub fn new(source: S, most: usize) -> Self
        ensures left { ⟦<Bounded<S> as Source>⟧.left result ≡ S.left source }
        ensures sound { ⟦<Bounded<S> as Source>⟧.has_failed result ≡ false }
        ensures allowance { result.allowance ≡ min (most + 1) usize.MAX }
    {
        Bounded {
            source,
            allowance: most.saturating_add(1),
            has_failed: false,
        }
    }
}

impl<S: Source> Source for Bounded<S> {
    ghost left = { λ s. S.left s.source };

    ghost has_failed = { λ s. s.has_failed };

    /// Once it has failed, the source inside is left alone; and no more is read of that than the
    /// allowance.
    fn read(&mut self, buffer: &mut [u8]) -> Result<usize, Failed>
        ensures within { IfOk result (λ count. count ≤ length buffer.new) }
        ensures bytes { IfOk result (λ count.
            Consumes (S.left self.old.source) (S.left self.new.source) (take count buffer.new)) }
        ensures end { IfOk result (λ count.
            count ≡ 0 → 0 < length buffer.new → IsAtEnd (S.left self.new.source)) }
        ensures kept { OnErr result (Keeps (S.left self.old.source) (S.left self.new.source)) }
        ensures failed { IsErr result ↔ IsTrue self.new.has_failed }
        ensures untouched { IsTrue self.old.has_failed → self.new ≡ self.old }
        ensures spent { IfOk result (λ count. self.new.allowance + count ≡ self.old.allowance) }
    {
        if self.has_failed {
            return Err(Failed);
        }
        if self.allowance == 0 {
            self.has_failed = true;
            return Err(Failed);
        }
        let room = buffer.len().min(self.allowance);
        match self.source.read(&mut buffer[..room]) {
            Ok(count) => {
                self.allowance -= count;
                Ok(count)
            }
            Err(_) => {
                self.has_failed = true;
                Err(Failed)
            }
        }
    }
}
