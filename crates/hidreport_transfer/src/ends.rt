//! What is read from and written to: each end tells whether it has failed.
ghost use Rattle.std.specs.Prelude.{◌≡◌, ◌<◌, ◌≤◌, ◌↔◌, ℕ, List, Option, Bool, length, take, IsTrue, IsErr, IfOk, OnErr};
ghost use Rattle.std.specs.Io.KnownBytes.{Appends, Consumes, IsAtEnd, Keeps};

mod bounded;
mod reader;
mod writer;

pub use bounded::Bounded;
pub use reader::FromRead;
pub use writer::ToWrite;

/// What a read or a write of a failed end answers.
#[derive(Debug, Clone, Copy, PartialEq)]
pub struct Failed;

/// What bytes are read from, until its end or until it fails.
pub trait Source {
    // The bytes that reads will give from here on, where they are told.
    ghost left: { Self → Option (List ℕ) };

    ghost has_failed: { Self → Bool };

    /// Reads bytes into the front of `buffer`, and answers how many.
    ///
    /// A count of 0, where `buffer` is not empty, says that no byte is left.
    /// Refuses where the source fails or has failed, and it then stays failed.
    fn read(&mut self, buffer: &mut [u8]) -> Result<usize, Failed>
        ensures within { IfOk result (λ count. count ≤ length buffer.new) }
        ensures bytes { IfOk result (λ count.
            Consumes (left self.old) (left self.new) (take count buffer.new)) }
        ensures end { IfOk result (λ count.
            count ≡ 0 → 0 < length buffer.new → IsAtEnd (left self.new)) }
        ensures kept { OnErr result (Keeps (left self.old) (left self.new)) }
        ensures failed { IsErr result ↔ IsTrue (has_failed self.new) }
        ensures stays { IsTrue (has_failed self.old) → IsTrue (has_failed self.new) };
}

/// What bytes are written to, until it fails.
pub trait Sink {
    // The bytes that were written so far, where they are told.
    ghost taken: { Self → Option (List ℕ) };

    ghost has_failed: { Self → Bool };

    /// Writes bytes from the front of `bytes`, and answers how many: one at least, if there are
    /// any.
    ///
    /// Refuses where the sink fails or has failed: it takes no byte then, and stays failed.
    fn write(&mut self, bytes: &[u8]) -> Result<usize, Failed>
        ensures within { IfOk result (λ count. count ≤ length bytes.now) }
        ensures bytes { IfOk result (λ count.
            Appends (taken self.old) (taken self.new) (take count bytes.now)) }
        ensures progress { IfOk result (λ count. 0 < length bytes.now → 0 < count) }
        ensures kept { OnErr result (Keeps (taken self.old) (taken self.new)) }
        ensures failed { IsErr result ↔ IsTrue (has_failed self.new) }
        ensures stays { IsTrue (has_failed self.old) → IsTrue (has_failed self.new) };
}
