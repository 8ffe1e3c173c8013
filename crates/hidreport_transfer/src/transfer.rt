//! Whole inputs and whole outputs, by loops over single reads and writes.
ghost use Rattle.std.specs.Prelude.{◌≡◌, ◌<◌, ◌↔◌, ℕ, false, length, take, IsTrue, IsOk, IsErr, IsErrOf, IfOk, IfErr, IfSome, OnOk, OnErr};
ghost use Rattle.std.specs.Io.KnownBytes.{Appends, IsAtEnd};

use crate::ends::{Sink, Source};
use crate::fault::RunFault;
use std::alloc::Global;

/// How many bytes a read asks for at most: a descriptor that Linux takes is no longer, so that one
/// read has all of it.
const CHUNK: usize = 4096;

/// The bytes that `source` has left, read to its end.
///
/// Refuses with `Read` exactly where the source has failed afterwards, and else with `OutOfMemory`.
pub fn read_to_end<S: Source>(alloc: Global, source: &mut S) -> Result<Vec<u8>, RunFault>
    ensures all { IfOk result (λ bytes. IfSome (S.left source.old) (λ left. bytes.items ≡ left)) }
    ensures end { OnOk result (IsAtEnd (S.left source.new)) }
    ensures failed { IsErrOf result RunFault.Read ↔ IsTrue (S.has_failed source.new) }
    ensures no_write { ¬ IsErrOf result RunFault.Write }
{
    let mut bytes = Vec::new(alloc);
    let mut buffer = [0u8; CHUNK];
    loop {
        let Ok(count) = source.read(&mut buffer) else {
            return Err(RunFault::Read);
        };
        if count == 0 {
            return Ok(bytes);
        }
        if bytes.extend_from_slice(&buffer[..count]).is_err() {
            return Err(RunFault::OutOfMemory);
        }
    }
}

/// Writes all of `text` to `sink`. Of an empty text it writes nothing, and leaves `sink` as it is.
///
/// Refuses with `Write` where the sink fails or has failed: a beginning of `text` is written then.
pub fn write_all<K: Sink>(sink: &mut K, text: &[u8]) -> Result<(), RunFault>
    ensures all { OnOk result (Appends (K.taken sink.old) (K.taken sink.new) text.now) }
    ensures sound { OnOk result (0 < length text.now → K.has_failed sink.new ≡ false) }
    ensures empty { length text.now ≡ 0 → (IsOk result × (sink.new ≡ sink.old)) }
    ensures part { OnErr result ((count : ℕ) × (count < length text.now)
        × Appends (K.taken sink.old) (K.taken sink.new) (take count text.now)) }
    ensures failed { IsErr result → IsTrue (K.has_failed sink.new) }
    ensures only_write { IfErr result (λ fault. fault ≡ RunFault.Write) }
{
    let mut rest = text;
    while !rest.is_empty() {
        let Ok(count) = sink.write(rest) else {
            return Err(RunFault::Write);
        };
        rest = rest.split_at(count).1;
    }
    Ok(())
}
