//! How wide a data item is.
ghost use Rattle.std.specs.Prelude.{◌≡◌, ◌+◌, ◌*◌, ◌<◌, ◌≤◌, ◌^◌, IfErr, IfOk};

use crate::parser::fault::Fault;

/// How many bits an element of a data item has, and how many elements there are
/// (Section 6.2.2.7).
#[derive(Clone, Copy)]
pub(crate) struct Extent {
    pub(crate) size: usize,
    pub(crate) count: usize,
}

/// How many bits so many elements take, unless the report's end passes what can be counted.
pub(crate) fn bits_within(start: usize, size: usize, count: usize) -> Result<usize, Fault>
    ensures fits { IfOk result (λ bits. (bits ≡ size * count) × (start + size * count < 2 ^ 64)) }
    ensures past { IfErr result (λ e. (e ≡ Fault.OutOfBounds) × (2 ^ 64 ≤ start + size * count)) }
{
    let Some(bits) = size.checked_mul(count) else {
        return Err(Fault::OutOfBounds);
    };
    if start.checked_add(bits).is_none() {
        return Err(Fault::OutOfBounds);
    }
    Ok(bits)
}
