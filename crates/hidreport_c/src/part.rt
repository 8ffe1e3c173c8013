//! Parts of a descriptor, each written as C has it.
ghost use Rattle.std.specs.Prelude.{◌≡◌, ◌+◌, ◌<◌, ◌^◌, ◌++◌, List, length, map};
ghost use Rattle.hidreport_c.specs.Answer.{counted, array_after};

use crate::structs::HidreportAnswer;

/// A part of a descriptor that C has in another form.
pub(crate) trait Part {
    /// The form that C has.
    type InC: Copy;

    /// What C has of a part.
    ghost in_c: { Self → Self.InC };

    /// What C has of this part.
    fn in_c(&self) -> Self::InC
        ensures { result ≡ in_c self.now };
}

/// Writes parts to an array from an index on, as many as there is room for: behind what was
/// written, if as much was listed before them.
pub(crate) fn write_behind<P: Part>(parts: &[P], begun: usize, array: &mut [P::InC])
    requires { begun + length parts.now < 2 ^ 64 }
    ensures { (before old : List P.InC) → length before ≡ begun
        → array.old ≡ array_after before old
        → array.new ≡ array_after (before ++ map P.in_c parts.now) old }
{
    let mut place = begun;
    for part in parts {
        if place < array.len() {
            array[place] = part.in_c();
        }
        place += 1;
    }
}

/// Writes all parts of a list, as many as there is room for.
pub(crate) fn write<P: Part>(parts: &[P], array: &mut [P::InC]) -> HidreportAnswer
    ensures count { result ≡ counted (length parts.now) }
    ensures written { array.new ≡ array_after (map P.in_c parts.now) array.old }
{
    write_behind(parts, 0, array);
    HidreportAnswer::counted(parts.len())
}
