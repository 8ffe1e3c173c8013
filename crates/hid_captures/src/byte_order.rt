//! The order in which a capture has the bytes of a number.

/// The order of a number's bytes.
#[derive(Clone, Copy, PartialEq)]
pub enum ByteOrder {
    /// The lowest first.
    Little,

    /// The highest first.
    Big,
}

impl ByteOrder {
    /// The number in two bytes from this place on, where they are there.
    pub fn u16_at(self, bytes: &[u8], place: usize) -> Option<u16> {
        let number = *bytes.get(place..)?.first_chunk::<2>()?;
        Some(match self {
            ByteOrder::Little => u16::from_le_bytes(number),
            ByteOrder::Big => u16::from_be_bytes(number),
        })
    }

    /// The number in four bytes from this place on.
    pub fn u32_at(self, bytes: &[u8], place: usize) -> Option<u32> {
        let number = *bytes.get(place..)?.first_chunk::<4>()?;
        Some(match self {
            ByteOrder::Little => u32::from_le_bytes(number),
            ByteOrder::Big => u32::from_be_bytes(number),
        })
    }

    /// The number in eight bytes from this place on.
    pub fn u64_at(self, bytes: &[u8], place: usize) -> Option<u64> {
        let number = *bytes.get(place..)?.first_chunk::<8>()?;
        Some(match self {
            ByteOrder::Little => u64::from_le_bytes(number),
            ByteOrder::Big => u64::from_be_bytes(number),
        })
    }
}
