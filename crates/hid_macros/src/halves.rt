//! The macros of a byte of a number of two, as Windows, STM32, TinyUSB, Arduino, TI and Nordic have
//! them.
use crate::lookup::header_in;
use crate::{Arguments, Macro};

/// The macros, by how far a number is shifted.
static MACROS: [(u8, &str); 12] = [
    (0, "LOBYTE"),
    (8, "HIBYTE"),
    (0, "LSB"),
    (8, "MSB"),
    (0, "TU_U16_LOW"),
    (8, "TU_U16_HIGH"),
    (0, "lowByte"),
    (8, "highByte"),
    (0, "LO_UINT16"),
    (8, "HI_UINT16"),
    (0, "LSB_16"),
    (8, "MSB_16"),
];

/// The macro with this name.
pub fn half_macro(name: &str) -> Option<Macro> {
    let shift = header_in(&MACROS, name)?;
    Some(Macro::of(shift, Arguments::Half))
}
