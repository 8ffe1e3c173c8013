//! Structs of Rust.
use crate::part::{MemberPart, ReportPart};

/// What stands before all reports.
pub const HEAD: &str = "\
// Reports of a HID device, written by hid struct. A number is the bits of a report from bit SHIFT
// on, under MASK; of several, the next stands STEP bits behind. More than 64 bits are bytes.
#![allow(dead_code)]

#[inline(always)]
fn get(bytes: &[u8], shift: usize, mask: u64) -> u64 {
    let (first, bit) = (shift / 8, shift % 8);
    let mut value = u64::from(bytes[first]);
    let mut at = 8;
    while at < 64 && mask >> (at - bit) != 0 {
        value |= u64::from(bytes[first + at / 8]) << at;
        at += 8;
    }
    value >>= bit;
    if bit != 0 && mask >> (64 - bit) != 0 {
        value |= u64::from(bytes[first + 8]) << (64 - bit);
    }
    value & mask
}

#[inline(always)]
fn get_signed(bytes: &[u8], shift: usize, mask: u64) -> i64 {
    let sign = (mask >> 1) + 1;
    (get(bytes, shift, mask) ^ sign).wrapping_sub(sign) as i64
}

#[inline(always)]
fn fits(value: u64, mask: u64) -> bool {
    value <= mask
}

#[inline(always)]
fn fits_signed(value: i64, mask: u64) -> bool {
    (value as u64).wrapping_add((mask >> 1) + 1) <= mask
}

/// The bits are 0 before.
#[inline(always)]
fn put(bytes: &mut [u8], shift: usize, mask: u64, value: u64) {
    let (first, bit) = (shift / 8, shift % 8);
    let value = value & mask;
    bytes[first] |= (value << bit) as u8;
    let mut at = 8 - bit;
    while at < 64 && mask >> at != 0 {
        bytes[first + (at + bit) / 8] |= (value >> at) as u8;
        at += 8;
    }
}

fn mask_at(at: usize, bits: usize) -> u64 {
    if bits - at < 8 { 0xff >> (8 - (bits - at)) } else { 0xff }
}

fn get_bytes<const N: usize>(bytes: &[u8], shift: usize, bits: usize) -> [u8; N] {
    core::array::from_fn(|i| get(bytes, shift + 8 * i, mask_at(8 * i, bits)) as u8)
}

fn fits_bytes(from: &[u8], bits: usize) -> bool {
    bits % 8 == 0 || from[bits / 8] >> (bits % 8) == 0
}

fn put_bytes(bytes: &mut [u8], shift: usize, bits: usize, from: &[u8]) {
    for (i, &byte) in from.iter().enumerate() {
        put(bytes, shift + 8 * i, mask_at(8 * i, bits), u64::from(byte));
    }
}
";

/// The text of a report's part.
pub fn report_text(part: ReportPart) -> &'static str {
    match part {
        ReportPart::Open => {
            "#[derive(Clone, Copy, Debug, PartialEq, Eq)]\npub struct $Report {\n"
        }
        ReportPart::Size => "}\n\nimpl $Report {\n    pub const SIZE: usize = $size;\n",
        ReportPart::Id => "    pub const ID: u8 = $id;\n",
        ReportPart::Decode => DECODE,
        ReportPart::IdTest => ID_TEST,
        ReportPart::Values => "        Some(Self {\n",
        ReportPart::Encode => ENCODE,
        ReportPart::Blank => "        let mut bytes = [0; Self::SIZE];\n",
        ReportPart::IdPut => "        bytes[0] = Self::ID;\n",
        ReportPart::End => "        Some(bytes)\n    }\n}\n",
    }
}

const DECODE: &str = "
    /// Reads a report; none where it has too few bytes or another id.
    pub fn decode(bytes: &[u8]) -> Option<Self> {
        let bytes = bytes.get(..Self::SIZE)?;
";

const ID_TEST: &str = "        if bytes[0] != Self::ID {
            return None;
        }
";

const ENCODE: &str = "        })
    }

    /// Writes a report; none where a value doesn't fit.
    pub fn encode(&self) -> Option<[u8; Self::SIZE]> {
";

/// The text of a part of a member that holds a number.
pub fn number_text(part: MemberPart) -> &'static str {
    match part {
        MemberPart::Declared => "    pub $name: $type,\n",
        MemberPart::Places => PLACE,
        MemberPart::Read => READ_NUMBER,
        MemberPart::Checked => CHECK_NUMBER,
        MemberPart::Written => WRITE_NUMBER,
    }
}

const PLACE: &str = "    pub const $NAME_SHIFT: usize = $shift;
    pub const $NAME_MASK: u64 = $mask;
";

const READ_NUMBER: &str = "            $name: \
get$signed(bytes, Self::$NAME_SHIFT, Self::$NAME_MASK) as $type,
";

const CHECK_NUMBER: &str = "        if !fits$signed(self.$name.into(), Self::$NAME_MASK) {
            return None;
        }
";

const WRITE_NUMBER: &str = "        \
put(&mut bytes, Self::$NAME_SHIFT, Self::$NAME_MASK, self.$name as u64);
";

/// The text of a part of a member that holds several numbers.
pub fn numbers_text(part: MemberPart) -> &'static str {
    match part {
        MemberPart::Declared => "    pub $name: [$type; $count],\n",
        MemberPart::Places => PLACES,
        MemberPart::Read => READ_NUMBERS,
        MemberPart::Checked => CHECK_NUMBERS,
        MemberPart::Written => WRITE_NUMBERS,
    }
}

const PLACES: &str = "    pub const $NAME_SHIFT: usize = $shift;
    pub const $NAME_MASK: u64 = $mask;
    pub const $NAME_STEP: usize = $step;
    pub const $NAME_COUNT: usize = $count;
";

const READ_NUMBERS: &str = "            $name: core::array::from_fn(|i| {
                let shift = Self::$NAME_SHIFT + i * Self::$NAME_STEP;
                get$signed(bytes, shift, Self::$NAME_MASK) as $type
            }),
";

const CHECK_NUMBERS: &str = "        \
if !self.$name.iter().all(|&value| fits$signed(value.into(), Self::$NAME_MASK)) {
            return None;
        }
";

const WRITE_NUMBERS: &str = "        for (i, &value) in self.$name.iter().enumerate() {
            let shift = Self::$NAME_SHIFT + i * Self::$NAME_STEP;
            put(&mut bytes, shift, Self::$NAME_MASK, value as u64);
        }
";

/// The text of a part of a member that holds bytes.
pub fn bytes_text(part: MemberPart) -> &'static str {
    match part {
        MemberPart::Declared => "    pub $name: [u8; $bytes],\n",
        MemberPart::Places => BYTES_PLACE,
        MemberPart::Read => READ_BYTES,
        MemberPart::Checked => CHECK_BYTES,
        MemberPart::Written => WRITE_BYTES,
    }
}

const BYTES_PLACE: &str = "    pub const $NAME_SHIFT: usize = $shift;
    pub const $NAME_BITS: usize = $bits;
";

const READ_BYTES: &str = "            \
$name: get_bytes(bytes, Self::$NAME_SHIFT, Self::$NAME_BITS),
";

const CHECK_BYTES: &str = "        if !fits_bytes(&self.$name, Self::$NAME_BITS) {
            return None;
        }
";

const WRITE_BYTES: &str = "        \
put_bytes(&mut bytes, Self::$NAME_SHIFT, Self::$NAME_BITS, &self.$name);
";
