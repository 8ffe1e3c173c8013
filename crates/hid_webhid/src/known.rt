//! The global items that are in force, and in how many bytes the data of items stand.
use crate::report_item::GLOBALS;
use std::alloc::{AllocError, Global};

/// What no global item has said yet.
const UNSAID: i64 = i64::MIN;

/// The global items that are in force.
#[derive(Drop)]
pub struct Known {
    pub page: u32,
    /// The data of `GLOBALS`, and in how many bytes it stands.
    pub globals: Vec<(i64, usize)>,
}

impl Known {
    /// What is in force before the first item: of bounds, sizes and counts nothing.
    pub fn new(alloc: Global) -> Result<Known, AllocError> {
        let mut globals = Vec::new(alloc);
        for (tag, _name, _least, _most) in &GLOBALS {
            let is_said = matches!(*tag, 0x34 | 0x44 | 0x54 | 0x64);
            globals.push((if is_said { 0 } else { UNSAID }, 0))?;
        }
        Ok(Known { page: 0, globals })
    }

    /// Takes what is in force elsewhere.
    pub fn take(&mut self, other: &Known) -> Result<(), AllocError> {
        self.page = other.page;
        self.globals.clear();
        self.globals.extend_from_slice(&other.globals)
    }
}

/// In how many bytes a number is written that has no sign.
pub fn size_of(number: i64) -> usize {
    match number {
        0..=0xff => 1,
        0x100..=0xffff => 2,
        _ => 4,
    }
}

/// In how many bytes a number with a sign is written.
pub fn signed_size_of(number: i64) -> usize {
    match number {
        -0x80..=0x7f => 1,
        -0x8000..=0x7fff => 2,
        _ => 4,
    }
}

/// How many bytes so many bits are: one, two or four.
pub fn bytes_of(bits: i64) -> usize {
    match bits {
        ..=8 => 1,
        9..=16 => 2,
        _ => 4,
    }
}
