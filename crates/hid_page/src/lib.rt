//! The page of HTML that `hid page` writes: its constant texts, and the blocks of JSON in it.
//! Licence: MIT (LICENSE).
#![tactic(auto)]

mod device_object;
mod field_blocks;
mod item_blocks;
mod left_out;
mod made_bits;
mod page;
mod samples;
mod sheet;
mod shell;

pub use page::Page;
