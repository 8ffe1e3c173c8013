//! Where descriptors and reports of `hid` come from: whole inputs in the forms that people have them,
//! and the HID devices of the machine.
//! Licence: MIT (LICENSE).
#![tactic(auto)]

mod machine;
mod nodes;
mod whole;

pub use machine::{MOST_NODES, MachineDevice, folder_of, machine_device, node_meant};
pub use nodes::input_nodes;
pub use whole::{form_of_lines, given_of, text_of};
