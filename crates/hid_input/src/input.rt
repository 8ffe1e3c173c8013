//! What is read: descriptors and reports, in the forms that people have them.

mod named;
mod stream;

pub use named::{
    bytes_named, descriptor_named, descriptors_named, given_beside, is_node, node_named,
    reports_named, text_named,
};
pub use stream::Stream;
