//! Writing data as the bytes of a document, in one pass.
#![tactic(auto)]

mod base64_text;
mod binary;
mod container;
mod document;
mod element;
mod extended;
mod part;
mod raw;
mod reserved;
mod scalar;
mod sorting;
mod value;

pub use container::Container;
pub use document::{to_buf, to_vec_at, to_vec_counted};
pub use element::begin_element;
pub use part::{put_map_entry, put_struct_field};
pub use value::{put_item, put_reserved, put_value};
