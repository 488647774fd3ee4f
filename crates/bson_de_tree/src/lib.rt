//! Reading a value in memory at a shape.
#![tactic(auto)]

mod deserializer;
mod options;
mod reading;

pub use deserializer::Deserializer;
pub use options::{DeserializerOptions, DeserializerOptionsBuilder};
pub use reading::{
    from_bson_at, from_bson_with_options_at, from_document_at, from_document_with_options_at,
};
