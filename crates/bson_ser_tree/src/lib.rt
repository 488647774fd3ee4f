//! Making data into BSON values: whole, or part by part.
#![tactic(auto)]

mod arrays;
mod document;
mod items;
mod levels;
mod maps;
mod options;
mod pairs;
mod raw;
mod scalar;
mod serializer;
mod stopping;
mod structs;
mod value;
mod variants;

pub use arrays::{ArraySerializer, TupleSerializer, TupleStructSerializer};
pub use document::{
    to_bson_at, to_bson_with_options_at, to_document_at, to_document_with_options_at,
};
pub use maps::MapSerializer;
pub use options::{SerializerOptions, SerializerOptionsBuilder};
pub use serializer::Serializer;
pub use structs::StructSerializer;
pub use variants::{StructVariantSerializer, TupleVariantSerializer};
