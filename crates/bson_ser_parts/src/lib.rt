//! Writing a value part by part, without a datum of the whole: a document or an array, a variant with contents, and, field by field of the struct of its reserved
//! name, a value that serde's data model lacks.
#![tactic(auto)]

mod base64_text;
mod container;
mod document;
mod fitting;
mod fronts;
mod owned;
mod pair;
mod place;
mod refusal;
mod value;
mod variant;

pub use document::DocumentWriter;
pub use fronts::begins;
pub use value::ValueWriter;
pub use variant::VariantWriter;
