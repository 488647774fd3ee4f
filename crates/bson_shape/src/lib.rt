//! The shapes that documents are read at, and their notation.
#![tactic(auto)]

mod distinct;
mod ends;
mod equality;
mod error;
mod form;
mod group;
mod guarded;
mod leaf;
mod levels;
mod mode;
mod name;
mod named;
mod parse;
mod parser;
mod printer;
mod search;
mod shape;

pub use error::{ParseError, ShapeError};
pub use form::Form;
pub use guarded::{definition, law_guarded};
pub use leaf::Leaf;
pub use named::Named;
pub use parse::law_text;
pub use shape::{FieldShape, Shape, VariantContent, VariantShape};
