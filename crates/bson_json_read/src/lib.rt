//! Extended JSON, version 2, read: the documents that texts stand for, in the canonical or the relaxed form. Reading is strict.
#![tactic(auto)]

mod numbers;
mod pairs;
mod parse;
mod parts;
mod reading;
mod refused;
mod texts;
mod wrapped;

pub use json::Scratch;
pub use parse::{from_json, parse_json};
