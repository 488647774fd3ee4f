//! Extended JSON, version 2, written: documents in memory as text in the canonical or the relaxed form.
#![tactic(auto)]

mod checking;
mod dates;
mod doubles;
mod held;
mod leaves;
mod printing;
mod text;

pub use checking::check_text;
pub use text::{append_json, to_json};
