//! The shape that documents have in common.
#![tactic(auto)]

mod add;
mod covered;
mod error;
mod fields;
mod file;
mod inferring;
mod join;
mod laws;
mod names;
mod running;
mod scalar;
mod shape;
mod sound;
mod status;
mod summary;
mod system;

pub use error::InferError;
pub use inferring::infer;
pub use laws::{law_infer_files, law_sound};
pub use running::run_infer;
pub use status::InferStatus;
pub use system::run_infer_here;
