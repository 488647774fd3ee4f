//! Extended JSON, version 2: the definitions of both forms, of what their texts stand for and of why some values have no text that is read back, and the laws.
#![tactic(auto)]

mod failure;
mod form;
mod json_fault;
mod laws;
mod levels;
mod text_fault;
mod wrapper;

pub use failure::Failure;
pub use form::JsonForm;
pub use json_fault::JsonFault;
pub use laws::{law_sound_text, law_text_back};
pub use levels::is_within_levels;
pub use text_fault::TextFault;
pub use wrapper::wrapper_of;
