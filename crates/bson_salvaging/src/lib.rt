//! Files of documents with damage in them: what is saved are whole documents, and each stretch of bytes that is left out is told.
#![tactic(auto)]

mod finding;
mod laws;
mod looking;
mod salvaging;
mod stepping;
mod window;

pub use laws::law_undamaged;
pub use salvaging::salvage;
