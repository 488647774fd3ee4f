//! What values of serde's data model are, the texts and byte strings in them, and why one is refused: paths, causes, and the errors of readers and writers with their printed texts.
#![tactic(auto)]

mod byte_str;
mod cause;
mod copies;
pub mod de;
mod equality;
mod path;
pub mod ser;
mod stop;
mod text;
mod wrapper;

pub use byte_str::ByteStr;
pub use cause::Cause;
pub use path::{Path, Segment};
pub use stop::{Refused, Stop};
pub use text::Text;
pub use wrapper::Wrapper;
