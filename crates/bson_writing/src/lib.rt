//! What every writer of data needs: why it stops before its end, and the texts of the keys of maps.
#![tactic(auto)]

mod halt;
mod key;

pub use halt::Halt;
pub use key::{written_key, zero_in};
