//! The pairs of a document: a key and a value each, in order, no key twice.
#![tactic(auto)]

mod key_map;
mod key_seed;
mod key_table;
mod pair;

pub use key_map::KeyMap;
pub use key_seed::KeySeed;
pub use pair::Pair;
