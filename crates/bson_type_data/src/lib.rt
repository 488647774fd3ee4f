//! What the values of types are as data, and what a datum gives: numbers, texts, the values of the kinds that serde's data model lacks, and trees in memory.
#![tactic(auto)]

mod binary;
mod data;
mod extended;
mod inside;
mod known;
mod refusal;
mod sixteen;
mod structs;
mod texts;
mod tree_data;
mod tree_inside;

pub use binary::{binary_of, borrowed_binary};
pub use extended::{date_datum, date_in, id_datum, id_in, stamp_datum, stamp_of};
pub use inside::{
    bool_in, char_in, double_in, i8_in, i16_in, i32_in, i64_in, u8_in, u16_in, u32_in, u64_in,
};
pub use known::{known_eight, known_sixteen, known_text, known_twelve};
pub use refusal::{not_fitting, refuse};
pub use sixteen::{decimal_datum, decimal_in, uuid_in, uuid_value};
pub use structs::{pointer_datum, pointer_of, regex_datum, regex_of};
pub use texts::string_of;
pub use tree_data::{document_datum, scoped_datum, tree_datum};
pub use tree_inside::{document_in, scoped_in, tree_in};
