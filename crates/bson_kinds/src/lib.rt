//! The kinds of BSON values, the struct names that are reserved for some of them, and the words of contracts that every crate uses: texts as their UTF-8 bytes, and steps that may refuse.
#![tactic(auto)]

mod element_type;
mod reserved;
mod text;

pub use element_type::ElementType;
pub use reserved::reserved_kind;
pub use text::begins_with_dollar;
