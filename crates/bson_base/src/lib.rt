//! BSON values: their kinds, the tree that a document is and its bytes, and values and documents that own their contents.
#![tactic(auto)]

mod binary;
mod bson;
mod code_with_scope;
mod date_time;
mod db_pointer;
mod decimal128;
mod document;
mod double;
mod encoding;
mod equality;
mod folding;
mod forms;
mod iter;
mod limits;
mod object_id;
mod opening;
mod parsing;
mod regex;
mod texts;
mod timestamp;
mod unique_id;

pub use binary::{Binary, BinarySubtype};
pub use bson::Bson;
pub use bson_dates::DateError;
pub use bson_key_map::KeySeed;
pub use code_with_scope::JavaScriptCodeWithScope;
pub use date_time::{DateTime, NotDate};
pub use db_pointer::DbPointer;
pub use decimal128::Decimal128;
pub use document::Document;
pub use double::Double;
pub use encoding::EncodeError;
pub use folding::law_opened_folds;
pub use iter::{IntoIter, Iter, Keys};
pub use limits::{MAX_BINARY, MAX_NESTING_LEVEL};
pub use object_id::{NotHex, ObjectId};
pub use parsing::{integer_of_text, subtype_of_text};
pub use regex::Regex;
pub use texts::{base64_text, digits, has_zero, number_text};
pub use timestamp::Timestamp;
pub use unique_id::{NotUuid, Uuid};
