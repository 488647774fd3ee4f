//! What raw values are made of: a raw value itself, the bytes of its scalars, what the first key of a document says, and the forms that the value of such a key has. Nothing here reads at a shape.
#![tactic(auto)]

mod body;
mod first_keys;
mod forms;
mod raw_value;
mod refusals;
mod scalars;
mod values;

pub use body::Body;
pub use first_keys::{FirstKey, first_key};
pub use forms::{
    byte_at, decimal_of, document_of, id_given, is_boolean, is_in_int32, number_of, plain_bytes_at,
    text_at, text_of, uint32_at,
};
pub use raw_value::{RawValue, raw_from_element};
pub use refusals::{bad_body, refused};
pub use scalars::{
    append, append_closed, append_text, put_binary, put_boolean, put_code, put_date_time,
    put_db_pointer, put_decimal128, put_double, put_int32, put_int64, put_object_id,
    put_regular_expression, put_string, put_symbol, put_timestamp, set_kind, set_length,
};
pub use values::{body_value, code_value, container_value, scoped_value};
