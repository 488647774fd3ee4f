//! Helpers for the fields of types of one's own: other forms in which numbers, times and ObjectIds are written and read.
#![tactic(auto)]

pub mod bson_datetime_as_rfc3339_string;
mod errors;
pub mod hex_string_as_object_id;
pub mod i64_as_bson_datetime;
mod marks;
mod numbers;
pub mod rfc3339_string_as_bson_datetime;
pub mod timestamp_as_u32;
pub mod u32_as_timestamp;

pub use bson_datetime_as_rfc3339_string::{
    deserialize as deserialize_bson_datetime_from_rfc3339_string,
    serialize as serialize_bson_datetime_as_rfc3339_string,
};
pub use hex_string_as_object_id::{
    deserialize as deserialize_hex_string_from_object_id,
    serialize as serialize_hex_string_as_object_id,
};
pub use i64_as_bson_datetime::{
    deserialize as deserialize_i64_from_bson_datetime, serialize as serialize_i64_as_bson_datetime,
};
pub use marks::{HumanReadable, Utf8LossyDeserialization, law_marks_compare};
pub use numbers::{
    serialize_object_id_as_hex_string, serialize_u32_as_i32, serialize_u32_as_i64,
    serialize_u64_as_i32, serialize_u64_as_i64,
};
pub use rfc3339_string_as_bson_datetime::{
    deserialize as deserialize_rfc3339_string_from_bson_datetime,
    serialize as serialize_rfc3339_string_as_bson_datetime,
};
pub use timestamp_as_u32::{
    deserialize as deserialize_timestamp_from_u32, serialize as serialize_timestamp_as_u32,
};
pub use u32_as_timestamp::{
    deserialize as deserialize_u32_from_timestamp, serialize as serialize_u32_as_timestamp,
};
