// The names of the crate `bson` that the examples import, from the crates that it has them of.
pub use bson_base::{Bson, DateTime, Document, EncodeError, ObjectId};
pub use bson_datum::{Datum, Field};
pub use bson_de_raw::from_slice_at;
pub use bson_io::{Out, Steps, Tally};
pub use bson_kinds::ElementType;
pub use bson_rawdoc::{RawDocument, raw};
pub use bson_reserved as reserved;
pub use bson_ser_parts::DocumentWriter;
pub use bson_ser_stream::to_vec_at;
pub use bson_ser_tree::Serializer;
pub use bson_shape::Shape;
pub use bson_values::{Text, ser};
pub use bson_wrapped::data;
