// The names of the crate `bson` that the examples import, from the crates that it has them of.
pub use bson_base::Document;
pub use bson_datum::{Datum, Field};
pub use bson_de_raw::from_slice_at;
pub use bson_de_tree::from_document_at;
pub use bson_migrate_run::{MigrateError, lines_of, migrate};
pub use bson_rawdoc::{RawBsonRef, RawDocument, RawDocuments, raw};
pub use bson_recasting::{RecastError, recast};
pub use bson_ser_stream::to_vec_at;
pub use bson_ser_tree::to_document_at;
pub use bson_shape::{ParseError, Shape};
pub use bson_values::{Segment, Text, de, ser};
