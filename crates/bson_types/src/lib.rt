//! Types whose values are written as the bytes of documents and read from them, and the law that what was written is read back.
#![tactic(auto)]

mod law;
mod reading;
mod sources;
mod writing;

pub use bson_traits::{Deserialize, EqualByContents, NeverNull, RoundTrip, Serialize, not_fitting};
pub use law::{law_round_trip, law_round_trip_equal};
pub use reading::{from_slice, from_slice_utf8_lossy};
pub use sources::{from_reader, from_reader_utf8_lossy};
pub use writing::{to_raw_document_buf, to_vec};
