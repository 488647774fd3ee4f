ghost use Rattle.std.specs.Prelude.{IsOk, OnOk};
ghost use Rattle.bson_rawdoc.specs.Envelope.{envelope};

use crate::bson::{RawBsonRef, RawDocument, raw};

/// The sum of the prices in the bytes of a document such as `{bread: 3, milk: 2}`.
pub fn total(bytes: &[u8]) -> Result<i64, raw::Error>
    ensures document { OnOk result (IsOk (envelope bytes.now)) }
{
    let document = RawDocument::from_bytes(bytes)?;
    let mut total: i64 = 0;
    for element in document.iter_elements() {
        match element?.value()? {
            RawBsonRef::Int32(price) => total = total.saturating_add(i64::from(price)),
            RawBsonRef::Int64(price) => total = total.saturating_add(price),
            _ => {}
        }
    }
    Ok(total)
}
