use crate::bson::reserved::{Accepted, unwrap};
use crate::bson::{DateTime, Datum, ElementType, Field, ObjectId, Text, data};
use std::alloc::{AllocError, Global};

/// The value of the document `{_id: ObjectId, at: DateTime}`.
pub fn event<'a>(alloc: Global, id: ObjectId, at: DateTime) -> Result<Datum<'a>, AllocError> {
    let id = Field {
        name: Text::Borrowed("_id"),
        value: data::object_id(alloc, &id.0)?,
    };
    let at = Field {
        name: Text::Borrowed("at"),
        value: data::date_time(alloc, at)?,
    };
    let fields = vec![in alloc; id, at]?;
    Ok(Datum::Struct {
        name: Text::Borrowed("Event"),
        fields,
    })
}

/// The ObjectId of a value that was read at a shape such as `{_id:oid}`.
pub fn id_of(event: &Datum<'_>) -> Option<ObjectId> {
    let Datum::Struct { fields, .. } = event.field("_id")? else {
        return None;
    };
    match unwrap(ElementType::ObjectId, fields)? {
        Accepted::ObjectId(id) => Some(id),
        _ => None,
    }
}
