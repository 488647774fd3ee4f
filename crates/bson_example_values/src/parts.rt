use crate::bson::{Bson, Datum, DocumentWriter, Out, Serializer, Steps, Tally, Text, ser};
use std::alloc::Global;

/// The bytes of the document that a person is written as, field by field.
pub fn person_by_fields(alloc: Global, name: &str, age: u8) -> ser::Result<Vec<u8>> {
    let mut steps = Steps::<Tally>::new();
    let mut out = Out::new(alloc);
    let mut person = DocumentWriter::start(&mut out, false, false, &mut steps)?;
    put(&mut person, "name", text(name), &mut steps)?;
    put(&mut person, "age", Datum::U8(age), &mut steps)?;
    person.end(&mut steps)?;
    Ok(out.into_vec())
}

/// Writes a field behind those before it.
fn put(
    person: &mut DocumentWriter<'_>,
    name: &str,
    value: Datum<'_>,
    steps: &mut Steps<Tally>,
) -> ser::Result<()> {
    person.entry(&text(name), &value, steps)
}

/// The same document in memory.
pub fn person_tree_by_fields(alloc: Global, name: &str, age: u8) -> ser::Result<Bson> {
    let mut person = Serializer::new().serialize_struct(alloc);
    person.serialize_field("name", &text(name))?;
    person.serialize_field("age", &Datum::U8(age))?;
    person.end()
}

/// A text as a value, borrowed.
fn text(text: &str) -> Datum<'_> {
    Datum::Str(Text::Borrowed(text))
}
