// A tree that is read at a shape by each call that reads one.
use bson_base::{Bson, Document};
use bson_datum::Datum;
use bson_de_tree::{
    Deserializer, DeserializerOptions, from_bson_at, from_bson_with_options_at, from_document_at,
    from_document_with_options_at,
};
use bson_lines::Lines;
use bson_shape::Shape;
use bson_types::from_slice;
use bson_values::de;
use std::alloc::Global;

/// The document `{i: 1}`.
const ONE: &[u8] = b"\x0c\0\0\0\x10i\0\x01\0\0\0\0";

/// The document in memory.
fn document(alloc: Global) -> de::Result<Document> {
    from_slice(alloc, ONE)
}

/// The same as a value of any kind.
fn tree(alloc: Global) -> de::Result<Bson> {
    from_slice(alloc, ONE)
}

/// What a reader of one value reads.
fn deserialized<'x>(alloc: Global, shape: &Shape) -> de::Result<Datum<'x>> {
    Deserializer::new(tree(alloc)?).deserialize(alloc, shape)
}

/// What is read of a value.
fn of_tree<'x>(alloc: Global, shape: &Shape) -> de::Result<Datum<'x>> {
    from_bson_at(alloc, shape, tree(alloc)?)
}

/// The same by the options of a reader.
fn of_tree_with<'x>(
    alloc: Global,
    shape: &Shape,
    options: DeserializerOptions,
) -> de::Result<Datum<'x>> {
    from_bson_with_options_at(alloc, shape, tree(alloc)?, options)
}

/// What is read of a document.
fn of_document<'x>(alloc: Global, shape: &Shape) -> de::Result<Datum<'x>> {
    from_document_at(alloc, shape, document(alloc)?)
}

/// The same by the options of a reader.
fn of_document_with<'x>(
    alloc: Global,
    shape: &Shape,
    options: DeserializerOptions,
) -> de::Result<Datum<'x>> {
    from_document_with_options_at(alloc, shape, document(alloc)?, options)
}

/// Adds what each call reads at a shape for the reader of options.
fn add_by(lines: &mut Lines, alloc: Global, shape: &Shape, options: DeserializerOptions) {
    let read = of_tree_with(alloc, shape, options);
    lines.made("from_bson_with_options_at", read);
    let read = of_document_with(alloc, shape, options);
    lines.made("from_document_with_options_at", read);
}

/// Adds what each call reads at a shape.
fn add_each(lines: &mut Lines, alloc: Global, shape: &Shape) {
    lines.made("deserialize", deserialized(alloc, shape));
    lines.made("from_bson_at", of_tree(alloc, shape));
    lines.made("from_document_at", of_document(alloc, shape));
    add_by(lines, alloc, shape, DeserializerOptions::default());
}

/// A document with one field, as each call reads it.
pub fn add_trees(lines: &mut Lines, alloc: Global) {
    match Shape::parse(alloc, "{i:i32}") {
        Ok(shape) => add_each(lines, alloc, &shape),
        Err(error) => lines.text("no shape", &error),
    }
}
