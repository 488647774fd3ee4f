// The writer of trees: whole values, and values part by part.
use bson_datum::{Datum, Entry};
use bson_growing::push;
use bson_lines::Lines;
use bson_ser_tree::{
    MapSerializer, Serializer, SerializerOptions, to_bson_at, to_bson_with_options_at,
    to_document_at, to_document_with_options_at,
};
use bson_values::Text;
use std::alloc::{AllocError, Global};

/// Options for writers of the compact form.
fn compact() -> SerializerOptions {
    SerializerOptions::builder()
        .human_readable(Some(false))
        .build()
}

/// Adds a value by the calls that take a whole one.
fn add_whole(lines: &mut Lines, alloc: Global, value: &Datum<'_>) {
    let options = SerializerOptions::default();
    lines.debug("options by default", &options);
    lines.debug("options", &compact());
    lines.made("to_bson_at", to_bson_at(alloc, value));
    lines.made(
        "to_bson_with_options_at",
        to_bson_with_options_at(alloc, value, compact()),
    );
    let writer = Serializer::new_with_options(options);
    lines.made("serialize", writer.serialize(alloc, value));
}

/// Adds a value by the calls that make a document.
fn add_documents(lines: &mut Lines, alloc: Global, value: &Datum<'_>) {
    lines.made("to_document_at", to_document_at(alloc, value));
    lines.made(
        "to_document_with_options_at",
        to_document_with_options_at(alloc, value, compact()),
    );
}

/// The map that stands for an ObjectId.
fn object_id<'x>(alloc: Global) -> Result<Datum<'x>, AllocError> {
    let key = Datum::Str(Text::Borrowed("$oid"));
    let value = Datum::Str(Text::Borrowed("507f1f77bcf86cd799439011"));
    let mut entries = Vec::new(alloc);
    push(&mut entries, Entry { key, value })?;
    Ok(Datum::Map(entries))
}

/// Adds a map that is folded.
fn add_folded(lines: &mut Lines, alloc: Global) {
    match object_id(alloc) {
        Ok(map) => {
            lines.made("folded", to_bson_at(alloc, &map));
            drop(map);
        }
        Err(error) => lines.text("no map", &error),
    }
}

/// Adds a sequence of a value.
fn add_sequence(lines: &mut Lines, alloc: Global, value: &Datum<'_>) {
    let mut writer = Serializer::new().serialize_seq(alloc);
    lines.made("element of a sequence", writer.serialize_element(value));
    lines.made("end", writer.end());
}

/// Adds a tuple of a value.
fn add_tuple(lines: &mut Lines, alloc: Global, value: &Datum<'_>) {
    let mut writer = Serializer::new().serialize_tuple(alloc);
    lines.made("element of a tuple", writer.serialize_element(value));
    lines.made("end", writer.end());
}

/// Adds a tuple struct of a value.
fn add_tuple_struct(lines: &mut Lines, alloc: Global, value: &Datum<'_>) {
    let mut writer = Serializer::new().serialize_tuple_struct(alloc);
    lines.made("field of a tuple struct", writer.serialize_field(value));
    lines.made("end", writer.end());
}

/// Adds a struct of a value.
fn add_structure(lines: &mut Lines, alloc: Global, value: &Datum<'_>) {
    let mut writer = Serializer::new().serialize_struct(alloc);
    lines.made("field of a struct", writer.serialize_field("a", value));
    lines.made("end", writer.end());
}

/// Adds a tuple variant of a value.
fn add_tuple_variant(lines: &mut Lines, alloc: Global, value: &Datum<'_>) {
    match Serializer::new().serialize_tuple_variant(alloc, "a") {
        Ok(mut writer) => {
            lines.made("field of a tuple variant", writer.serialize_field(value));
            lines.made("end", writer.end());
        }
        Err(error) => lines.text("no tuple variant", &error),
    }
}

/// Adds a struct variant of a value.
fn add_struct_variant(lines: &mut Lines, alloc: Global, value: &Datum<'_>) {
    match Serializer::new().serialize_struct_variant(alloc, "a") {
        Ok(mut writer) => {
            lines.made(
                "field of a struct variant",
                writer.serialize_field("a", value),
            );
            lines.made("end", writer.end());
        }
        Err(error) => lines.text("no struct variant", &error),
    }
}

/// Adds the answer to a key.
fn add_key(lines: &mut Lines, writer: &mut MapSerializer, key: &Datum<'_>) {
    lines.made("key of a map", writer.serialize_key(key));
}

/// Adds the answer to the key `a`.
fn add_text_key(lines: &mut Lines, writer: &mut MapSerializer) {
    let key = Datum::Str(Text::Borrowed("a"));
    add_key(lines, writer, &key);
    drop(key);
}

/// Adds a map of a value under the key `a`.
fn add_map(lines: &mut Lines, alloc: Global, value: &Datum<'_>) {
    let mut writer = Serializer::new().serialize_map(alloc);
    add_text_key(lines, &mut writer);
    lines.made("value of a map", writer.serialize_value(value));
    lines.made("end", writer.end());
}

/// Adds a map of a value that was given no key, and of a key that is given no value.
fn add_map_without_keys(lines: &mut Lines, alloc: Global, value: &Datum<'_>) {
    let mut writer = Serializer::new().serialize_map(alloc);
    lines.made("value of a map", writer.serialize_value(value));
    add_text_key(lines, &mut writer);
    lines.made("end", writer.end());
}

/// Adds a map with a value for its key.
fn add_map_of_key(lines: &mut Lines, alloc: Global, key: &Datum<'_>) {
    let mut writer = Serializer::new().serialize_map(alloc);
    add_key(lines, &mut writer, key);
    lines.made("end", writer.end());
}

/// Adds a value by each call.
fn add_value(lines: &mut Lines, alloc: Global, value: &Datum<'_>) {
    add_whole(lines, alloc, value);
    add_documents(lines, alloc, value);
    add_sequence(lines, alloc, value);
    add_tuple(lines, alloc, value);
    add_tuple_struct(lines, alloc, value);
    add_structure(lines, alloc, value);
    add_tuple_variant(lines, alloc, value);
    add_struct_variant(lines, alloc, value);
    add_map(lines, alloc, value);
    add_map_without_keys(lines, alloc, value);
    add_map_of_key(lines, alloc, value);
}

/// A number by each call, and a map that is folded.
pub fn add_trees(lines: &mut Lines, alloc: Global) {
    let value = Datum::I32(5);
    add_value(lines, alloc, &value);
    drop(value);
    add_folded(lines, alloc);
}
