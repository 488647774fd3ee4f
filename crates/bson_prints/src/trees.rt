// A tree that is read at shapes, and the bytes of what is read.
use crate::refusals::add_written;
use bson_base::Bson;
use bson_datum::MAX_NESTING_LEVEL;
use bson_de::read_value;
use bson_lines::Lines;
use bson_met::Met;
use bson_rawdoc::RawDocument;
use bson_rawdoc::raw::Error;
use bson_shape::Shape;
use std::alloc::Global;

/// The document `{n: 1, id: ObjectId, r: /a/ix, c: f with the scope {x: null}, a: [null]}`, whose options are not in order.
const TREE: &[u8] =
    b"D\0\0\0\x10n\0\x01\0\0\0\x07id\0abcdefghijkl\x0br\0a\0xi\0\x0fc\0\x12\0\0\0\x02\0\0\0f\0\x08\0\0\0\x0ax\0\0\x04a\0\x08\0\0\0\x0a0\0\0\0";

/// The document as a tree.
fn tree(alloc: Global) -> Result<Bson, Error> {
    let document = RawDocument::from_bytes(TREE)?;
    Ok(Bson::Document(document.to_document(alloc)?))
}

/// Adds the bytes of what a tree is read as at a shape.
fn add_read(lines: &mut Lines, alloc: Global, shape: &Shape, tree: &Bson) {
    match read_value(alloc, shape, &Met::of_tree(MAX_NESTING_LEVEL, tree)) {
        Ok(datum) => {
            add_written(lines, alloc, &datum);
            drop(datum);
        }
        Err(_) => lines.line("not read"),
    }
}

/// Adds the bytes of what a tree is read as at the shape of a notation.
fn add_at(lines: &mut Lines, alloc: Global, notation: &str, tree: &Bson) {
    match Shape::parse(alloc, notation) {
        Ok(shape) => add_read(lines, alloc, &shape, tree),
        Err(error) => lines.text("no shape", &error),
    }
}

/// Adds the bytes of what a tree is read as at each shape.
fn add_at_each(lines: &mut Lines, alloc: Global, tree: &Bson) {
    add_at(lines, alloc, "{n:i64,id:any,r:any,c:any,a:[?bool]}", tree);
    add_at(lines, alloc, "{n:i32,id:oid,r:regex,c:codews,a:bson}", tree);
    add_at(lines, alloc, "bson", tree);
}

/// A tree that is read at shapes.
pub fn add_trees(lines: &mut Lines, alloc: Global) {
    match tree(alloc) {
        Ok(tree) => {
            add_at_each(lines, alloc, &tree);
            drop(tree);
        }
        Err(fault) => lines.debug("no tree", &fault),
    }
}
