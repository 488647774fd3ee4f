// Shapes are made, read and printed where there is memory, up to the most levels; and why a notation is refused.
use bson_lines::Lines;
use bson_shape::{FieldShape, Shape, ShapeError, VariantContent, VariantShape};
use std::alloc::{AllocError, Global};

/// A name.
fn name(alloc: Global, name: &str) -> Result<String, ShapeError> {
    Ok(String::from_str(alloc, name)?)
}

/// A map of sequences of options.
fn map(alloc: Global) -> Result<Shape, ShapeError> {
    let option = Shape::option(alloc, Shape::i32())?;
    let sequence = Shape::seq(alloc, option)?;
    Shape::map(alloc, Shape::string(), sequence)
}

/// A newtype of a shape.
fn newtype(alloc: Global, shape: Shape) -> Result<Shape, ShapeError> {
    Shape::newtype(alloc, name(alloc, "N")?, shape)
}

/// A tuple of a shape and a text.
fn tuple(alloc: Global, shape: Shape) -> Result<Shape, ShapeError> {
    Shape::tuple(vec![in alloc; shape, Shape::str()]?)
}

/// A tuple struct of a shape.
fn tuple_struct(alloc: Global, shape: Shape) -> Result<Shape, ShapeError> {
    let items = vec![in alloc; shape]?;
    Shape::tuple_struct(name(alloc, "P")?, items)
}

/// A field with a shape, alone.
fn fields(alloc: Global, name: &str, shape: Shape) -> Result<Vec<FieldShape>, ShapeError> {
    let name = self::name(alloc, name)?;
    Ok(vec![in alloc; FieldShape { name, shape }]?)
}

/// A struct of a shape.
fn structure(alloc: Global, shape: Shape) -> Result<Shape, ShapeError> {
    let fields = fields(alloc, "a", shape)?;
    Shape::structure(name(alloc, "S")?, fields)
}

/// A closed struct of a shape.
fn closed_structure(alloc: Global, shape: Shape) -> Result<Shape, ShapeError> {
    let fields = fields(alloc, "b", shape)?;
    Shape::closed_structure(name(alloc, "C")?, fields)
}

/// The content of a tuple variant of a shape and a unit struct.
fn content(alloc: Global, shape: Shape) -> Result<VariantContent, ShapeError> {
    let unit = Shape::unit_struct(name(alloc, "U")?);
    Ok(VariantContent::Tuple(vec![in alloc; shape, unit]?))
}

/// An enum of one variant.
fn choice(alloc: Global, content: VariantContent) -> Result<Shape, ShapeError> {
    let name = name(alloc, "V")?;
    Shape::enumeration(vec![in alloc; VariantShape { name, content }]?)
}

/// A tuple struct that each of the first makers had a part in.
fn inner(alloc: Global) -> Result<Shape, ShapeError> {
    let shape = newtype(alloc, map(alloc)?)?;
    let shape = tuple(alloc, shape)?;
    tuple_struct(alloc, shape)
}

/// A shape that each maker had a part in.
fn made(alloc: Global) -> Result<Shape, ShapeError> {
    let shape = structure(alloc, inner(alloc)?)?;
    let shape = closed_structure(alloc, shape)?;
    choice(alloc, content(alloc, shape)?)
}

/// A shape of two forms, a mark on each.
fn mode(alloc: Global) -> Result<Shape, ShapeError> {
    let readable = Shape::readable(alloc, Shape::i32())?;
    let compact = Shape::lossy(alloc, Shape::i32())?;
    Shape::mode(alloc, readable, compact)
}

/// A reference to that shape, in a table that has it.
fn referred(alloc: Global) -> Result<Shape, ShapeError> {
    let table = fields(alloc, "a", mode(alloc)?)?;
    Shape::definitions(alloc, table, Shape::reference(name(alloc, "a")?))
}

/// Adds a shape that was made.
fn add_made(lines: &mut Lines, alloc: Global, made: Result<Shape, ShapeError>) {
    match made {
        Ok(shape) => lines.written("made", &shape.print(alloc)),
        Err(error) => lines.debug("not made", &error),
    }
}

/// Notations, each of which is printed as it was read.
const NOTATIONS: [&str; 16] = [
    "i32",
    "{}",
    "[{a:[[string]],b:u8}]",
    "{a:[char:[str:?any]],b:[[string:ignored]]}",
    "(T(),\"\"((),?(str)))",
    "<N=?i32,A,T(i32,str),U(),S{f:i32,g:<A>},E{}>",
    "<\"\",\"a b\"=str,\"é\"(i32),\"$oid\"{\"$oid\":i32}>",
    "[<A,B>:[<>:i32]]",
    "\"\"={a:?N=[\"a b\"!],b:M={}}",
    "\"$oid\"=\"$__bson_private_uuid\"!",
    "{a:bool,b:double,c:char,d:str,e:bytes,f:bytebuf,g:unit,h:i8,i:i16,j:i64,k:u16,l:u32,m:u64}",
    "{a:oid,b:datetime,c:binary,d:timestamp,e:regex,f:codews,g:decimal,h:dbpointer,i:uuid,j:bson}",
    "(document,<N=oid>)",
    "(rawdoc,rawarray,rawbson)",
    "{!a:{!},b:C{!\"!\":i32,c:U!}}",
    "Point{x:i32,y:{z:i32},\"\":i32,\"é\\\"\\\\\":i32}",
];

/// Adds a notation, read and printed.
fn add_parsed(lines: &mut Lines, alloc: Global, text: &str) {
    match Shape::parse(alloc, text) {
        Ok(shape) => lines.written("notation", &shape.print(alloc)),
        Err(error) => lines.debug(text, &error),
    }
}

/// The text of so many sequences in one another.
fn sequences(alloc: Global, levels: usize) -> Result<String, AllocError> {
    let opened = "[".repeat(alloc, levels)?;
    let closed = "]".repeat(alloc, levels)?;
    format!(in alloc; "{opened}i32{closed}")
}

/// Adds a notation of the most levels, read and printed.
fn add_levels(lines: &mut Lines, alloc: Global) {
    match sequences(alloc, 511) {
        Ok(text) => add_parsed(lines, alloc, &text),
        Err(error) => lines.text("no text", &error),
    }
}

/// A shape that each maker had a part in, notations that are read and printed, and one that is refused.
pub fn add_shapes(lines: &mut Lines, alloc: Global) {
    add_made(lines, alloc, made(alloc));
    add_made(lines, alloc, referred(alloc));
    for text in NOTATIONS {
        add_parsed(lines, alloc, text);
    }
    add_levels(lines, alloc);
    add_parsed(lines, alloc, "<A,A>");
}
