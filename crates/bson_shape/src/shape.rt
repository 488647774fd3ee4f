ghost use Rattle.std.specs.Prelude.{◌≡◌, ◌≤◌, false, string_bytes};
ghost use Rattle.bson_shape.specs.Form as form;
ghost use Rattle.bson_shape.specs.Levels.{levels, deepest, deepest_part, deepest_variant, deepest_inside, max_shape_levels};
ghost use Rattle.bson_shape.specs.Makers.{IsShape, AreShapes, AreParts, AreVariants, IsContent, StructLevels, Makes, is_text_key, is_unit, are_units, contents_repeat, content_repeats, made_optional, made_lossy, made_human_readable, made_by_mode, made_sequence, made_map, made_tuple, made_tuple_structure, made_newtype, made_structure, made_enumeration, made_definitions};
ghost use Rattle.bson_shape.specs.ShapeView.{fields_of, parts_of, variants_of, content_of, form_view};

use crate::distinct::{has_repeated_field, has_repeated_variant};
use crate::guarded::is_guarded;
use crate::name::is_reserved_newtype;
use crate::{Form, Leaf, ShapeError};
use bson_kinds::reserved_kind;
use std::alloc::Global;
use std::marker::Model;

/// The most levels that a shape may have.
const MAX_LEVELS: u16 = 512;

/// What a value has to look like to be read.
///
/// A shape is made by the makers below alone, so that no struct and no newtype in it has a reserved name, no struct, no
/// struct variant, no enum and no definitions have two fields, variants or definitions of one name, each key of a map is a text, no name of definitions
/// leads back to itself without a step into a value, and it has at most 512 levels. Contracts see a shape as its form.
///
/// What values each leaf takes, and the kind that they are written as, is in the table of docs/SHAPES.md. The name of a maker of a leaf is the word of the notation, but
/// for `byte_buf` (`bytebuf`), `object_id` (`oid`), `date_time` (`datetime`), `code_with_scope` (`codews`), `decimal128` (`decimal`), `db_pointer` (`dbpointer`),
/// `raw_document` (`rawdoc`), `raw_array` (`rawarray`) and `raw_bson` (`rawbson`).
#[cycle(shape)]
#[derive(Debug, Drop)]
pub struct Shape {
    level_count: u16,
    node: Node,
}

#[cycle(shape)]
#[derive(Debug)]
enum Node {
    Leaf(Leaf),
    Option(Box<Shape>),
    Lossy(Box<Shape>),
    Readable(Box<Shape>),
    Seq(Box<Shape>),
    Map(Box<Shape>, Box<Shape>),
    Mode(Box<Shape>, Box<Shape>),
    Tuple(Vec<Shape>),
    TupleStruct(String, Vec<Shape>),
    Newtype(String, Box<Shape>),
    UnitStruct(String),
    Struct(String, Vec<FieldShape>),
    ClosedStruct(String, Vec<FieldShape>),
    Enum(Vec<VariantShape>),
    Reference(String),
    Definitions(Vec<FieldShape>, Box<Shape>),
}

// By hand, so that what drops a shape calls this: a derived drop is repeated at each place where a shape is dropped.
impl Drop for Node {
    #[cycle(shape)]
    fn drop(self) {
        match self {
            Node::Leaf(_) => {}
            Node::Option(_inner)
            | Node::Lossy(_inner)
            | Node::Readable(_inner)
            | Node::Seq(_inner) => {}
            Node::Map(_first, _second) | Node::Mode(_first, _second) => {}
            Node::Tuple(_items) => {}
            Node::TupleStruct(_name, _items) => {}
            Node::Newtype(_name, _inner) => {}
            Node::UnitStruct(_name) | Node::Reference(_name) => {}
            Node::Struct(_name, _fields) => {}
            Node::ClosedStruct(_name, _fields) => {}
            Node::Enum(_variants) => {}
            Node::Definitions(_table, _body) => {}
        }
    }
}

/// A field of a struct, or a definition.
#[cycle(shape)]
#[derive(Debug, Drop, PartialEq)]
pub struct FieldShape {
    /// The key that the field has in a document, or the name by which references find the definition.
    pub name: String,
    /// What its value has to look like.
    pub shape: Shape,
}

/// A variant of an enum.
#[cycle(shape)]
#[derive(Debug, Drop, PartialEq)]
pub struct VariantShape {
    /// The name that tells the variant.
    pub name: String,
    /// What it has beside its name.
    pub content: VariantContent,
}

/// What a variant has beside its name.
#[cycle(shape)]
#[derive(Debug, Drop, PartialEq)]
pub enum VariantContent {
    /// Nothing.
    Unit,
    /// A value of this shape.
    Newtype(Shape),
    /// A tuple of parts of these shapes.
    Tuple(Vec<Shape>),
    /// Fields, in order.
    Struct(Vec<FieldShape>),
}

impl Model for Shape {
    ghost use Rattle.std.specs.Prelude.{◌≡◌};
    ghost use Rattle.bson_shape.specs.Form.{Form};
    ghost use Rattle.bson_shape.specs.Prover.StoredForm.{coded_form};

    ghost Value = { Form };

    ghost coded = { coded_form };

    ghost use Rattle.bson_shape.specs.Levels.{levels};
    ghost use Rattle.bson_shape.specs.Makers.{IsShape};
    ghost use Rattle.bson_shape.specs.ShapeView.{node_view, nodes};

    ghost view = { λ s. node_view s.node };

    ghost invariant = { λ s. (s.level_count ≡ levels (node_view s.node)) × IsShape (node_view s.node) };

    ghost size = { nodes };

    ghost use Rattle.bson_shape.specs.Prover.ShapeFalls.{falls};

    ghost size_decreases = { λ a h. falls a.node };
}

impl Shape {
    /// Any value.
    pub fn any() -> Shape
        ensures form { result ≡ form.leaf Leaf.Any }
    {
        Shape::leaf(Leaf::Any)
    }

    /// Any value, which is passed over.
    pub fn ignored() -> Shape
        ensures form { result ≡ form.leaf Leaf.Ignored }
    {
        Shape::leaf(Leaf::Ignored)
    }

    /// A boolean.
    pub fn bool() -> Shape
        ensures form { result ≡ form.leaf Leaf.Bool }
    {
        Shape::leaf(Leaf::Bool)
    }

    /// A signed number of 32 bits.
    pub fn i32() -> Shape
        ensures form { result ≡ form.leaf Leaf.I32 }
    {
        Shape::leaf(Leaf::I32)
    }

    /// A signed number of 8 bits.
    pub fn i8() -> Shape
        ensures form { result ≡ form.leaf Leaf.I8 }
    {
        Shape::leaf(Leaf::I8)
    }

    /// A signed number of 16 bits.
    pub fn i16() -> Shape
        ensures form { result ≡ form.leaf Leaf.I16 }
    {
        Shape::leaf(Leaf::I16)
    }

    /// A signed number of 64 bits.
    pub fn i64() -> Shape
        ensures form { result ≡ form.leaf Leaf.I64 }
    {
        Shape::leaf(Leaf::I64)
    }

    /// A number of 8 bits.
    pub fn u8() -> Shape
        ensures form { result ≡ form.leaf Leaf.U8 }
    {
        Shape::leaf(Leaf::U8)
    }

    /// A number of 16 bits.
    pub fn u16() -> Shape
        ensures form { result ≡ form.leaf Leaf.U16 }
    {
        Shape::leaf(Leaf::U16)
    }

    /// A number of 32 bits.
    pub fn u32() -> Shape
        ensures form { result ≡ form.leaf Leaf.U32 }
    {
        Shape::leaf(Leaf::U32)
    }

    /// A number of 64 bits.
    pub fn u64() -> Shape
        ensures form { result ≡ form.leaf Leaf.U64 }
    {
        Shape::leaf(Leaf::U64)
    }

    /// A double: a number of 64 bits in binary floating point.
    pub fn double() -> Shape
        ensures form { result ≡ form.leaf Leaf.Double }
    {
        Shape::leaf(Leaf::Double)
    }

    /// A text of one character.
    pub fn char() -> Shape
        ensures form { result ≡ form.leaf Leaf.Char }
    {
        Shape::leaf(Leaf::Char)
    }

    /// A text, borrowed.
    pub fn str() -> Shape
        ensures form { result ≡ form.leaf Leaf.Str }
    {
        Shape::leaf(Leaf::Str)
    }

    /// A text, owned.
    pub fn string() -> Shape
        ensures form { result ≡ form.leaf Leaf.String }
    {
        Shape::leaf(Leaf::String)
    }

    /// A byte string, borrowed.
    pub fn bytes() -> Shape
        ensures form { result ≡ form.leaf Leaf.Bytes }
    {
        Shape::leaf(Leaf::Bytes)
    }

    /// A byte string, owned.
    pub fn byte_buf() -> Shape
        ensures form { result ≡ form.leaf Leaf.ByteBuf }
    {
        Shape::leaf(Leaf::ByteBuf)
    }

    /// No value: null.
    pub fn unit() -> Shape
        ensures form { result ≡ form.leaf Leaf.Unit }
    {
        Shape::leaf(Leaf::Unit)
    }

    /// An ObjectId.
    pub fn object_id() -> Shape
        ensures form { result ≡ form.leaf Leaf.ObjectId }
    {
        Shape::leaf(Leaf::ObjectId)
    }

    /// A time in milliseconds since the start of 1970.
    pub fn date_time() -> Shape
        ensures form { result ≡ form.leaf Leaf.DateTime }
    {
        Shape::leaf(Leaf::DateTime)
    }

    /// A byte string with its subtype.
    pub fn binary() -> Shape
        ensures form { result ≡ form.leaf Leaf.Binary }
    {
        Shape::leaf(Leaf::Binary)
    }

    /// A time in seconds and an increment.
    pub fn timestamp() -> Shape
        ensures form { result ≡ form.leaf Leaf.Timestamp }
    {
        Shape::leaf(Leaf::Timestamp)
    }

    /// A regular expression: a pattern and its options.
    pub fn regex() -> Shape
        ensures form { result ≡ form.leaf Leaf.Regex }
    {
        Shape::leaf(Leaf::Regex)
    }

    /// JavaScript code with a document of its names.
    pub fn code_with_scope() -> Shape
        ensures form { result ≡ form.leaf Leaf.CodeWithScope }
    {
        Shape::leaf(Leaf::CodeWithScope)
    }

    /// A decimal floating point number of 128 bits.
    pub fn decimal128() -> Shape
        ensures form { result ≡ form.leaf Leaf.Decimal128 }
    {
        Shape::leaf(Leaf::Decimal128)
    }

    /// A namespace and an ObjectId.
    pub fn db_pointer() -> Shape
        ensures form { result ≡ form.leaf Leaf.DbPointer }
    {
        Shape::leaf(Leaf::DbPointer)
    }

    /// A UUID: a byte string of subtype 4.
    pub fn uuid() -> Shape
        ensures form { result ≡ form.leaf Leaf.Uuid }
    {
        Shape::leaf(Leaf::Uuid)
    }

    /// Any value, as a tree.
    pub fn bson() -> Shape
        ensures form { result ≡ form.leaf Leaf.Bson }
    {
        Shape::leaf(Leaf::Bson)
    }

    /// A document, as a tree.
    pub fn document() -> Shape
        ensures form { result ≡ form.leaf Leaf.Document }
    {
        Shape::leaf(Leaf::Document)
    }

    /// A document, as its bytes.
    pub fn raw_document() -> Shape
        ensures form { result ≡ form.leaf Leaf.RawDocument }
    {
        Shape::leaf(Leaf::RawDocument)
    }

    /// An array, as its bytes.
    pub fn raw_array() -> Shape
        ensures form { result ≡ form.leaf Leaf.RawArray }
    {
        Shape::leaf(Leaf::RawArray)
    }

    /// Any value, a document or an array as its bytes.
    pub fn raw_bson() -> Shape
        ensures form { result ≡ form.leaf Leaf.RawBson }
    {
        Shape::leaf(Leaf::RawBson)
    }

    /// A shape without inner shapes.
    pub fn leaf(leaf: Leaf) -> Shape
        ensures form { result ≡ form.leaf leaf }
    {
        Shape {
            level_count: 1,
            node: Node::Leaf(leaf),
        }
    }

    /// An option: null, or a value of this shape.
    ///
    /// # Errors
    ///
    /// The first of these that applies: `TooDeep` where the option would have more than 512 levels, `NoMemory` where memory runs out.
    pub fn option(alloc: Global, inner: Shape) -> Result<Shape, ShapeError>
        ensures made { Makes result (made_optional inner) }
    {
        let inner_levels = inner.levels();
        if inner_levels >= MAX_LEVELS {
            return Err(ShapeError::TooDeep);
        }
        Ok(Shape {
            level_count: inner_levels + 1,
            node: Node::Option(Box::new(alloc, inner)?),
        })
    }

    /// A value of this shape, whose texts are mended: U+FFFD stands for each ill-formed sequence.
    ///
    /// # Errors
    ///
    /// The first of these that applies: `TooDeep` where it would have more than 512 levels, `NoMemory` where memory runs out.
    pub fn lossy(alloc: Global, inner: Shape) -> Result<Shape, ShapeError>
        ensures made { Makes result (made_lossy inner) }
    {
        let inner_levels = inner.levels();
        if inner_levels >= MAX_LEVELS {
            return Err(ShapeError::TooDeep);
        }
        Ok(Shape {
            level_count: inner_levels + 1,
            node: Node::Lossy(Box::new(alloc, inner)?),
        })
    }

    /// A value of this shape, of which the readable form is taken where there are two.
    ///
    /// # Errors
    ///
    /// The first of these that applies: `TooDeep` where it would have more than 512 levels, `NoMemory` where memory runs out.
    pub fn readable(alloc: Global, inner: Shape) -> Result<Shape, ShapeError>
        ensures made { Makes result (made_human_readable inner) }
    {
        let inner_levels = inner.levels();
        if inner_levels >= MAX_LEVELS {
            return Err(ShapeError::TooDeep);
        }
        Ok(Shape {
            level_count: inner_levels + 1,
            node: Node::Readable(Box::new(alloc, inner)?),
        })
    }

    /// A sequence whose items have this shape.
    ///
    /// # Errors
    ///
    /// The first of these that applies: `TooDeep` where the sequence would have more than 512 levels, `NoMemory` where memory runs out.
    pub fn seq(alloc: Global, item: Shape) -> Result<Shape, ShapeError>
        ensures made { Makes result (made_sequence item) }
    {
        let item_levels = item.levels();
        if item_levels >= MAX_LEVELS {
            return Err(ShapeError::TooDeep);
        }
        Ok(Shape {
            level_count: item_levels + 1,
            node: Node::Seq(Box::new(alloc, item)?),
        })
    }

    /// A map whose keys and values have these shapes.
    ///
    /// # Errors
    ///
    /// The first of these that applies: `KeyNotText` where the key is neither `str`, `string`, `char` nor an enum whose variants are all units,
    /// `TooDeep` where the map would have more than 512 levels, `NoMemory` where memory runs out.
    pub fn map(alloc: Global, key: Shape, value: Shape) -> Result<Shape, ShapeError>
        ensures made { Makes result (made_map key value) }
    {
        if !is_text_key(&key) {
            return Err(ShapeError::KeyNotText);
        }
        let deeper = key.levels().max(value.levels());
        if deeper >= MAX_LEVELS {
            return Err(ShapeError::TooDeep);
        }
        Ok(Shape {
            level_count: deeper + 1,
            node: Node::Map(Box::new(alloc, key)?, Box::new(alloc, value)?),
        })
    }

    /// A value with two forms, which have these shapes: the readable one, and the compact one.
    ///
    /// # Errors
    ///
    /// The first of these that applies: `TooDeep` where it would have more than 512 levels, `NoMemory` where memory runs out.
    pub fn mode(alloc: Global, readable: Shape, compact: Shape) -> Result<Shape, ShapeError>
        ensures made { Makes result (made_by_mode readable compact) }
    {
        let deeper = readable.levels().max(compact.levels());
        if deeper >= MAX_LEVELS {
            return Err(ShapeError::TooDeep);
        }
        Ok(Shape {
            level_count: deeper + 1,
            node: Node::Mode(Box::new(alloc, readable)?, Box::new(alloc, compact)?),
        })
    }

    /// A tuple of parts of these shapes, in this order.
    ///
    /// # Errors
    ///
    /// `TooDeep` where it would have more than 512 levels.
    pub fn tuple(items: Vec<Shape>) -> Result<Shape, ShapeError>
        ensures made { result ≡ made_tuple (parts_of items.items) }
    {
        let inner_levels = deepest_part(&items);
        if inner_levels >= MAX_LEVELS {
            return Err(ShapeError::TooDeep);
        }
        Ok(Shape {
            level_count: inner_levels + 1,
            node: Node::Tuple(items),
        })
    }

    /// A tuple struct of this name, of parts of these shapes, in this order.
    ///
    /// # Errors
    ///
    /// `TooDeep` where it would have more than 512 levels.
    pub fn tuple_struct(name: String, items: Vec<Shape>) -> Result<Shape, ShapeError>
        ensures made { result ≡ made_tuple_structure (string_bytes name) (parts_of items.items) }
    {
        let inner_levels = deepest_part(&items);
        if inner_levels >= MAX_LEVELS {
            return Err(ShapeError::TooDeep);
        }
        Ok(Shape {
            level_count: inner_levels + 1,
            node: Node::TupleStruct(name, items),
        })
    }

    /// A newtype of this name, whose value has this shape.
    ///
    /// # Errors
    ///
    /// The first of these that applies: `ReservedName` where the name is `$__bson_private_uuid`, `$__bson_private_human_readable` or
    /// `$__bson_private_utf8_lossy`, `TooDeep` where the newtype would have more than 512 levels, `NoMemory` where memory runs out.
    pub fn newtype(alloc: Global, name: String, value: Shape) -> Result<Shape, ShapeError>
        ensures made { Makes result (made_newtype (string_bytes name) value) }
    {
        if is_reserved_newtype(name.as_str()) {
            return Err(ShapeError::ReservedName);
        }
        let value_levels = value.levels();
        if value_levels >= MAX_LEVELS {
            return Err(ShapeError::TooDeep);
        }
        Ok(Shape {
            level_count: value_levels + 1,
            node: Node::Newtype(name, Box::new(alloc, value)?),
        })
    }

    /// A unit struct of this name: its value is null.
    pub fn unit_struct(name: String) -> Shape
        ensures form { result ≡ form.unit_structure (string_bytes name) }
    {
        Shape {
            level_count: 1,
            node: Node::UnitStruct(name),
        }
    }

    /// A struct of this name, with these fields in this order.
    ///
    /// # Errors
    ///
    /// The first of these that applies: `ReservedName` where the name is one of the thirteen reserved names, `RepeatedName` where two fields have one
    /// name, `TooDeep` where the struct would have more than 512 levels.
    pub fn structure(name: String, fields: Vec<FieldShape>) -> Result<Shape, ShapeError>
        ensures made { result ≡ made_structure form.dropped (string_bytes name) (fields_of fields.items) }
    {
        let level_count = struct_levels(&name, &fields)?;
        Ok(Shape {
            level_count,
            node: Node::Struct(name, fields),
        })
    }

    /// A struct of this name, with these fields in this order, that denies unknown fields.
    ///
    /// # Errors
    ///
    /// Those of [`Shape::structure`], under the same conditions.
    pub fn closed_structure(name: String, fields: Vec<FieldShape>) -> Result<Shape, ShapeError>
        ensures made { result ≡ made_structure form.denied (string_bytes name) (fields_of fields.items) }
    {
        let level_count = struct_levels(&name, &fields)?;
        Ok(Shape {
            level_count,
            node: Node::ClosedStruct(name, fields),
        })
    }

    /// An enum with these variants in this order.
    ///
    /// # Errors
    ///
    /// The first of these that applies: `RepeatedName` where two variants have one name, or two fields of one struct variant, `TooDeep` where the
    /// enum would have more than 512 levels.
    pub fn enumeration(variants: Vec<VariantShape>) -> Result<Shape, ShapeError>
        ensures made { result ≡ made_enumeration (variants_of variants.items) }
    {
        if has_repeated_variant(&variants) {
            return Err(ShapeError::RepeatedName);
        }
        let inner_levels = deepest_variant(&variants);
        if inner_levels >= MAX_LEVELS {
            return Err(ShapeError::TooDeep);
        }
        Ok(Shape {
            level_count: inner_levels + 1,
            node: Node::Enum(variants),
        })
    }

    /// A reference: a value of the shape that this name has in the innermost definitions around it.
    pub fn reference(name: String) -> Shape
        ensures form { result ≡ form.reference (string_bytes name) }
    {
        Shape {
            level_count: 1,
            node: Node::Reference(name),
        }
    }

    /// A value of the shape `body`, for whose references, and for those in the table itself, the table has definitions.
    ///
    /// # Errors
    ///
    /// The first of these that applies: `RepeatedName` where two definitions have one name, `Unguarded` where a name leads back to itself without a step
    /// into a value, `TooDeep` where the shape would have more than 512 levels, `NoMemory` where memory runs out. From a name such steps lead to each
    /// reference of its definition that stands behind options, marks, both of two forms and newtypes alone.
    pub fn definitions(
        alloc: Global,
        table: Vec<FieldShape>,
        body: Shape,
    ) -> Result<Shape, ShapeError>
        ensures made { Makes result (made_definitions (fields_of table.items) body) }
    {
        if has_repeated_field(&table) {
            return Err(ShapeError::RepeatedName);
        }
        if !is_guarded(alloc, &table) {
            return Err(ShapeError::Unguarded);
        }
        let deeper = deepest(&table).max(body.levels());
        if deeper >= MAX_LEVELS {
            return Err(ShapeError::TooDeep);
        }
        Ok(Shape {
            level_count: deeper + 1,
            node: Node::Definitions(table, Box::new(alloc, body)?),
        })
    }

    /// The form, to match on.
    pub fn form(&self) -> Form<'_>
        ensures form { form_view result ≡ self.now }
    {
        match &self.node {
            Node::Leaf(leaf) => Form::Leaf(*leaf),
            Node::Option(inner) => Form::Option(inner),
            Node::Lossy(inner) => Form::Lossy(inner),
            Node::Readable(inner) => Form::Readable(inner),
            Node::Seq(item) => Form::Seq(item),
            Node::Map(key, value) => Form::Map(key, value),
            Node::Mode(readable, compact) => Form::Mode(readable, compact),
            Node::Tuple(items) => Form::Tuple(items.as_slice()),
            Node::TupleStruct(name, items) => Form::TupleStruct(name.as_str(), items.as_slice()),
            Node::Newtype(name, inner) => Form::Newtype(name.as_str(), inner),
            Node::UnitStruct(name) => Form::UnitStruct(name.as_str()),
            Node::Struct(name, fields) => Form::Struct(name.as_str(), fields.as_slice()),
            Node::ClosedStruct(name, fields) => {
                Form::ClosedStruct(name.as_str(), fields.as_slice())
            }
            Node::Enum(variants) => Form::Enum(variants.as_slice()),
            Node::Reference(name) => Form::Reference(name.as_str()),
            Node::Definitions(table, body) => Form::Definitions(table.as_slice(), body),
        }
    }

    /// Tells a contract that the makers' conditions hold of the shape. It does nothing.
    pub fn known(&self)
        ensures shape { IsShape self.now }
    {
        let _levels = self.levels();
    }

    /// How many levels the shape has.
    fn levels(&self) -> u16
        ensures levels { result ≡ levels self.now }
        ensures few { result ≤ max_shape_levels }
        ensures shape { IsShape self.now }
    {
        self.level_count
    }
}

/// Whether keys of this shape are texts.
fn is_text_key(key: &Shape) -> bool
    ensures { result ≡ is_text_key key.now }
{
    match key.form() {
        Form::Leaf(leaf) => leaf.is_text(),
        Form::Enum(variants) => are_units(variants),
        _ => false,
    }
}

/// Whether no variant has more than its name.
fn are_units(variants: &[VariantShape]) -> bool
    ensures { result ≡ are_units (variants_of variants.now) }
{
    for variant in variants {
        if !is_unit(&variant.content) {
            return false;
        }
    }
    true
}

/// Whether a variant with this content has its name alone.
fn is_unit(content: &VariantContent) -> bool
    ensures { result ≡ is_unit (content_of content.now) }
{
    matches!(content, VariantContent::Unit)
}

/// The levels of a struct of this name with these fields, or why there is none.
fn struct_levels(name: &String, fields: &Vec<FieldShape>) -> Result<u16, ShapeError>
    ensures { StructLevels result (string_bytes name.now) (fields_of fields.now.items) }
{
    if reserved_kind(name.as_str()).is_some() {
        return Err(ShapeError::ReservedName);
    }
    if has_repeated_field(fields) {
        return Err(ShapeError::RepeatedName);
    }
    let levels = deepest(fields);
    if levels >= MAX_LEVELS {
        return Err(ShapeError::TooDeep);
    }
    Ok(levels + 1)
}

/// The levels of the deepest of the parts, 0 where there is none.
fn deepest_part(parts: &[Shape]) -> u16
    ensures levels { result ≡ deepest_part (parts_of parts.now) }
    ensures few { result ≤ max_shape_levels }
    ensures shapes { AreParts (parts_of parts.now) }
{
    let mut levels = 0;
    for part in parts {
        levels = part.levels().max(levels);
    }
    levels
}

/// The levels of the deepest form in the variants, 0 where there is none.
fn deepest_variant(variants: &[VariantShape]) -> u16
    requires { contents_repeat (variants_of variants.now) ≡ false }
    ensures levels { result ≡ deepest_variant (variants_of variants.now) }
    ensures few { result ≤ max_shape_levels }
    ensures shapes { AreVariants (variants_of variants.now) }
{
    let mut levels = 0;
    for variant in variants {
        levels = deepest_inside(&variant.content).max(levels);
    }
    levels
}

/// The levels of the deepest form in what a variant has, 0 where there is none.
fn deepest_inside(content: &VariantContent) -> u16
    requires { content_repeats (content_of content.now) ≡ false }
    ensures levels { result ≡ deepest_inside (content_of content.now) }
    ensures few { result ≤ max_shape_levels }
    ensures shapes { IsContent (content_of content.now) }
{
    match content {
        VariantContent::Unit => 0,
        VariantContent::Newtype(shape) => shape.levels(),
        VariantContent::Tuple(parts) => deepest_part(parts),
        VariantContent::Struct(fields) => deepest(fields),
    }
}

/// The levels of the deepest of the fields, 0 where there is none.
fn deepest(fields: &[FieldShape]) -> u16
    ensures levels { result ≡ deepest (fields_of fields.now) }
    ensures few { result ≤ max_shape_levels }
    ensures shapes { AreShapes (fields_of fields.now) }
{
    let mut levels = 0;
    for field in fields {
        levels = field.shape.levels().max(levels);
    }
    levels
}
