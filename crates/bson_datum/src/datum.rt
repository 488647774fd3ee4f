ghost use Rattle.std.specs.Prelude.{◌≡◌};
ghost use Rattle.bson_values.specs.Value.{kind_as, kind_of, newtype_kind, readable_inside, struct_kind};
ghost use Rattle.bson_values.specs.TextView.{text_view};
ghost use Rattle.bson_datum.specs.View.{view};

use crate::raw_arr::RawArr;
use crate::raw_doc::RawDoc;
use bson_base::Double;
use bson_kinds::{ElementType, reserved_kind};
use bson_values::{ByteStr, Text};

/// A field of a struct, with its value.
#[cycle(datum)]
#[derive(Debug, Drop)]
pub struct Field<'a> {
    /// The name of the field.
    pub name: Text<'a>,
    /// Its value.
    pub value: Datum<'a>,
}

/// An entry of a map: a key and its value.
#[cycle(datum)]
#[derive(Debug, Drop)]
pub struct Entry<'a> {
    /// The key.
    pub key: Datum<'a>,
    /// Its value.
    pub value: Datum<'a>,
}

/// A value of serde's data model.
#[cycle(datum)]
#[derive(Debug, Drop)]
pub enum Datum<'a> {
    /// True or false.
    Bool(bool),
    /// A signed number of 8 bits.
    I8(i8),
    /// A signed number of 16 bits.
    I16(i16),
    /// A signed number of 32 bits.
    I32(i32),
    /// A signed number of 64 bits.
    I64(i64),
    /// A number of 8 bits.
    U8(u8),
    /// A number of 16 bits.
    U16(u16),
    /// A number of 32 bits.
    U32(u32),
    /// A number of 64 bits.
    U64(u64),
    /// A floating point number of 64 bits, by its eight bytes.
    Double(Double),
    /// One character.
    Char(char),
    /// A text.
    Str(Text<'a>),
    /// A byte string.
    Bytes(ByteStr<'a>),
    /// No value, where there may be one.
    None,
    /// The value that is there, where there may be none.
    Some(Box<Datum<'a>>),
    /// The value `()`.
    Unit,
    /// A struct without fields.
    UnitStruct {
        /// The name of the struct.
        name: Text<'a>,
    },
    /// A variant of an enum without contents.
    UnitVariant {
        /// The name of the variant.
        variant: Text<'a>,
    },
    /// A struct around one value.
    NewtypeStruct {
        /// The name of the struct.
        name: Text<'a>,
        /// The value in it.
        value: Box<Datum<'a>>,
    },
    /// A variant of an enum around one value.
    NewtypeVariant {
        /// The name of the variant.
        variant: Text<'a>,
        /// The value in it.
        value: Box<Datum<'a>>,
    },
    /// A sequence of values, in order.
    Seq(Vec<Datum<'a>>),
    /// A tuple: values by their positions.
    Tuple(Vec<Datum<'a>>),
    /// A struct with values by their positions.
    TupleStruct {
        /// The name of the struct.
        name: Text<'a>,
        /// Its values, in order.
        items: Vec<Datum<'a>>,
    },
    /// A variant of an enum with values by their positions.
    TupleVariant {
        /// The name of the variant.
        variant: Text<'a>,
        /// Its values, in order.
        items: Vec<Datum<'a>>,
    },
    /// A map: keys with their values, in order.
    Map(Vec<Entry<'a>>),
    /// A struct with a name and fields in order.
    Struct {
        /// The name of the struct.
        name: Text<'a>,
        /// Its fields, in order.
        fields: Vec<Field<'a>>,
    },
    /// A variant of an enum with fields in order.
    StructVariant {
        /// The name of the variant.
        variant: Text<'a>,
        /// Its fields, in order.
        fields: Vec<Field<'a>>,
    },
    /// A document in its bytes, which a writer copies.
    RawDocument(RawDoc<'a>),
    /// An array in its bytes, which a writer copies.
    RawArray(RawArr<'a>),
    /// A value with two forms, of which a reader or writer picks the one of its mode: a value that would ask serde's
    /// `is_human_readable`.
    Mode {
        /// The form for formats that people read.
        readable: Box<Datum<'a>>,
        /// The compact form.
        compact: Box<Datum<'a>>,
    },
}

impl Datum<'_> {
    /// The kind that the value is written as in its compact form.
    pub fn element_type(&self) -> ElementType
        ensures kind { result ≡ kind_of (view self.now) }
    {
        self.element_type_as(false)
    }

    /// The kind that the value is written as: in its readable form, or in its compact one.
    pub fn element_type_as(&self, readable: bool) -> ElementType
        ensures kind { result ≡ kind_as readable (view self.now) }
    {
        match self {
            Datum::Bool(_) => ElementType::Boolean,
            Datum::I8(_) | Datum::I16(_) | Datum::I32(_) | Datum::U8(_) | Datum::U16(_) => {
                ElementType::Int32
            }
            Datum::I64(_) | Datum::U32(_) | Datum::U64(_) => ElementType::Int64,
            Datum::Double(_) => ElementType::Double,
            Datum::Char(_) | Datum::Str(_) | Datum::UnitVariant { .. } => ElementType::String,
            Datum::Bytes(_) => ElementType::Binary,
            Datum::None | Datum::Unit | Datum::UnitStruct { .. } => ElementType::Null,
            Datum::Some(content) => content.element_type_as(readable),
            Datum::NewtypeStruct { name, value } => {
                let content = value.element_type_as(readable_inside(readable, name));
                newtype_kind(name, content)
            }
            Datum::Seq(_) | Datum::Tuple(_) | Datum::TupleStruct { .. } | Datum::RawArray(_) => {
                ElementType::Array
            }
            Datum::Map(_)
            | Datum::NewtypeVariant { .. }
            | Datum::TupleVariant { .. }
            | Datum::StructVariant { .. }
            | Datum::RawDocument(_) => ElementType::EmbeddedDocument,
            Datum::Struct { name, .. } => struct_kind(name),
            Datum::Mode { readable: form, .. } if readable => form.element_type_as(readable),
            Datum::Mode { compact: form, .. } => form.element_type_as(readable),
        }
    }
}

// Whether the content of a newtype of this name is given in its readable form.
fn readable_inside(readable: bool, name: &Text<'_>) -> bool
    ensures { result ≡ readable_inside readable (text_view name.now) }
{
    readable || name.as_str() == "$__bson_private_human_readable"
}

// The kind that a newtype of this name is written as, where its content is written as that kind.
fn newtype_kind(name: &Text<'_>, content: ElementType) -> ElementType
    ensures { result ≡ newtype_kind (text_view name.now) content }
{
    match name.as_str() {
        "$__bson_private_uuid" => ElementType::Binary,
        _ => content,
    }
}

// The kind that a struct of this name is written as.
fn struct_kind(name: &Text<'_>) -> ElementType
    ensures { result ≡ struct_kind (text_view name.now) }
{
    match reserved_kind(name.as_str()) {
        Some(kind) => kind,
        None => ElementType::EmbeddedDocument,
    }
}
