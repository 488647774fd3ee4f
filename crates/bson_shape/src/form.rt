use crate::{FieldShape, Leaf, Shape, VariantShape};

/// The form of a shape, borrowed to match on.
#[derive(Clone, Copy)]
pub enum Form<'a> {
    /// A shape without inner shapes.
    Leaf(Leaf),
    /// An option: the shape of its value.
    Option(&'a Shape),
    /// A lossy shape: the shape of the value whose texts are mended.
    Lossy(&'a Shape),
    /// A readable shape: the shape of the value.
    Readable(&'a Shape),
    /// A sequence: the shape of its items.
    Seq(&'a Shape),
    /// A map: the shape of its keys, and that of its values.
    Map(&'a Shape, &'a Shape),
    /// Two forms of a value: the shape of the readable one, and that of the compact one.
    Mode(&'a Shape, &'a Shape),
    /// A tuple: the shapes of its parts, in order.
    Tuple(&'a [Shape]),
    /// A tuple struct: its name and the shapes of its parts, in order.
    TupleStruct(&'a str, &'a [Shape]),
    /// A newtype: its name and the shape of its value.
    Newtype(&'a str, &'a Shape),
    /// A unit struct: its name.
    UnitStruct(&'a str),
    /// A struct: its name and its fields, in order.
    Struct(&'a str, &'a [FieldShape]),
    /// A struct that denies unknown fields: its name and its fields, in order.
    ClosedStruct(&'a str, &'a [FieldShape]),
    /// An enum: its variants, in order.
    Enum(&'a [VariantShape]),
    /// A reference: the name of its definition.
    Reference(&'a str),
    /// Definitions, in order, and the shape that they are for.
    Definitions(&'a [FieldShape], &'a Shape),
}
