ghost use Rattle.std.specs.Prelude.{◌≡◌};
ghost use Rattle.bson_raw_parts.specs.RawValueView.{IsBorrowed};

use bson_kinds::ElementType;
use bson_rawdoc::RawElement;
use bson_values::ByteStr;

/// A value as its kind and its bytes, as they stand behind the key of an element.
///
/// Source: bsonspec.org, version 1.1, `element`.
#[derive(Debug, Drop)]
pub struct RawValue<'a> {
    /// The kind.
    pub element_type: ElementType,
    /// The bytes.
    pub bytes: ByteStr<'a>,
}

/// The kind and the bytes of the value of an element, borrowed from the document. The value is not looked at. It takes no memory.
pub fn raw_from_element<'a>(e: &RawElement<'a>) -> RawValue<'a>
    ensures kind { result.element_type ≡ e.now.kind }
    ensures bytes { IsBorrowed result.bytes e.now.value }
{
    RawValue {
        element_type: e.element_type(),
        bytes: ByteStr::Borrowed(e.slice()),
    }
}
