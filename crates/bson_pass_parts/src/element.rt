// The value of an element.
ghost use Rattle.std.specs.Prelude.{◌≡◌, IfSome};
ghost use Rattle.bson_rawdoc.specs.Node.{inner_node, node_in, value_node};
ghost use Rattle.bson_rawdoc.specs.ValueView.{raw_value};

use bson_rawdoc::{RawBsonRef, RawElement};

/// The value of an element.
#[inline(always)]
pub fn value_of<'a>(element: &RawElement<'a>, levels: u32) -> Option<RawBsonRef<'a>>
    ensures { IfSome result (λ v. node_in levels element.now.kind element.now.value ≡ value_node (inner_node levels) (raw_value v)) }
{
    match element.value() {
        Ok(value) => Some(value),
        Err(_) => None,
    }
}
