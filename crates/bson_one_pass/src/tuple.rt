// Arrays at tuples and tuple structs.
ghost use Rattle.std.specs.Prelude.{IfSome};
ghost use Rattle.bson_kinds.specs.Text.{Utf8};
ghost use Rattle.bson_kinds.specs.declared.element_type.ElementType.TheVariants as kinds;
ghost use Rattle.bson_rawdoc.specs.Node.{inner_node, node_in, nodes_with};
ghost use Rattle.bson_rawdoc.specs.Walk.{walk_elements};
ghost use Rattle.bson_shape.specs.Form.{tuple, tuple_structure};
ghost use Rattle.bson_shape.specs.ShapeView.{parts_of};
ghost use Rattle.bson_laws.specs.Scopes.{laid_parts};
ghost use Rattle.bson_pass_parts.specs.Put.{recast_for, recast_parts, IsPut, AreItemsPut};

use crate::array::{recast_known, recast_misnamed};
use bson_kinds::ElementType;
use bson_laws::Reader;
use bson_pass_parts::{MOST_NESTED, close, named_len, put, put_run, value_under};
use bson_rawdoc::reading::{inside, is_closed};
use bson_shape::Shape;

/// The array in these bytes at a tuple, or at a tuple struct, whose parts have these shapes.
#[inline(never)]
#[cycle(recast)]
pub(crate) fn recast_tuple(
    made: &mut Vec<u8>,
    reader: &Reader<'_>,
    parts: &[Shape],
    levels: u32,
    bytes: &[u8],
) -> Option<ElementType>
    ensures nameless { IfSome result (IsPut (recast_for reader.now (tuple (parts_of parts.now)) levels (inner_node levels kinds.Array bytes.now))
        made.old.items made.new.items) }
    ensures named { (name : Utf8) → IfSome result (IsPut (recast_for reader.now (tuple_structure name (parts_of parts.now)) levels (inner_node levels kinds.Array bytes.now))
        made.old.items made.new.items) }
    ensures met { IfSome result (IsPut (recast_for reader.now (tuple (parts_of parts.now)) levels (node_in levels kinds.Array bytes.now))
        made.old.items made.new.items) }
{
    if levels == 0 || bytes.len() < 5 || !is_closed(bytes) {
        return None;
    }
    let start = made.len();
    put(made, &[0; 4])?;
    recast_parts(made, reader, parts, levels - 1, inside(bytes))?;
    close(made, start)?;
    Some(ElementType::Array)
}

/// The parts from the elements of an array, one each. Further elements stay unread.
#[cycle(recast)]
fn recast_parts(
    made: &mut Vec<u8>,
    reader: &Reader<'_>,
    parts: &[Shape],
    levels: u32,
    elements: &[u8],
) -> Option<()>
    ensures { IfSome result (λ _. AreItemsPut (recast_parts (laid_parts reader.now (parts_of parts.now)) levels 0 (nodes_with (node_in levels) (walk_elements elements.now))) 0
        made.old.items made.new.items) }
{
    let mut digits = itoa::Buffer::new();
    let mut index: u64 = 0;
    let mut from = 0;
    let mut at = 0;
    for part in parts {
        let key = digits.format(index);
        match value_under(&elements[at..], key) {
            Some((kind, value)) => {
                let behind = at + named_len(&elements[at..], kind, key, value);
                from = recast_known(
                    made,
                    reader,
                    part,
                    levels,
                    MOST_NESTED,
                    elements,
                    from,
                    at,
                    key,
                    kind,
                    value,
                )?;
                at = behind;
            }
            None => {
                at = recast_misnamed(made, reader, part, levels, elements, from, at, key)?;
                from = at;
            }
        }
        index = index.checked_add(1)?;
    }
    put_run(made, elements, from, at)?;
    Some(())
}
