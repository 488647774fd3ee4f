// Documents at maps whose keys are texts.
ghost use Rattle.std.specs.Prelude.{◌≡◌, true, IfSome};
ghost use Rattle.bson_kinds.specs.declared.element_type.ElementType.TheVariants as kinds;
ghost use Rattle.bson_rawdoc.specs.DocumentView.{document_bytes};
ghost use Rattle.bson_rawdoc.specs.Node.{inner_node, node_in, nodes_with};
ghost use Rattle.bson_rawdoc.specs.Walk.{walk_elements};
ghost use Rattle.bson_shape.specs.Form as form;
ghost use Rattle.bson_values.specs.Value.{no_entries};
ghost use Rattle.bson_laws.specs.Scopes.{laid};
ghost use Rattle.bson_pass_parts.specs.Free.{takes_keys};
ghost use Rattle.bson_pass_parts.specs.Put.{recast_for, recast_entries, IsPut, ArePairsPut};

use crate::array::recast_next;
use bson_keys::MetKeys;
use bson_kinds::ElementType;
use bson_laws::Reader;
use bson_pass_parts::{MOST_NESTED, close, element_len, put, put_run, takes_keys};
use bson_rawdoc::reading::inside;
use bson_rawdoc::{RawDocument, next_element};
use bson_shape::{Leaf, Shape};

/// The document at a map whose keys are at a leaf, and whose values have this shape.
#[inline(never)]
#[cycle(recast)]
pub(crate) fn recast_map(
    made: &mut Vec<u8>,
    reader: &Reader<'_>,
    key: Leaf,
    shape: &Shape,
    levels: u32,
    document: RawDocument<'_>,
) -> Option<ElementType>
    ensures { IfSome result (IsPut (recast_for reader.now (form.map (form.leaf key) shape.now) levels
        (inner_node levels kinds.EmbeddedDocument (document_bytes document.entry))) made.old.items made.new.items) }
{
    let bytes = document.as_bytes();
    if levels == 0 || !takes_keys(key) || bytes.len() < 5 {
        return None;
    }
    let start = made.len();
    put(made, &[0; 4])?;
    recast_entries(made, reader, key, shape, levels - 1, inside(bytes))?;
    close(made, start)?;
    Some(ElementType::EmbeddedDocument)
}

/// The entries from the elements of a document.
#[cycle(recast)]
fn recast_entries(
    made: &mut Vec<u8>,
    reader: &Reader<'_>,
    key: Leaf,
    shape: &Shape,
    levels: u32,
    elements: &[u8],
) -> Option<()>
    requires keys { takes_keys key ≡ true }
    ensures { IfSome result (λ _. ArePairsPut (recast_entries key (laid reader.now shape.now) no_entries levels (nodes_with (node_in levels) (walk_elements elements.now)))
        made.old.items made.new.items) }
{
    let mut keys = MetKeys::new(*made.allocator());
    let mut from = 0;
    let mut at = 0;
    while let Some(step) = next_element(&elements[at..]) {
        let Ok((element, _)) = step else {
            return None;
        };
        if !keys.add(element.key()) {
            return None;
        }
        from = recast_next(
            made,
            reader,
            shape,
            levels,
            MOST_NESTED,
            elements,
            from,
            at,
            &element,
        )?;
        at += element_len(&elements[at..], &element);
    }
    if !keys.are_different() {
        return None;
    }
    put_run(made, elements, from, at)?;
    Some(())
}
