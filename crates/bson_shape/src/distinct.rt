// Whether names are different.
ghost use Rattle.std.specs.Prelude.{◌≡◌, IfOk, map};
ghost use Rattle.bson_shape.specs.Makers.{has_name, has_repeat, repeats, contents_repeat, content_repeats, variants_repeat};
ghost use Rattle.bson_shape.specs.ShapeView.{fields_of, content_of, variants_of};

use crate::{FieldShape, Named, VariantContent, VariantShape};
use std::alloc::{AllocError, Global};
use std::collections::BTreeSet;

/// Below this count of names a scan is as fast as a set.
const FEW: usize = 16;

/// Whether two of these have one name.
///
/// It takes memory for a set of the names. Where that is refused the answer is the same, and takes longer.
fn has_repeated_name<T: Named>(alloc: Global, items: &[T]) -> bool
    ensures { result ≡ has_repeat (map T.named items.now) }
{
    if items.len() < FEW {
        return repeats_by_scan(items);
    }
    match repeats_by_set(alloc, items) {
        Ok(repeats) => repeats,
        Err(_) => repeats_by_scan(items),
    }
}

/// Whether two of these have one name: each name is looked up in a set of those before it, in as many steps as the logarithm of their number, whatever the
/// names are.
fn repeats_by_set<T: Named>(alloc: Global, items: &[T]) -> Result<bool, AllocError>
    ensures { IfOk result (λ b. b ≡ has_repeat (map T.named items.now)) }
{
    let mut names = BTreeSet::new(alloc);
    for item in items {
        if !names.insert(item.name())? {
            return Ok(true);
        }
    }
    Ok(false)
}

/// Whether two of these have one name: each name is compared with all before it.
fn repeats_by_scan<T: Named>(items: &[T]) -> bool
    ensures { result ≡ has_repeat (map T.named items.now) }
{
    for (i, item) in items.iter().enumerate() {
        if has_name(&items[..i], item.name()) {
            return true;
        }
    }
    false
}

/// Whether one of these has the name.
fn has_name<T: Named>(items: &[T], name: &str) -> bool
    ensures { result ≡ has_name name.now (map T.named items.now) }
{
    for item in items {
        if name == item.name() {
            return true;
        }
    }
    false
}

/// Whether two of the fields have one name.
pub fn has_repeated_field(fields: &Vec<FieldShape>) -> bool
    ensures { result ≡ repeats (fields_of fields.now.items) }
{
    has_repeated_name(*fields.allocator(), fields)
}

/// Whether two of the variants have one name, or two fields of one of them.
pub fn has_repeated_variant(variants: &Vec<VariantShape>) -> bool
    ensures { result ≡ variants_repeat (variants_of variants.now.items) }
{
    if has_repeated_name(*variants.allocator(), variants) {
        return true;
    }
    has_repeat_inside(variants)
}

/// Whether two fields of one of the variants have one name.
fn has_repeat_inside(variants: &[VariantShape]) -> bool
    ensures { result ≡ contents_repeat (variants_of variants.now) }
{
    for variant in variants {
        if repeats_inside(&variant.content) {
            return true;
        }
    }
    false
}

/// Whether this is a struct variant of which two fields have one name.
fn repeats_inside(content: &VariantContent) -> bool
    ensures { result ≡ content_repeats (content_of content.now) }
{
    match content {
        VariantContent::Struct(fields) => has_repeated_field(fields),
        VariantContent::Unit | VariantContent::Newtype(_) | VariantContent::Tuple(_) => false,
    }
}
