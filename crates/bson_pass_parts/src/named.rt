// Elements whose keys are known before they are read: their bytes are compared with the name, and no key is looked for.
ghost use Rattle.std.specs.Prelude.{◌≡◌, ◌+◌, ◌<◌, ◌++◌, ◌∷◌, [], Some, true, length, drop, IsTrue, IfSome};
ghost use Rattle.std.specs.Str.{is_utf8};
ghost use Rattle.bson_kinds.specs.Kind.{byte};
ghost use Rattle.bson_rawdoc.specs.Extent.{cut_at_zero};
ghost use Rattle.bson_pass_parts.specs.Run.{IsHead, NamesVariant, element_of, size};

use bson_kinds::ElementType;
use bson_rawdoc::extent::extent;
use bson_shape::VariantShape;

/// The kind and the value of the element that begins these bytes, if its key is this name.
///
/// `None` says nothing of the element.
#[inline(always)]
pub fn value_under<'a>(bytes: &'a [u8], name: &str) -> Option<(ElementType, &'a [u8])>
    ensures { IfSome result (λ p. IsHead bytes.now (element_of p.0 name.now p.1.now)) }
{
    let [byte, behind @ ..] = bytes else {
        return None;
    };
    if !is_key(behind, name) {
        return None;
    }
    let kind = ElementType::from_byte(*byte)?;
    let rest = &behind[name.len() + 1..];
    let Ok(len) = extent(kind, rest) else {
        return None;
    };
    if rest.len() < len {
        return None;
    }
    Some((kind, &rest[..len]))
}

// Whether the key that begins these bytes is this name, which has no zero in it.
#[inline(always)]
fn is_key(bytes: &[u8], name: &str) -> bool
    ensures within { IsTrue result → length name.now < length bytes.now }
    ensures text { IsTrue result → is_utf8 name.now ≡ true }
    ensures cut { IsTrue result → cut_at_zero bytes.now ≡ Some (name.now, drop (length name.now + 1) bytes.now) }
{
    let name = name.as_bytes();
    if bytes.len() <= name.len() {
        return false;
    }
    for (i, b) in name.iter().enumerate() {
        if *b == 0 || bytes[i] != *b {
            return false;
        }
    }
    bytes[name.len()] == 0
}

/// The variant that the key of the first element in these bytes names, with the kind and the value of the element.
///
/// `None` says nothing of the element.
#[inline(always)]
pub fn named_variant<'s, 'a>(
    variants: &'s [VariantShape],
    bytes: &'a [u8],
) -> Option<(&'s VariantShape, ElementType, &'a [u8])>
    ensures { IfSome result (λ p. NamesVariant variants.now bytes.now p.0.now p.1 p.2.now) }
{
    for variant in variants {
        if let Some((kind, value)) = value_under(bytes, variant.name.as_str()) {
            return Some((variant, kind, value));
        }
    }
    None
}

/// How many bytes the element of this kind, this key and this value takes that begins these bytes.
#[inline(always)]
pub fn named_len(bytes: &[u8], kind: ElementType, key: &str, value: &[u8]) -> usize
    requires { IsHead bytes.now (element_of kind key.now value.now) }
    ensures { result ≡ size (element_of kind key.now value.now) }
{
    key.len() + value.len() + 2
}

/// The front of that element: its kind, its key, a zero.
#[inline(always)]
pub fn named_front<'a>(bytes: &'a [u8], kind: ElementType, key: &str, value: &[u8]) -> &'a [u8]
    requires { IsHead bytes.now (element_of kind key.now value.now) }
    ensures { result.now ≡ byte kind ∷ (key.now ++ 0 ∷ []) }
{
    &bytes[..key.len() + 2]
}
