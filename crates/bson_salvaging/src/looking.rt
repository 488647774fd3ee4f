// Looks at the elements of a document, which are counted.
ghost use Rattle.std.specs.Prelude.{◌≡◌};
ghost use Rattle.bson_salvaging.specs.Looks as looked;

use bson_kinds::ElementType;
use bson_rawdoc::{RawDocument, RawElement};

/// Whether a look found no fault, and how many looks are left.
#[derive(Clone, Copy, Debug, PartialEq, Eq)]
pub(crate) struct Look {
    pub(crate) fine: bool,
    pub(crate) left: u64,
}

/// Whether the elements of a document end without a fault, and how many were looked at.
#[derive(Clone, Copy, Debug, PartialEq, Eq)]
pub(crate) struct Walked {
    pub(crate) fine: bool,
    pub(crate) count: u64,
}

fn fine(left: u64) -> Look
    ensures { result ≡ looked.fine left }
{
    Look { fine: true, left }
}

fn fault(left: u64) -> Look
    ensures { result ≡ looked.fault left }
{
    Look { fine: false, left }
}

/// Looks at each element of a document, and of each document and array in it, with so many levels left.
#[cycle(look)]
pub(crate) fn look_deep(levels: u32, looks: u64, bytes: &[u8]) -> Look
    ensures { result ≡ looked.look_deep levels looks bytes.now }
{
    if levels == 0 {
        return fault(looks);
    }
    let Ok(document) = RawDocument::from_bytes(bytes) else {
        return fault(looks);
    };
    let mut left = looks;
    for element in document.iter_elements() {
        let Ok(element) = element else {
            return fault(left);
        };
        if left == 0 {
            return fault(0);
        }
        let inner = look_within(levels - 1, left - 1, &element);
        if !inner.fine {
            return inner;
        }
        left = inner.left;
    }
    fine(left)
}

// Looks into an element.
#[cycle(look)]
fn look_within(levels: u32, looks: u64, element: &RawElement<'_>) -> Look
    ensures { result ≡ looked.within (looked.look_deep levels) element.now.kind looks element.now.value }
{
    match element.element_type() {
        ElementType::EmbeddedDocument | ElementType::Array => look_deep(
            levels,
            looks,
            element.slice(),
        ),
        _ => fine(looks),
    }
}

/// Looks at each element of a document, and not into it.
pub(crate) fn walk(bytes: &[u8]) -> Walked
    ensures fine { result.fine ≡ looked.is_walked bytes.now }
    ensures count { result.count ≡ looked.walked bytes.now }
{
    let Ok(document) = RawDocument::from_bytes(bytes) else {
        return Walked {
            fine: false,
            count: 0,
        };
    };
    let mut count = 0;
    for element in document.iter_elements() {
        if element.is_err() {
            return Walked { fine: false, count };
        }
        count += 1;
    }
    Walked { fine: true, count }
}
