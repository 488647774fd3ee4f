// A document of rows, made as its bytes.
ghost use Rattle.std.specs.Prelude.{◌≡◌, ◌≤◌, ◌++◌, ◌∷◌, [], IfOk};
ghost use Rattle.std.specs.Fmt.{decimal};
ghost use Rattle.bson_kinds.specs.Kind.{byte};
ghost use Rattle.bson_base.specs.Tree.{document, le32, enclosed, element, enc, array_elements};
ghost use Rattle.bson_kinds.specs.declared.element_type.ElementType.TheVariants.{EmbeddedDocument};
ghost use Rattle.bson_recast_run.specs.Made.{row_fields, rows_from, made};
ghost use Rattle.bson_recast_run.specs.Pieces.{between_digits};

use bson_kinds::ElementType;
use std::alloc::{AllocError, Global};

/// The bytes of a document of so many rows.
///
/// It has one field `rows`, an array of documents. That of the number `i`, from 0, has `n`, the Int32 `i`, `name`, the String `row` with the decimal digits of
/// `i` behind it, and `ok`, which is true.
///
/// # Errors
///
/// Memory ran out.
pub(crate) fn made(alloc: Global, count: u32) -> Result<Vec<u8>, AllocError>
    ensures document { IfOk result (λ v. v.items ≡ enc (made count)) }
{
    let rows = rows_made(alloc, count)?;
    let array = enclosed(alloc, &rows)?;
    let mut elements = Vec::new(alloc);
    put_front(&mut elements, ElementType::Array, "rows")?;
    append(&mut elements, &array)?;
    enclosed(alloc, &elements)
}

// The elements of the array of so many rows.
fn rows_made(alloc: Global, count: u32) -> Result<Vec<u8>, AllocError>
    ensures { IfOk result (λ v. v.items ≡ array_elements 0 (rows_from row_fields 0 count)) }
{
    let mut out = Vec::new(alloc);
    for number in 0..count {
        put_row(&mut out, number)?;
    }
    Ok(out)
}

// Appends the element of a row.
fn put_row(out: &mut Vec<u8>, number: u32) -> Result<(), AllocError>
    ensures { IfOk result (λ _. out.new.items ≡ out.old.items ++ element EmbeddedDocument (decimal number) (enc (document (row_fields number)))) }
{
    let mut buffer = itoa::Buffer::new();
    let digits = buffer.format(number).as_bytes();
    append(out, &[0x03])?;
    append(out, digits)?;
    append(out, &between_digits(digits.len(), number))?;
    append(out, digits)?;
    append(out, b"\0\x08ok\0\x01\0")
}

// The bytes of a row's element between the digits of its index and those of its name: the length of the row, its number, and the length of the name.
#[tactic(auto, unfolding(bson_base::specs::Tree::le32))]
fn between_digits(digits: usize, number: u32) -> [u8; 25]
    requires { digits ≤ 40 }
    ensures { result ≡ between_digits digits number }
{
    let [a, b, c, d] = length_bytes(digits + 31);
    let [i, j, k, l] = number.to_le_bytes();
    let [s, t, u, v] = length_bytes(digits + 4);
    [
        0, a, b, c, d, 0x10, b'n', 0, i, j, k, l, 0x02, b'n', b'a', b'm', b'e', 0, s, t, u, v,
        b'r', b'o', b'w',
    ]
}

// Appends a kind, and a key closed by a zero.
fn put_front(out: &mut Vec<u8>, kind: ElementType, key: &str) -> Result<(), AllocError>
    ensures { IfOk result (λ _. out.new.items ≡ out.old.items ++ (byte kind ∷ (key.now ++ 0 ∷ []))) }
{
    append(out, &[kind.byte()])?;
    append(out, key.as_bytes())?;
    append(out, &[0])
}

// A document of these elements.
fn enclosed(alloc: Global, elements: &[u8]) -> Result<Vec<u8>, AllocError>
    ensures { IfOk result (λ v. v.items ≡ enclosed elements.now) }
{
    let mut out = Vec::with_capacity(alloc, elements.len() + 5)?;
    append(&mut out, &length_bytes(elements.len() + 5))?;
    append(&mut out, elements)?;
    append(&mut out, &[0])?;
    Ok(out)
}

// Appends bytes.
#[inline(always)]
fn append(out: &mut Vec<u8>, piece: &[u8]) -> Result<(), AllocError>
    ensures { IfOk result (λ _. out.new.items ≡ out.old.items ++ piece.now) }
{
    out.extend_from_slice(piece)
}

// The four low bytes of a length.
#[tactic(auto, unfolding(bson_base::specs::Tree::le32))]
fn length_bytes(length: usize) -> [u8; 4]
    ensures { result ≡ le32 length }
{
    let [a, b, c, d, ..] = length.to_le_bytes();
    [a, b, c, d]
}
