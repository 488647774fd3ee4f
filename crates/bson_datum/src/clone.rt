ghost use Rattle.std.specs.Prelude.{◌≡◌, ◌∷◌, IfOk, false};
ghost use Rattle.bson_values.specs.TextView.{text_view};
ghost use Rattle.bson_rawdoc.specs.DocumentView.{document_bytes};
ghost use Rattle.bson_datum.specs.RawView.{raw_document_view, raw_array_view};
ghost use Rattle.bson_values.specs.Value.{sequence, tuple, map, newtype, newtype_variant, tuple_structure, tuple_variant, structure, structure_variant};
ghost use Rattle.bson_datum.specs.View.{view, items_view, entry_view, entries_view, field_view, fields_view};
ghost use Rattle.bson_values.specs.Pieces.{text_borrowed};
ghost use Rattle.bson_datum.specs.Borrowed.{raw_document_borrowed, raw_array_borrowed, borrowed_parts, items_borrowed, entry_borrowed, entries_borrowed, field_borrowed, fields_borrowed, NoneBorrowed, IsOwned};

use crate::{Datum, Entry, Field, RawArr, RawDoc};
use bson_growing::{boxed, push};
use bson_rawdoc::{RawArrayBuf, RawDocument, RawDocumentBuf};
use bson_values::Text;
use std::alloc::{AllocError, Global};

impl<'a> RawDoc<'a> {
    /// An equal document: borrowed where this one is, else a copy.
    ///
    /// # Errors
    ///
    /// Memory ran out.
    pub fn try_clone(&self, alloc: Global) -> Result<RawDoc<'a>, AllocError>
        ensures equal { IfOk result (λ d. raw_document_view d ≡ raw_document_view self.now) }
        ensures borrowed { IfOk result (λ d. raw_document_borrowed d ≡ raw_document_borrowed self.now) }
    {
        match self {
            RawDoc::Borrowed(document) => Ok(RawDoc::Borrowed(*document)),
            RawDoc::Owned(document) => { Ok(RawDoc::Owned(copied(alloc, document.as_document())?)) }
        }
    }

    /// An equal document that is owned: a copy where this one is borrowed.
    ///
    /// # Errors
    ///
    /// Memory ran out.
    pub fn into_owned<'x>(self, alloc: Global) -> Result<RawDoc<'x>, AllocError>
        ensures equal { IfOk result (λ d. raw_document_view d ≡ raw_document_view self.entry) }
        ensures owned { IfOk result (λ d. raw_document_borrowed d ≡ false) }
    {
        match self {
            RawDoc::Borrowed(document) => Ok(RawDoc::Owned(copied(alloc, document)?)),
            RawDoc::Owned(document) => Ok(RawDoc::Owned(document)),
        }
    }
}

impl<'a> RawArr<'a> {
    /// An equal array: borrowed where this one is, else a copy.
    ///
    /// # Errors
    ///
    /// Memory ran out.
    pub fn try_clone(&self, alloc: Global) -> Result<RawArr<'a>, AllocError>
        ensures equal { IfOk result (λ a. raw_array_view a ≡ raw_array_view self.now) }
        ensures borrowed { IfOk result (λ a. raw_array_borrowed a ≡ raw_array_borrowed self.now) }
    {
        match self {
            RawArr::Borrowed(array) => Ok(RawArr::Borrowed(*array)),
            RawArr::Owned(array) => {
                let document = copied(alloc, array.as_array().as_doc())?;
                Ok(RawArr::Owned(RawArrayBuf::from_document(document)))
            }
        }
    }

    /// An equal array that is owned: a copy where this one is borrowed.
    ///
    /// # Errors
    ///
    /// Memory ran out.
    pub fn into_owned<'x>(self, alloc: Global) -> Result<RawArr<'x>, AllocError>
        ensures equal { IfOk result (λ a. raw_array_view a ≡ raw_array_view self.entry) }
        ensures owned { IfOk result (λ a. raw_array_borrowed a ≡ false) }
    {
        match self {
            RawArr::Borrowed(array) => {
                let document = copied(alloc, array.as_doc())?;
                Ok(RawArr::Owned(RawArrayBuf::from_document(document)))
            }
            RawArr::Owned(array) => Ok(RawArr::Owned(array)),
        }
    }
}

// A copy of a document.
fn copied(alloc: Global, document: RawDocument<'_>) -> Result<RawDocumentBuf, AllocError>
    ensures equal { IfOk result (λ bytes. bytes ≡ document_bytes document.entry) }
{
    let bytes = document.as_bytes().to_vec(alloc)?;
    match RawDocumentBuf::from_bytes(bytes) {
        Ok(document) => Ok(document),
        Err(_) => unreachable!(),
    }
}

impl<'a> Datum<'a> {
    /// An equal datum. Its parts are borrowed where those of this one are, else copies.
    ///
    /// # Errors
    ///
    /// Memory ran out.
    pub fn try_clone(&self, alloc: Global) -> Result<Datum<'a>, AllocError>
        ensures equal { IfOk result (λ d. view d ≡ view self.now) }
        ensures borrowed { IfOk result (λ d. borrowed_parts d ≡ borrowed_parts self.now) }
    {
        copy(alloc, self)
    }

    /// An equal datum in which nothing is borrowed: each borrowed part is copied.
    ///
    /// # Errors
    ///
    /// Memory ran out.
    pub fn into_owned<'x>(self, alloc: Global) -> Result<Datum<'x>, AllocError>
        ensures equal { IfOk result (λ d. view d ≡ view self.entry) }
        ensures owned { IfOk result IsOwned }
    {
        owned(alloc, self)
    }
}

// The same datum again.
#[cycle(copy)]
fn copy<'a>(alloc: Global, datum: &Datum<'a>) -> Result<Datum<'a>, AllocError>
    ensures equal { IfOk result (λ d. view d ≡ view datum.now) }
    ensures borrowed { IfOk result (λ d. borrowed_parts d ≡ borrowed_parts datum.now) }
{
    match datum {
        Datum::Bool(truth) => Ok(Datum::Bool(*truth)),
        Datum::I8(number) => Ok(Datum::I8(*number)),
        Datum::I16(number) => Ok(Datum::I16(*number)),
        Datum::I32(number) => Ok(Datum::I32(*number)),
        Datum::I64(number) => Ok(Datum::I64(*number)),
        Datum::U8(number) => Ok(Datum::U8(*number)),
        Datum::U16(number) => Ok(Datum::U16(*number)),
        Datum::U32(number) => Ok(Datum::U32(*number)),
        Datum::U64(number) => Ok(Datum::U64(*number)),
        Datum::Double(number) => Ok(Datum::Double(*number)),
        Datum::Char(character) => Ok(Datum::Char(*character)),
        Datum::Str(text) => text.try_clone(alloc).map(Datum::Str),
        Datum::Bytes(bytes) => bytes.try_clone(alloc).map(Datum::Bytes),
        Datum::None => Ok(Datum::None),
        Datum::Some(value) => copy_box(alloc, value).map(Datum::Some),
        Datum::Unit => Ok(Datum::Unit),
        Datum::UnitStruct { name } => Ok(Datum::UnitStruct {
            name: name.try_clone(alloc)?,
        }),
        Datum::UnitVariant { variant } => Ok(Datum::UnitVariant {
            variant: variant.try_clone(alloc)?,
        }),
        Datum::NewtypeStruct { name, value } => copy_newtype(alloc, name, value),
        Datum::NewtypeVariant { variant, value } => copy_newtype_variant(alloc, variant, value),
        Datum::Seq(items) => copy_sequence(alloc, items),
        Datum::Tuple(items) => copy_tuple(alloc, items),
        Datum::TupleStruct { name, items } => copy_tuple_struct(alloc, name, items),
        Datum::TupleVariant { variant, items } => copy_tuple_variant(alloc, variant, items),
        Datum::Map(entries) => copy_map(alloc, entries),
        Datum::Struct { name, fields } => copy_struct(alloc, name, fields),
        Datum::StructVariant { variant, fields } => copy_struct_variant(alloc, variant, fields),
        Datum::RawDocument(document) => document.try_clone(alloc).map(Datum::RawDocument),
        Datum::RawArray(array) => array.try_clone(alloc).map(Datum::RawArray),
        Datum::Mode { readable, compact } => Ok(Datum::Mode {
            readable: copy_box(alloc, readable)?,
            compact: copy_box(alloc, compact)?,
        }),
    }
}

// The same sequence again.
#[cycle(copy)]
#[tactic(auto, using(crate::proofs::Views::item_rows_items, crate::proofs::BorrowedRows::item_rows_are_borrowed))]
fn copy_sequence<'a>(alloc: Global, items: &[Datum<'a>]) -> Result<Datum<'a>, AllocError>
    ensures equal { IfOk result (λ d. view d ≡ sequence (items_view items.now)) }
    ensures borrowed { IfOk result (λ d. borrowed_parts d ≡ items_borrowed items.now) }
{
    Ok(Datum::Seq(copy_items(alloc, items)?))
}

// The same tuple again.
#[cycle(copy)]
#[tactic(auto, using(crate::proofs::Views::item_rows_items, crate::proofs::BorrowedRows::item_rows_are_borrowed))]
fn copy_tuple<'a>(alloc: Global, items: &[Datum<'a>]) -> Result<Datum<'a>, AllocError>
    ensures equal { IfOk result (λ d. view d ≡ tuple (items_view items.now)) }
    ensures borrowed { IfOk result (λ d. borrowed_parts d ≡ items_borrowed items.now) }
{
    Ok(Datum::Tuple(copy_items(alloc, items)?))
}

// The same map again.
#[cycle(copy)]
#[tactic(auto, using(crate::proofs::Views::entry_rows_items, crate::proofs::BorrowedRows::entry_rows_are_borrowed))]
fn copy_map<'a>(alloc: Global, entries: &[Entry<'a>]) -> Result<Datum<'a>, AllocError>
    ensures equal { IfOk result (λ d. view d ≡ map (entries_view entries.now)) }
    ensures borrowed { IfOk result (λ d. borrowed_parts d ≡ entries_borrowed entries.now) }
{
    Ok(Datum::Map(copy_entries(alloc, entries)?))
}

// The same newtype again.
#[cycle(copy)]
fn copy_newtype<'a>(
    alloc: Global,
    name: &Text<'a>,
    value: &Datum<'a>,
) -> Result<Datum<'a>, AllocError>
    ensures equal { IfOk result (λ d. view d ≡ newtype (text_view name.now) (view value.now)) }
    ensures borrowed { IfOk result (λ d. borrowed_parts d ≡ text_borrowed name.now ∷ borrowed_parts value.now) }
{
    Ok(Datum::NewtypeStruct {
        name: name.try_clone(alloc)?,
        value: copy_box(alloc, value)?,
    })
}

// The same variant around one value again.
#[cycle(copy)]
fn copy_newtype_variant<'a>(
    alloc: Global,
    variant: &Text<'a>,
    value: &Datum<'a>,
) -> Result<Datum<'a>, AllocError>
    ensures equal { IfOk result (λ d. view d ≡ newtype_variant (text_view variant.now) (view value.now)) }
    ensures borrowed { IfOk result (λ d. borrowed_parts d ≡ text_borrowed variant.now ∷ borrowed_parts value.now) }
{
    Ok(Datum::NewtypeVariant {
        variant: variant.try_clone(alloc)?,
        value: copy_box(alloc, value)?,
    })
}

// The same tuple struct again.
#[cycle(copy)]
#[tactic(auto, using(crate::proofs::Views::item_rows_items, crate::proofs::BorrowedRows::item_rows_are_borrowed))]
fn copy_tuple_struct<'a>(
    alloc: Global,
    name: &Text<'a>,
    items: &[Datum<'a>],
) -> Result<Datum<'a>, AllocError>
    ensures equal { IfOk result (λ d. view d ≡ tuple_structure (text_view name.now) (items_view items.now)) }
    ensures borrowed { IfOk result (λ d. borrowed_parts d ≡ text_borrowed name.now ∷ items_borrowed items.now) }
{
    Ok(Datum::TupleStruct {
        name: name.try_clone(alloc)?,
        items: copy_items(alloc, items)?,
    })
}

// The same variant with values again.
#[cycle(copy)]
#[tactic(auto, using(crate::proofs::Views::item_rows_items, crate::proofs::BorrowedRows::item_rows_are_borrowed))]
fn copy_tuple_variant<'a>(
    alloc: Global,
    variant: &Text<'a>,
    items: &[Datum<'a>],
) -> Result<Datum<'a>, AllocError>
    ensures equal { IfOk result (λ d. view d ≡ tuple_variant (text_view variant.now) (items_view items.now)) }
    ensures borrowed { IfOk result (λ d. borrowed_parts d ≡ text_borrowed variant.now ∷ items_borrowed items.now) }
{
    Ok(Datum::TupleVariant {
        variant: variant.try_clone(alloc)?,
        items: copy_items(alloc, items)?,
    })
}

// The same struct again.
#[cycle(copy)]
#[tactic(auto, using(crate::proofs::Views::rows_items, crate::proofs::BorrowedRows::rows_are_borrowed))]
fn copy_struct<'a>(
    alloc: Global,
    name: &Text<'a>,
    fields: &[Field<'a>],
) -> Result<Datum<'a>, AllocError>
    ensures equal { IfOk result (λ d. view d ≡ structure (text_view name.now) (fields_view fields.now)) }
    ensures borrowed { IfOk result (λ d. borrowed_parts d ≡ text_borrowed name.now ∷ fields_borrowed fields.now) }
{
    Ok(Datum::Struct {
        name: name.try_clone(alloc)?,
        fields: copy_fields(alloc, fields)?,
    })
}

// The same variant with fields again.
#[cycle(copy)]
#[tactic(auto, using(crate::proofs::Views::rows_items, crate::proofs::BorrowedRows::rows_are_borrowed))]
fn copy_struct_variant<'a>(
    alloc: Global,
    variant: &Text<'a>,
    fields: &[Field<'a>],
) -> Result<Datum<'a>, AllocError>
    ensures equal { IfOk result (λ d. view d ≡ structure_variant (text_view variant.now) (fields_view fields.now)) }
    ensures borrowed { IfOk result (λ d. borrowed_parts d ≡ text_borrowed variant.now ∷ fields_borrowed fields.now) }
{
    Ok(Datum::StructVariant {
        variant: variant.try_clone(alloc)?,
        fields: copy_fields(alloc, fields)?,
    })
}

// The same datum again, in a box.
#[cycle(copy)]
fn copy_box<'a>(alloc: Global, value: &Datum<'a>) -> Result<Box<Datum<'a>>, AllocError>
    ensures equal { IfOk result (λ b. view b.value ≡ view value.now) }
    ensures borrowed { IfOk result (λ b. borrowed_parts b.value ≡ borrowed_parts value.now) }
{
    let value = copy(alloc, value)?;
    boxed(alloc, value)
}

// The same data again.
#[cycle(copy)]
fn copy_items<'a>(alloc: Global, items: &[Datum<'a>]) -> Result<Vec<Datum<'a>>, AllocError>
    ensures equal { IfOk result (λ v. items_view v.items ≡ items_view items.now) }
    ensures borrowed { IfOk result (λ v. items_borrowed v.items ≡ items_borrowed items.now) }
{
    let mut copies = Vec::with_capacity(alloc, items.len())?;
    for item in items {
        push(&mut copies, copy(alloc, item)?)?;
    }
    Ok(copies)
}

// The same entries again.
#[cycle(copy)]
fn copy_entries<'a>(alloc: Global, entries: &[Entry<'a>]) -> Result<Vec<Entry<'a>>, AllocError>
    ensures equal { IfOk result (λ v. entries_view v.items ≡ entries_view entries.now) }
    ensures borrowed { IfOk result (λ v. entries_borrowed v.items ≡ entries_borrowed entries.now) }
{
    let mut copies = Vec::with_capacity(alloc, entries.len())?;
    for entry in entries {
        push(&mut copies, copy_entry(alloc, entry)?)?;
    }
    Ok(copies)
}

// The same entry again.
#[cycle(copy)]
fn copy_entry<'a>(alloc: Global, entry: &Entry<'a>) -> Result<Entry<'a>, AllocError>
    ensures equal { IfOk result (λ e. entry_view e ≡ entry_view entry.now) }
    ensures borrowed { IfOk result (λ e. entry_borrowed e ≡ entry_borrowed entry.now) }
{
    let key = copy(alloc, &entry.key)?;
    match copy(alloc, &entry.value) {
        Ok(value) => Ok(Entry { key, value }),
        Err(error) => {
            drop(key);
            Err(error)
        }
    }
}

// The same fields again.
#[cycle(copy)]
fn copy_fields<'a>(alloc: Global, fields: &[Field<'a>]) -> Result<Vec<Field<'a>>, AllocError>
    ensures equal { IfOk result (λ v. fields_view v.items ≡ fields_view fields.now) }
    ensures borrowed { IfOk result (λ v. fields_borrowed v.items ≡ fields_borrowed fields.now) }
{
    let mut copies = Vec::with_capacity(alloc, fields.len())?;
    for field in fields {
        push(&mut copies, copy_field(alloc, field)?)?;
    }
    Ok(copies)
}

// The same field again.
#[cycle(copy)]
fn copy_field<'a>(alloc: Global, field: &Field<'a>) -> Result<Field<'a>, AllocError>
    ensures equal { IfOk result (λ f. field_view f ≡ field_view field.now) }
    ensures borrowed { IfOk result (λ f. field_borrowed f ≡ field_borrowed field.now) }
{
    let name = field.name.try_clone(alloc)?;
    let value = copy(alloc, &field.value)?;
    Ok(Field { name, value })
}

// The same datum, with nothing borrowed in it.
#[cycle(owned)]
fn owned<'x>(alloc: Global, datum: Datum<'_>) -> Result<Datum<'x>, AllocError>
    ensures equal { IfOk result (λ d. view d ≡ view datum.entry) }
    ensures owned { IfOk result IsOwned }
{
    match datum {
        Datum::Bool(truth) => Ok(Datum::Bool(truth)),
        Datum::I8(number) => Ok(Datum::I8(number)),
        Datum::I16(number) => Ok(Datum::I16(number)),
        Datum::I32(number) => Ok(Datum::I32(number)),
        Datum::I64(number) => Ok(Datum::I64(number)),
        Datum::U8(number) => Ok(Datum::U8(number)),
        Datum::U16(number) => Ok(Datum::U16(number)),
        Datum::U32(number) => Ok(Datum::U32(number)),
        Datum::U64(number) => Ok(Datum::U64(number)),
        Datum::Double(number) => Ok(Datum::Double(number)),
        Datum::Char(character) => Ok(Datum::Char(character)),
        Datum::Str(text) => text.into_owned(alloc).map(Datum::Str),
        Datum::Bytes(bytes) => bytes.into_owned(alloc).map(Datum::Bytes),
        Datum::None => Ok(Datum::None),
        Datum::Some(value) => owned_box(alloc, value).map(Datum::Some),
        Datum::Unit => Ok(Datum::Unit),
        Datum::UnitStruct { name } => Ok(Datum::UnitStruct {
            name: name.into_owned(alloc)?,
        }),
        Datum::UnitVariant { variant } => Ok(Datum::UnitVariant {
            variant: variant.into_owned(alloc)?,
        }),
        Datum::NewtypeStruct { name, value } => owned_newtype(alloc, name, value),
        Datum::NewtypeVariant { variant, value } => owned_newtype_variant(alloc, variant, value),
        Datum::Seq(items) => owned_sequence(alloc, items),
        Datum::Tuple(items) => owned_tuple(alloc, items),
        Datum::TupleStruct { name, items } => owned_tuple_struct(alloc, name, items),
        Datum::TupleVariant { variant, items } => owned_tuple_variant(alloc, variant, items),
        Datum::Map(entries) => owned_map(alloc, entries),
        Datum::Struct { name, fields } => owned_struct(alloc, name, fields),
        Datum::StructVariant { variant, fields } => owned_struct_variant(alloc, variant, fields),
        Datum::RawDocument(document) => document.into_owned(alloc).map(Datum::RawDocument),
        Datum::RawArray(array) => array.into_owned(alloc).map(Datum::RawArray),
        Datum::Mode { readable, compact } => Ok(Datum::Mode {
            readable: owned_box(alloc, readable)?,
            compact: owned_box(alloc, compact)?,
        }),
    }
}

// The same sequence, with nothing borrowed in it.
#[cycle(owned)]
#[tactic(auto, using(crate::proofs::Views::item_rows_items, crate::proofs::BorrowedRows::item_rows_are_borrowed))]
fn owned_sequence<'x>(alloc: Global, items: Vec<Datum<'_>>) -> Result<Datum<'x>, AllocError>
    ensures equal { IfOk result (λ d. view d ≡ sequence (items_view items.entry.items)) }
    ensures owned { IfOk result IsOwned }
{
    Ok(Datum::Seq(owned_items(alloc, items)?))
}

// The same tuple, with nothing borrowed in it.
#[cycle(owned)]
#[tactic(auto, using(crate::proofs::Views::item_rows_items, crate::proofs::BorrowedRows::item_rows_are_borrowed))]
fn owned_tuple<'x>(alloc: Global, items: Vec<Datum<'_>>) -> Result<Datum<'x>, AllocError>
    ensures equal { IfOk result (λ d. view d ≡ tuple (items_view items.entry.items)) }
    ensures owned { IfOk result IsOwned }
{
    Ok(Datum::Tuple(owned_items(alloc, items)?))
}

// The same map, with nothing borrowed in it.
#[cycle(owned)]
#[tactic(auto, using(crate::proofs::Views::entry_rows_items, crate::proofs::BorrowedRows::entry_rows_are_borrowed))]
fn owned_map<'x>(alloc: Global, entries: Vec<Entry<'_>>) -> Result<Datum<'x>, AllocError>
    ensures equal { IfOk result (λ d. view d ≡ map (entries_view entries.entry.items)) }
    ensures owned { IfOk result IsOwned }
{
    Ok(Datum::Map(owned_entries(alloc, entries)?))
}

// The same newtype, with nothing borrowed in it.
#[cycle(owned)]
fn owned_newtype<'x>(
    alloc: Global,
    name: Text<'_>,
    value: Box<Datum<'_>>,
) -> Result<Datum<'x>, AllocError>
    ensures equal { IfOk result (λ d. view d ≡ newtype (text_view name.entry) (view value.entry.value)) }
    ensures owned { IfOk result IsOwned }
{
    Ok(Datum::NewtypeStruct {
        name: name.into_owned(alloc)?,
        value: owned_box(alloc, value)?,
    })
}

// The same variant around one value, with nothing borrowed in it.
#[cycle(owned)]
fn owned_newtype_variant<'x>(
    alloc: Global,
    variant: Text<'_>,
    value: Box<Datum<'_>>,
) -> Result<Datum<'x>, AllocError>
    ensures equal { IfOk result (λ d. view d ≡ newtype_variant (text_view variant.entry) (view value.entry.value)) }
    ensures owned { IfOk result IsOwned }
{
    Ok(Datum::NewtypeVariant {
        variant: variant.into_owned(alloc)?,
        value: owned_box(alloc, value)?,
    })
}

// The same tuple struct, with nothing borrowed in it.
#[cycle(owned)]
#[tactic(auto, using(crate::proofs::Views::item_rows_items, crate::proofs::BorrowedRows::item_rows_are_borrowed))]
fn owned_tuple_struct<'x>(
    alloc: Global,
    name: Text<'_>,
    items: Vec<Datum<'_>>,
) -> Result<Datum<'x>, AllocError>
    ensures equal { IfOk result (λ d. view d ≡ tuple_structure (text_view name.entry) (items_view items.entry.items)) }
    ensures owned { IfOk result IsOwned }
{
    Ok(Datum::TupleStruct {
        name: name.into_owned(alloc)?,
        items: owned_items(alloc, items)?,
    })
}

// The same variant with values, with nothing borrowed in it.
#[cycle(owned)]
#[tactic(auto, using(crate::proofs::Views::item_rows_items, crate::proofs::BorrowedRows::item_rows_are_borrowed))]
fn owned_tuple_variant<'x>(
    alloc: Global,
    variant: Text<'_>,
    items: Vec<Datum<'_>>,
) -> Result<Datum<'x>, AllocError>
    ensures equal { IfOk result (λ d. view d ≡ tuple_variant (text_view variant.entry) (items_view items.entry.items)) }
    ensures owned { IfOk result IsOwned }
{
    Ok(Datum::TupleVariant {
        variant: variant.into_owned(alloc)?,
        items: owned_items(alloc, items)?,
    })
}

// The same struct, with nothing borrowed in it.
#[cycle(owned)]
#[tactic(auto, using(crate::proofs::Views::rows_items, crate::proofs::BorrowedRows::rows_are_borrowed))]
fn owned_struct<'x>(
    alloc: Global,
    name: Text<'_>,
    fields: Vec<Field<'_>>,
) -> Result<Datum<'x>, AllocError>
    ensures equal { IfOk result (λ d. view d ≡ structure (text_view name.entry) (fields_view fields.entry.items)) }
    ensures owned { IfOk result IsOwned }
{
    Ok(Datum::Struct {
        name: name.into_owned(alloc)?,
        fields: owned_fields(alloc, fields)?,
    })
}

// The same variant with fields, with nothing borrowed in it.
#[cycle(owned)]
#[tactic(auto, using(crate::proofs::Views::rows_items, crate::proofs::BorrowedRows::rows_are_borrowed))]
fn owned_struct_variant<'x>(
    alloc: Global,
    variant: Text<'_>,
    fields: Vec<Field<'_>>,
) -> Result<Datum<'x>, AllocError>
    ensures equal { IfOk result (λ d. view d ≡ structure_variant (text_view variant.entry) (fields_view fields.entry.items)) }
    ensures owned { IfOk result IsOwned }
{
    Ok(Datum::StructVariant {
        variant: variant.into_owned(alloc)?,
        fields: owned_fields(alloc, fields)?,
    })
}

// The same datum in a box, with nothing borrowed in it.
#[cycle(owned)]
fn owned_box<'x>(alloc: Global, value: Box<Datum<'_>>) -> Result<Box<Datum<'x>>, AllocError>
    ensures equal { IfOk result (λ b. view b.value ≡ view value.entry.value) }
    ensures owned { IfOk result (λ b. IsOwned b.value) }
{
    let value = owned(alloc, Box::into_inner(value))?;
    boxed(alloc, value)
}

// The same data, with nothing borrowed in them.
#[cycle(owned)]
fn owned_items<'x>(alloc: Global, items: Vec<Datum<'_>>) -> Result<Vec<Datum<'x>>, AllocError>
    ensures equal { IfOk result (λ v. items_view v.items ≡ items_view items.entry.items) }
    ensures owned { IfOk result (λ v. NoneBorrowed (items_borrowed v.items)) }
{
    let mut copies = Vec::with_capacity(alloc, items.len())?;
    for item in items {
        push(&mut copies, owned(alloc, item)?)?;
    }
    Ok(copies)
}

// The same entries, with nothing borrowed in them.
#[cycle(owned)]
fn owned_entries<'x>(alloc: Global, entries: Vec<Entry<'_>>) -> Result<Vec<Entry<'x>>, AllocError>
    ensures equal { IfOk result (λ v. entries_view v.items ≡ entries_view entries.entry.items) }
    ensures owned { IfOk result (λ v. NoneBorrowed (entries_borrowed v.items)) }
{
    let mut copies = Vec::with_capacity(alloc, entries.len())?;
    for entry in entries {
        push(&mut copies, owned_entry(alloc, entry)?)?;
    }
    Ok(copies)
}

// The same entry, with nothing borrowed in it.
#[cycle(owned)]
fn owned_entry<'x>(alloc: Global, entry: Entry<'_>) -> Result<Entry<'x>, AllocError>
    ensures equal { IfOk result (λ e. entry_view e ≡ entry_view entry.entry) }
    ensures owned { IfOk result (λ e. NoneBorrowed (entry_borrowed e)) }
{
    let Entry { key, value } = entry;
    let key = match owned(alloc, key) {
        Ok(key) => key,
        Err(error) => {
            drop(value);
            return Err(error);
        }
    };
    match owned(alloc, value) {
        Ok(value) => Ok(Entry { key, value }),
        Err(error) => {
            drop(key);
            Err(error)
        }
    }
}

// The same fields, with nothing borrowed in them.
#[cycle(owned)]
fn owned_fields<'x>(alloc: Global, fields: Vec<Field<'_>>) -> Result<Vec<Field<'x>>, AllocError>
    ensures equal { IfOk result (λ v. fields_view v.items ≡ fields_view fields.entry.items) }
    ensures owned { IfOk result (λ v. NoneBorrowed (fields_borrowed v.items)) }
{
    let mut copies = Vec::with_capacity(alloc, fields.len())?;
    for field in fields {
        push(&mut copies, owned_field(alloc, field)?)?;
    }
    Ok(copies)
}

// The same field, with nothing borrowed in it.
#[cycle(owned)]
fn owned_field<'x>(alloc: Global, field: Field<'_>) -> Result<Field<'x>, AllocError>
    ensures equal { IfOk result (λ f. field_view f ≡ field_view field.entry) }
    ensures owned { IfOk result (λ f. NoneBorrowed (field_borrowed f)) }
{
    let Field { name, value } = field;
    let value = owned(alloc, value)?;
    match name.into_owned(alloc) {
        Ok(name) => Ok(Field { name, value }),
        Err(error) => {
            drop(value);
            Err(error)
        }
    }
}
