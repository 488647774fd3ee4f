//! Typed BSON: the bytes of a document are read at a *shape* as a value of serde's data model, and such a value is written as the bytes of a document.
//!
//! This crate re-exports the public names of the crates below it, so that a program imports all it needs from here; docs/USING.md has a whole program. Each
//! function that needs memory takes an allocator, and returns an error when it is out of memory. Every function returns, on every input that its contract allows, where there is room on the stack.
//!
//! | subject | names |
//! |---|---|
//! | shapes | `Shape`; `FieldShape`, `VariantShape` and `VariantContent` to make one without its notation; `Form`, `Leaf` and `Named` to look at one |
//! | reading and writing | `from_slice_at`, `from_slice_utf8_lossy_at`; `to_vec_at`, `to_buf`, `to_vec_counted`; `Datum` and its parts `Field`, `Entry`, `Text`, `ByteStr`, `RawDoc`, `RawArr`, `Double` |
//! | reading from sources | `from_reader_at`, `from_reader_utf8_lossy_at`; `take_document`, `take_up_to` and `TakeFault` for the bytes alone |
//! | reading from trees | `from_bson_at`, `from_document_at`, and with options; `Deserializer`, `DeserializerOptions` |
//! | writing to trees | `to_bson_at`, `to_document_at`, and with options; `Serializer`, with a writer for each form of value that is given part by part; `SerializerOptions` |
//! | writing part by part | `DocumentWriter`, `VariantWriter`, `ValueWriter`, over an `Out` |
//! | types of one's own | `Serialize`, `Deserialize`, `RoundTrip`, `NeverNull`, `EqualByContents`; `to_vec`, `to_raw_document_buf`, `to_bson`, `to_document`, `from_bson`, `from_document`, and with options; `from_slice`, `from_reader`, and lossy; `FieldShapes`, `StructFields`, `add_field`, `struct_datum`, `VariantShapes`, `unit_variant`, `newtype_variant`, `is_unit_variant`, `newtype_value` and `not_fitting` for their impls; `HumanReadable`, `Utf8LossyDeserialization`, the modules of `bson_helpers` and the second names of their calls |
//! | both at once | `recast`, `recast_utf8_lossy`, `recast_to_buf`, `recast_by_tree` |
//! | the shape of documents | `infer` |
//! | whether what is written at one shape is read at another | `check` and `Verdict`; `differences`, `Difference` and `Reason` for each pair of parts that does not pass |
//! | trees | `Bson`, `Document` with `KeySeed`, `Iter`, `Keys` and `IntoIter`, and the types of values, such as `ObjectId`, `DateTime` and `Binary`; `read_value` and `Met` to read from one by the rules for bytes |
//! | documents in their bytes | `RawDocument`, `RawArray`, `RawElement`, `RawIter`, `RawBsonRef`, `Unjudged`; `RawDocumentBuf`, `RawArrayBuf` to own the bytes; `RawValue`, a value by its kind and bytes, of `raw_from_element` and `raw_from_bson` |
//! | files of documents | `RawDocuments`; `migrate`, `Migration`, `Refused`, `lines_of` |
//! | values of kinds that serde's data model lacks | `data` to make them, `reserved` to look at them, `reserved_kind` |
//! | errors | `ParseError`, `ShapeError`, `de::Error`, `ser::Error`, `raw::Error`, `EncodeError`, `InferError`, `CheckError`, `RecastError`, `MigrateError`; `Cause`, `MAX_NESTING_LEVEL`, `Path`, `Segment`, `Wrapper`, and `Stop` of `read_value` |
//! | input and output | `Source`, `Sink`, their ends `ReadAdapter`, `WriteAdapter`, `MemorySource`, `MemorySink`, `SteadySource`, `SteadySink`; `read_to_end`, `write_due`, `ReadFault`, `Failed`, `MOST`; `Out`, `Steps`, `Ledger`, `Tally` |
//! | whole programs | `run` and `Status`, `run_migrate` and `MigrateStatus`, `run_infer` and `InferStatus`, `run_check` and `CheckStatus`; what they share: `shape_of_word`, `read_input`, `Answer`, `finish`, `Endings`, `InputEndings` |
//! | texts | `date_text`, `date_of_text`, `integer_of_text`, `subtype_of_text`; `DateError`, `NotDate`, `NotHex`, `NotUuid` |
//! | contracts | `laws`; the definitions that contracts name, as `Rattle.bson.specs.Tree` |
//!
//! The examples are the functions of the programs `bson_examples`, `bson_example_values` and `bson_example_types`, where each is proved, and run once. An example without a clause is
//! proved too: it is safe, and it returns.
//!
//! # Types of one's own
//!
//! A value of a type with the traits `Serialize` and `Deserialize` is written and read as a whole. `Cat` is a struct of a name and an age, `Person` one of a name, an age and a vector
//! of `Pet`, an enum; `tools/derive.py` writes the impls of such types, with nothing to prove by hand (docs/USING.md). What `from_slice` reads from what `to_vec` wrote has the
//! contents of the value again, and is `==` to it: `laws::law_round_trip` and `laws::law_round_trip_equal` say so. `Pedigree` holds itself, as a tree does: its shape is a definition that
//! refers to itself, and its impls, in `bson_example_types/src/pedigree.rt`, are written by hand.
//!
//! `bson_example_types/src/own_types.rt`:
//!
//! ```rust
//! use crate::{Cat, Pedigree, Person};
//! use bson::{Document, de, from_document, from_slice, ser, to_document, to_vec};
//! use std::alloc::Global;
//!
//! /// The bytes of the document that a cat is, as `{name: "Garfield", age: 43}`.
//! pub fn cat_bytes(alloc: Global, cat: &Cat) -> ser::Result<Vec<u8>> {
//!     to_vec(alloc, cat)
//! }
//!
//! /// The cat that the bytes of a document are.
//! pub fn cat_of(alloc: Global, bytes: &[u8]) -> de::Result<Cat> {
//!     from_slice(alloc, bytes)
//! }
//!
//! /// The bytes of the document that a person with pets is.
//! pub fn household_bytes(alloc: Global, person: &Person) -> ser::Result<Vec<u8>> {
//!     to_vec(alloc, person)
//! }
//!
//! /// The person with pets that the bytes of a document are.
//! pub fn household_of(alloc: Global, bytes: &[u8]) -> de::Result<Person> {
//!     from_slice(alloc, bytes)
//! }
//!
//! /// The document in memory that a person with pets is.
//! pub fn household_document(alloc: Global, person: &Person) -> ser::Result<Document> {
//!     to_document(alloc, person)
//! }
//!
//! /// The person with pets that a document in memory is.
//! pub fn household_in(alloc: Global, document: Document) -> de::Result<Person> {
//!     from_document(alloc, document)
//! }
//!
//! /// The bytes of the document that a pedigree is, as `{Bred: [{Founder: 1}, {Founder: 2}]}`.
//! pub fn pedigree_bytes(alloc: Global, pedigree: &Pedigree) -> ser::Result<Vec<u8>> {
//!     to_vec(alloc, pedigree)
//! }
//!
//! /// The pedigree that the bytes of a document are.
//! pub fn pedigree_of(alloc: Global, bytes: &[u8]) -> de::Result<Pedigree> {
//!     from_slice(alloc, bytes)
//! }
//! ```
//!
//! # Shapes and their notation
//!
//! A shape says which values are read, and what they become. docs/SHAPES.md has every form of its notation. Makers such as `Shape::seq`,
//! `Shape::structure`, `Shape::closed_structure` and, for recursive shapes, `Shape::definitions` make the same shapes without a text.
//!
//! `bson_examples/src/shapes.rt`:
//!
//! ```rust
//! ghost use Rattle.std.specs.Prelude.{◌≡◌, IfOk, codes};
//! ghost use Rattle.bson.specs.Notation.{text};
//!
//! use bson::{ParseError, Shape};
//! use std::alloc::Global;
//!
//! /// The shape of a person: a name, an age, and an address that may be missing.
//! pub fn person_shape(alloc: Global) -> Result<Shape, ParseError>
//!     ensures notation { IfOk result (λ shape. text shape ≡ codes "{name:string,age:u8,email:?string}") }
//! {
//!     Shape::parse(alloc, "{name:string,age:u8,email:?string}")
//! }
//! ```
//!
//! # Reading
//!
//! What is read is a `Datum`. At `str` and `bytes` its texts and byte strings are borrowed from the input, at `string` and `bytebuf` they are owned.
//! `Datum::into_owned` makes a value that borrows nothing.
//!
//! `bson_examples/src/reading.rt`:
//!
//! ```rust
//! ghost use Rattle.std.specs.Prelude.{IsOk, OnOk};
//! ghost use Rattle.bson.specs.Reads.{reads_document};
//!
//! use bson::{Document, Shape, de, from_document_at, from_slice_at};
//! use std::alloc::Global;
//!
//! /// The age of the person in the bytes of a document such as `{name: "Ada", age: 36}`.
//! pub fn age(alloc: Global, shape: &Shape, bytes: &[u8]) -> de::Result<Option<i64>>
//!     ensures read { OnOk result (IsOk (reads_document shape.now bytes.now)) }
//! {
//!     let person = from_slice_at(alloc, shape, bytes)?;
//!     Ok(person.field("age").and_then(|age| age.as_i64()))
//! }
//!
//! /// The age of the person in such a document in memory.
//! pub fn age_in_memory(alloc: Global, shape: &Shape, person: Document) -> de::Result<Option<i64>> {
//!     let person = from_document_at(alloc, shape, person)?;
//!     Ok(person.field("age").and_then(|age| age.as_i64()))
//! }
//! ```
//!
//! # What a value holds
//!
//! `field` is for structs, `get` for maps, as at `any`; `as_str`, `as_bool`, `as_i64`, `as_double`, `as_bytes` and `as_seq` return what a value of that form holds, and `None` for
//! every other. For all other forms, and for an option, match on the `Datum`.
//!
//! `bson_example_values/src/accessors.rt`:
//!
//! ```rust
//! ghost use Rattle.std.specs.Prelude.{◌≡◌, codes, option_and_then};
//! ghost use Rattle.bson.specs.Access.{as_i64, field};
//! ghost use Rattle.bson.specs.View.{view};
//!
//! use bson::Datum;
//!
//! /// The age of a person.
//! pub fn age_of(person: &Datum<'_>) -> Option<i64>
//!     ensures age { result ≡ option_and_then as_i64 (field (codes "age") (view person.now)) }
//! {
//!     person.field("age")?.as_i64()
//! }
//!
//! /// The city of a person's first address, as `London` in `{addresses: [{city: "London"}, {city: "Paris"}]}`.
//! pub fn first_city<'d>(person: &'d Datum<'_>) -> Option<&'d str> {
//!     let addresses = person.field("addresses")?.as_seq()?;
//!     addresses.first()?.field("city")?.as_str()
//! }
//! ```
//!
//! # Writing
//!
//! A struct or a map is written as a document. The type of a number says its kind: `U8` is written as an Int32, `I64` as an Int64. `to_vec_at` gives its bytes; `to_document_at`
//! makes the document in memory, and `to_bson_at` the `Bson` of a value of any kind.
//!
//! `bson_examples/src/writing.rt`:
//!
//! ```rust
//! use bson::{Datum, Document, Field, Text, ser, to_document_at, to_vec_at};
//! use std::alloc::{AllocError, Global};
//!
//! /// A person, as a value of a struct. The name is borrowed.
//! pub fn person<'a>(alloc: Global, name: &'a str, age: u8) -> Result<Datum<'a>, AllocError> {
//!     let name = Field {
//!         name: Text::Borrowed("name"),
//!         value: Datum::Str(Text::Borrowed(name)),
//!     };
//!     let age = Field {
//!         name: Text::Borrowed("age"),
//!         value: Datum::U8(age),
//!     };
//!     let fields = vec![in alloc; name, age]?;
//!     Ok(Datum::Struct {
//!         name: Text::Borrowed("Person"),
//!         fields,
//!     })
//! }
//!
//! /// The bytes of the document that a person is written as.
//! pub fn person_bytes(alloc: Global, name: &str, age: u8) -> ser::Result<Vec<u8>> {
//!     let person = person(alloc, name, age)?;
//!     to_vec_at(alloc, &person)
//! }
//!
//! /// The same document in memory.
//! pub fn person_document(alloc: Global, name: &str, age: u8) -> ser::Result<Document> {
//!     let person = person(alloc, name, age)?;
//!     to_document_at(alloc, &person)
//! }
//! ```
//!
//! # Writing part by part
//!
//! A document or an array is written without a `Datum` of the whole: `DocumentWriter` appends its parts to an `Out` as they are given, `VariantWriter` those of a
//! variant, and `ValueWriter` a value that serde's data model lacks, by the fields of its struct. `Serializer` makes trees so. Each part is refused as it would be in the
//! whole value; behind a refusal the `Out` holds what it held before.
//!
//! `bson_example_values/src/parts.rt`:
//!
//! ```rust
//! use bson::{Bson, Datum, DocumentWriter, Out, Serializer, Steps, Tally, Text, ser};
//! use std::alloc::Global;
//!
//! /// The bytes of the document that a person is written as, field by field.
//! pub fn person_by_fields(alloc: Global, name: &str, age: u8) -> ser::Result<Vec<u8>> {
//!     let mut steps = Steps::<Tally>::new();
//!     let mut out = Out::new(alloc);
//!     let mut person = DocumentWriter::start(&mut out, false, false, &mut steps)?;
//!     put(&mut person, "name", text(name), &mut steps)?;
//!     put(&mut person, "age", Datum::U8(age), &mut steps)?;
//!     person.end(&mut steps)?;
//!     Ok(out.into_vec())
//! }
//!
//! /// Writes a field behind those before it.
//! fn put(
//!     person: &mut DocumentWriter<'_>,
//!     name: &str,
//!     value: Datum<'_>,
//!     steps: &mut Steps<Tally>,
//! ) -> ser::Result<()> {
//!     person.entry(&text(name), &value, steps)
//! }
//!
//! /// The same document in memory.
//! pub fn person_tree_by_fields(alloc: Global, name: &str, age: u8) -> ser::Result<Bson> {
//!     let mut person = Serializer::new().serialize_struct(alloc);
//!     person.serialize_field("name", &text(name))?;
//!     person.serialize_field("age", &Datum::U8(age))?;
//!     person.end()
//! }
//!
//! /// A text as a value, borrowed.
//! fn text(text: &str) -> Datum<'_> {
//!     Datum::Str(Text::Borrowed(text))
//! }
//! ```
//!
//! # Reading and writing at once
//!
//! `recast` reads a document at a shape and writes it again: fields that the shape lacks are left out, and numbers get the kinds that the shape asks for. What it
//! returns is returned as it is when it is recast at the same shape again, unless the shape depends on whether the reader is human.
//!
//! `bson_examples/src/recasting.rt`:
//!
//! ```rust
//! ghost use Rattle.std.specs.Prelude.{◌≡◌, IfOk};
//! ghost use Rattle.bson.specs.Recast.{recast_of, writes};
//! ghost use Rattle.bson.specs.Text.{Bytes};
//!
//! use bson::{RecastError, Shape, recast};
//! use std::alloc::{AllocError, Global};
//!
//! /// A document as it is written at a new shape, or as it was where it is refused there.
//! pub fn upgraded(alloc: Global, shape: &Shape, bytes: &[u8]) -> Result<Vec<u8>, AllocError>
//!     ensures written { (out : Bytes) → recast_of shape.now bytes.now ≡ writes out → IfOk result (λ v. v.items ≡ out) }
//! {
//!     match recast(alloc, shape, bytes) {
//!         Ok(written) => Ok(written),
//!         Err(RecastError::NoMemory) => Err(AllocError),
//!         Err(RecastError::Read(_)) | Err(RecastError::Write(_)) => bytes.to_vec(alloc),
//!     }
//! }
//! ```
//!
//! # Trees
//!
//! A `Bson` is a value of any kind and owns what it holds; a `Document` is a list of pairs in order, in which each key appears once. `Document::to_vec` gives its
//! bytes, and `RawDocument::to_document` the document of bytes. `from_bson_at` and `from_document_at` read a tree at a shape; `read_value` reads one by the rules for bytes.
//!
//! `bson_example_values/src/trees.rt`:
//!
//! ```rust
//! ghost use Rattle.std.specs.Prelude.{◌≡◌, IfOk, Ok, codes, pos};
//! ghost use Rattle.bson.specs.BsonView.{pairs_of};
//! ghost use Rattle.bson.specs.Encoded.{encoded};
//! ghost use Rattle.bson.specs.Tree.{int32, no_pairs, pair, string};
//!
//! use bson::{Bson, Document, EncodeError, RawDocument, raw};
//! use std::alloc::{AllocError, Global};
//!
//! /// The document `{name: "Ada", age: 36}`.
//! pub fn ada(alloc: Global) -> Result<Document, AllocError>
//!     ensures pairs { IfOk result (λ d. pairs_of d ≡
//!         pair (codes "name") (string (codes "Ada")) (pair (codes "age") (int32 (pos 36)) no_pairs)) }
//! {
//!     let mut ada = Document::new(alloc);
//!     let name = Bson::String(String::from_str(alloc, "Ada")?);
//!     ada.insert(String::from_str(alloc, "name")?, name)?;
//!     ada.insert(String::from_str(alloc, "age")?, Bson::Int32(36))?;
//!     Ok(ada)
//! }
//!
//! /// The first key whose value is null.
//! pub fn first_null(document: &Document) -> Option<&str> {
//!     for (key, value) in document.iter() {
//!         if let Bson::Null = value {
//!             return Some(key.as_str());
//!         }
//!     }
//!     None
//! }
//!
//! /// The bytes of a document.
//! pub fn document_bytes(alloc: Global, document: &Document) -> Result<Vec<u8>, EncodeError>
//!     ensures encoded { IfOk result (λ v. encoded (pairs_of document.now) ≡ Ok v.items) }
//! {
//!     document.to_vec(alloc)
//! }
//!
//! /// The document of bytes.
//! pub fn document_of(alloc: Global, bytes: &[u8]) -> Result<Document, raw::Error> {
//!     RawDocument::from_bytes(bytes)?.to_document(alloc)
//! }
//! ```
//!
//! # Documents in their bytes
//!
//! A `RawDocument` borrows the bytes of a document. Its elements are looked at one after another, without a copy, and a fault is found where it is reached.
//! `document.get("milk")` looks for one key.
//!
//! `bson_examples/src/raw_documents.rt`:
//!
//! ```rust
//! ghost use Rattle.std.specs.Prelude.{IsOk, OnOk};
//! ghost use Rattle.bson.specs.Envelope.{envelope};
//!
//! use bson::{RawBsonRef, RawDocument, raw};
//!
//! /// The sum of the prices in the bytes of a document such as `{bread: 3, milk: 2}`.
//! pub fn total(bytes: &[u8]) -> Result<i64, raw::Error>
//!     ensures document { OnOk result (IsOk (envelope bytes.now)) }
//! {
//!     let document = RawDocument::from_bytes(bytes)?;
//!     let mut total: i64 = 0;
//!     for element in document.iter_elements() {
//!         match element?.value()? {
//!             RawBsonRef::Int32(price) => total = total.saturating_add(i64::from(price)),
//!             RawBsonRef::Int64(price) => total = total.saturating_add(price),
//!             _ => {}
//!         }
//!     }
//!     Ok(total)
//! }
//! ```
//!
//! # Files of documents
//!
//! `mongodump` writes files that have documents one after another. `RawDocuments` cuts such a file into documents; `migrate` recasts each of them, and lists those
//! that are refused.
//!
//! `bson_examples/src/files.rt`:
//!
//! ```rust
//! ghost use Rattle.std.specs.Prelude.{◌≡◌, [], IfOk};
//! ghost use Rattle.bson.specs.Migrating.{migrated, migration_of};
//! ghost use Rattle.bson.specs.Settled.{IsSettled};
//!
//! use bson::{MigrateError, RawDocuments, Shape, lines_of, migrate};
//! use std::alloc::Global;
//!
//! /// The bytes of the longest document of a file. An error is the place where the file is broken.
//! pub fn longest(file: &[u8]) -> Result<&[u8], usize> {
//!     let mut longest = b"".as_slice();
//!     for piece in RawDocuments::new(file) {
//!         let document = piece?;
//!         if document.len() > longest.len() {
//!             longest = document;
//!         }
//!     }
//!     Ok(longest)
//! }
//!
//! /// The documents of a file at a shape, and a line for each document that is refused there.
//! pub fn at_shape(
//!     alloc: Global,
//!     shape: &Shape,
//!     file: &[u8],
//! ) -> Result<(Vec<u8>, String), MigrateError>
//!     ensures again { IsSettled shape.now → IfOk result (λ r. migration_of shape.now r.0.items ≡ migrated r.0.items []) }
//! {
//!     let migration = migrate(alloc, shape, file)?;
//!     let lines = lines_of(alloc, &migration.refused)?;
//!     Ok((migration.output, lines))
//! }
//! ```
//!
//! # ObjectIds, dates and other values that serde's data model lacks
//!
//! They are structs of reserved names, such as `$oid` and `$date`, in reading and in writing. The functions of `data` make them, and `reserved::unwrap` returns
//! the value that one holds.
//!
//! `bson_example_values/src/extended.rt`:
//!
//! ```rust
//! use bson::reserved::{Accepted, unwrap};
//! use bson::{DateTime, Datum, ElementType, Field, ObjectId, Text, data};
//! use std::alloc::{AllocError, Global};
//!
//! /// The value of the document `{_id: ObjectId, at: DateTime}`.
//! pub fn event<'a>(alloc: Global, id: ObjectId, at: DateTime) -> Result<Datum<'a>, AllocError> {
//!     let id = Field {
//!         name: Text::Borrowed("_id"),
//!         value: data::object_id(alloc, &id.0)?,
//!     };
//!     let at = Field {
//!         name: Text::Borrowed("at"),
//!         value: data::date_time(alloc, at)?,
//!     };
//!     let fields = vec![in alloc; id, at]?;
//!     Ok(Datum::Struct {
//!         name: Text::Borrowed("Event"),
//!         fields,
//!     })
//! }
//!
//! /// The ObjectId of a value that was read at a shape such as `{_id:oid}`.
//! pub fn id_of(event: &Datum<'_>) -> Option<ObjectId> {
//!     let Datum::Struct { fields, .. } = event.field("_id")? else {
//!         return None;
//!     };
//!     match unwrap(ElementType::ObjectId, fields)? {
//!         Accepted::ObjectId(id) => Some(id),
//!         _ => None,
//!     }
//! }
//! ```
//!
//! # Errors and places
//!
//! A notation is refused at a byte of its text, a document at the path of a value. Printed, an error of a document has its path and its cause: `error at
//! people[1].age: invalid type: String`. Out of memory is a variant of its own, `NoMemory`, and has no place.
//!
//! `bson_examples/src/places.rt`:
//!
//! ```rust
//! use bson::{Segment, Shape, de, from_slice_at};
//! use std::alloc::{AllocError, Global};
//!
//! /// What is wrong with the notation of a shape or with a document, in one line; `None` where the document is read.
//! pub fn refusal(alloc: Global, notation: &str, bytes: &[u8]) -> Result<Option<String>, AllocError> {
//!     let shape = match Shape::parse(alloc, notation) {
//!         Ok(shape) => shape,
//!         Err(error) => {
//!             let Some(place) = error.place() else {
//!                 return Err(AllocError);
//!             };
//!             return Ok(Some(format!(in alloc; "byte {place}: {error}")?));
//!         }
//!     };
//!     match from_slice_at(alloc, &shape, bytes) {
//!         Ok(_) => Ok(None),
//!         Err(de::Error::NoMemory) => Err(AllocError),
//!         Err(error) => Ok(Some(format!(in alloc; "{error}")?)),
//!     }
//! }
//!
//! /// The first key on the way to a value that is refused, as `people` where the error prints `error at people[1].age: ..`.
//! pub fn refused_key(error: &de::Error) -> Option<&str> {
//!     let de::Error::WithPath { path, .. } = error else {
//!         return None;
//!     };
//!     match path.segments().first()? {
//!         Segment::Key(key) => Some(key.as_str()),
//!         Segment::Index(_) => None,
//!     }
//! }
//! ```
#![tactic(auto)]

pub mod laws;

pub use bson_base::Binary;
pub use bson_base::BinarySubtype;
pub use bson_base::Bson;
pub use bson_base::DateError;
pub use bson_base::DateTime;
pub use bson_base::DbPointer;
pub use bson_base::Decimal128;
pub use bson_base::Document;
pub use bson_base::Double;
pub use bson_base::EncodeError;
pub use bson_base::IntoIter;
pub use bson_base::Iter;
pub use bson_base::JavaScriptCodeWithScope;
pub use bson_base::KeySeed;
pub use bson_base::Keys;
pub use bson_base::NotDate;
pub use bson_base::NotHex;
pub use bson_base::NotUuid;
pub use bson_base::ObjectId;
pub use bson_base::Regex;
pub use bson_base::Timestamp;
pub use bson_base::Uuid;
pub use bson_base::integer_of_text;
pub use bson_base::subtype_of_text;
pub use bson_dates::date_of_text;
pub use bson_dates::date_text;
pub use bson_datum::Datum;
pub use bson_datum::Entry;
pub use bson_datum::Field;
pub use bson_datum::MAX_NESTING_LEVEL;
pub use bson_datum::RawArr;
pub use bson_datum::RawDoc;
pub use bson_de::read_value;
pub use bson_de_raw::from_slice_at;
pub use bson_de_raw::from_slice_utf8_lossy_at;
pub use bson_de_source::from_reader_at;
pub use bson_de_source::from_reader_utf8_lossy_at;
pub use bson_de_tree::Deserializer;
pub use bson_de_tree::DeserializerOptions;
pub use bson_de_tree::DeserializerOptionsBuilder;
pub use bson_de_tree::from_bson_at;
pub use bson_de_tree::from_bson_with_options_at;
pub use bson_de_tree::from_document_at;
pub use bson_de_tree::from_document_with_options_at;
pub use bson_evolve_check::CheckError;
pub use bson_evolve_check::Verdict;
pub use bson_evolve_check::check;
pub use bson_evolve_differences::Difference;
pub use bson_evolve_differences::Reason;
pub use bson_evolve_differences::differences;
pub use bson_evolve_run::CheckStatus;
pub use bson_evolve_run::run_check;
pub use bson_helpers::HumanReadable;
pub use bson_helpers::Utf8LossyDeserialization;
pub use bson_helpers::bson_datetime_as_rfc3339_string;
pub use bson_helpers::deserialize_bson_datetime_from_rfc3339_string;
pub use bson_helpers::deserialize_hex_string_from_object_id;
pub use bson_helpers::deserialize_i64_from_bson_datetime;
pub use bson_helpers::deserialize_rfc3339_string_from_bson_datetime;
pub use bson_helpers::deserialize_timestamp_from_u32;
pub use bson_helpers::deserialize_u32_from_timestamp;
pub use bson_helpers::hex_string_as_object_id;
pub use bson_helpers::i64_as_bson_datetime;
pub use bson_helpers::rfc3339_string_as_bson_datetime;
pub use bson_helpers::serialize_bson_datetime_as_rfc3339_string;
pub use bson_helpers::serialize_hex_string_as_object_id;
pub use bson_helpers::serialize_i64_as_bson_datetime;
pub use bson_helpers::serialize_object_id_as_hex_string;
pub use bson_helpers::serialize_rfc3339_string_as_bson_datetime;
pub use bson_helpers::serialize_timestamp_as_u32;
pub use bson_helpers::serialize_u32_as_i32;
pub use bson_helpers::serialize_u32_as_i64;
pub use bson_helpers::serialize_u32_as_timestamp;
pub use bson_helpers::serialize_u64_as_i32;
pub use bson_helpers::serialize_u64_as_i64;
pub use bson_helpers::timestamp_as_u32;
pub use bson_helpers::u32_as_timestamp;
pub use bson_infer_run::InferError;
pub use bson_infer_run::InferStatus;
pub use bson_infer_run::infer;
pub use bson_infer_run::run_infer;
pub use bson_io::Failed;
pub use bson_io::Ledger;
pub use bson_io::MOST;
pub use bson_io::MemorySink;
pub use bson_io::MemorySource;
pub use bson_io::Out;
pub use bson_io::ReadAdapter;
pub use bson_io::ReadFault;
pub use bson_io::Sink;
pub use bson_io::Source;
pub use bson_io::SteadySink;
pub use bson_io::SteadySource;
pub use bson_io::Steps;
pub use bson_io::Tally;
pub use bson_io::WriteAdapter;
pub use bson_io::read_to_end;
pub use bson_io::write_due;
pub use bson_kinds::ElementType;
pub use bson_kinds::reserved_kind;
pub use bson_met as met;
pub use bson_met::Met;
pub use bson_migrate_run::MigrateError;
pub use bson_migrate_run::MigrateStatus;
pub use bson_migrate_run::Migration;
pub use bson_migrate_run::Refused;
pub use bson_migrate_run::lines_of;
pub use bson_migrate_run::migrate;
pub use bson_migrate_run::run_migrate;
pub use bson_program::Answer;
pub use bson_program::Endings;
pub use bson_program::InputEndings;
pub use bson_program::finish;
pub use bson_program::read_input;
pub use bson_program::shape_of_word;
pub use bson_raw_builder::RawValue;
pub use bson_raw_builder::raw_from_bson;
pub use bson_raw_builder::raw_from_element;
pub use bson_rawdoc::RawArray;
pub use bson_rawdoc::RawArrayBuf;
pub use bson_rawdoc::RawBsonRef;
pub use bson_rawdoc::RawDocument;
pub use bson_rawdoc::RawDocumentBuf;
pub use bson_rawdoc::RawDocuments;
pub use bson_rawdoc::RawElement;
pub use bson_rawdoc::RawIter;
pub use bson_rawdoc::Unjudged;
pub use bson_rawdoc::raw;
pub use bson_recast_run::Status;
pub use bson_recast_run::run;
pub use bson_recasting::RecastError;
pub use bson_recasting::recast;
pub use bson_recasting::recast_by_tree;
pub use bson_recasting::recast_to_buf;
pub use bson_recasting::recast_utf8_lossy;
pub use bson_reserved as reserved;
pub use bson_ser_parts::DocumentWriter;
pub use bson_ser_parts::ValueWriter;
pub use bson_ser_parts::VariantWriter;
pub use bson_ser_stream::to_buf;
pub use bson_ser_stream::to_vec_at;
pub use bson_ser_stream::to_vec_counted;
pub use bson_ser_tree::ArraySerializer;
pub use bson_ser_tree::MapSerializer;
pub use bson_ser_tree::Serializer;
pub use bson_ser_tree::SerializerOptions;
pub use bson_ser_tree::SerializerOptionsBuilder;
pub use bson_ser_tree::StructSerializer;
pub use bson_ser_tree::StructVariantSerializer;
pub use bson_ser_tree::TupleSerializer;
pub use bson_ser_tree::TupleStructSerializer;
pub use bson_ser_tree::TupleVariantSerializer;
pub use bson_ser_tree::to_bson_at;
pub use bson_ser_tree::to_bson_with_options_at;
pub use bson_ser_tree::to_document_at;
pub use bson_ser_tree::to_document_with_options_at;
pub use bson_shape::FieldShape;
pub use bson_shape::Form;
pub use bson_shape::Leaf;
pub use bson_shape::Named;
pub use bson_shape::ParseError;
pub use bson_shape::Shape;
pub use bson_shape::ShapeError;
pub use bson_shape::VariantContent;
pub use bson_shape::VariantShape;
pub use bson_source::TakeFault;
pub use bson_source::take_document;
pub use bson_source::take_up_to;
pub use bson_structs::FieldShapes;
pub use bson_structs::StructFields;
pub use bson_structs::VariantShapes;
pub use bson_structs::add_field;
pub use bson_structs::is_unit_variant;
pub use bson_structs::newtype_value;
pub use bson_structs::newtype_variant;
pub use bson_structs::struct_datum;
pub use bson_structs::unit_variant;
pub use bson_typed_trees::from_bson;
pub use bson_typed_trees::from_bson_with_options;
pub use bson_typed_trees::from_document;
pub use bson_typed_trees::from_document_with_options;
pub use bson_typed_trees::to_bson;
pub use bson_typed_trees::to_bson_with_options;
pub use bson_typed_trees::to_document;
pub use bson_typed_trees::to_document_with_options;
pub use bson_types::Deserialize;
pub use bson_types::EqualByContents;
pub use bson_types::NeverNull;
pub use bson_types::RoundTrip;
pub use bson_types::Serialize;
pub use bson_types::from_reader;
pub use bson_types::from_reader_utf8_lossy;
pub use bson_types::from_slice;
pub use bson_types::from_slice_utf8_lossy;
pub use bson_types::not_fitting;
pub use bson_types::to_raw_document_buf;
pub use bson_types::to_vec;
pub use bson_values::ByteStr;
pub use bson_values::Cause;
pub use bson_values::Path;
pub use bson_values::Segment;
pub use bson_values::Stop;
pub use bson_values::Text;
pub use bson_values::Wrapper;
pub use bson_values::de;
pub use bson_values::ser;
pub use bson_wrapped::data;
