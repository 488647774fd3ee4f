ghost use Rattle.std.specs.Prelude.{◌≡◌, Some};
ghost use Rattle.bson_base.specs.Sound.{IsSound};
ghost use Rattle.bson_base.specs.Tree.{Tree, enc};
ghost use Rattle.bson_datum.specs.MarkedView.{marked};
ghost use Rattle.bson_values.specs.Value.{Value};
ghost use Rattle.bson_values.specs.Returned.{Reads};
ghost use Rattle.bson_shape.specs.Form.{no_fields};
ghost use Rattle.bson_laws.specs.Recursive.{FitsIn};
ghost use Rattle.bson_laws.specs.Means.{means, norm};
ghost use Rattle.bson_laws.specs.Plain.{IsPlain};
ghost use Rattle.bson_laws.specs.Reads.{reads_marked};
ghost use Rattle.bson_de_raw.specs.Gives.{GivesValue};
ghost use Rattle.bson_de_raw.specs.ReadsLossy.{reads_lossy_marked};

use bson_datum::{Datum, MAX_NESTING_LEVEL};
use bson_de::read_value;
use bson_met::Met;
use bson_rawdoc::RawDocument;
use bson_shape::Shape;
use bson_values::de;
use std::alloc::Global;

/// The value that the bytes of a document are at a shape, by serde's data model.
///
/// - `bool` takes a Boolean, `double` a Double, `unit` and a unit struct a Null. An integer type takes an Int32
///   or an Int64 whose number lies in its range.
/// - `char` takes a String of one character. `str` and `string` take a String, and a Binary of subtype 0
///   whose bytes are UTF-8.
/// - `bytes` and `bytebuf` take the bytes of a Binary of subtype 0 and those of a String; `bytes` also the
///   twelve of an ObjectId, and `bytebuf` an array of Int32 and Int64 whose numbers are bytes.
/// - `any` takes a Boolean, an Int32 as `i32`, an Int64 as `i64`, a Double, a String, a Binary of subtype 0, a
///   Null as the unit, an array as a sequence and a document as a map whose keys are texts, with the values
///   in them taken in the same way.
/// - A value of a kind that serde's data model lacks is taken as the document that it is opened to, at a struct, a map,
///   an enum and `any`: an ObjectId as `{"$oid": ..}` with its hexadecimal digits, a DateTime as
///   `{"$date": {"$numberLong": ..}}`, and so on for the other kinds, as in MongoDB's extended JSON, but for
///   `$numberDecimalBytes`, `subType` before `base64`, and the Int64s of `$timestamp`.
/// - `oid` takes an ObjectId, a String of 24 hexadecimal digits and a Binary of subtype 0 with twelve bytes;
///   `uuid` a Binary of subtype 4 with sixteen bytes and a String that is a UUID; `datetime`, `timestamp`,
///   `binary`, `regex`, `codews`, `decimal` and `dbpointer` the kind that they name; `bson` every value, and
///   `document` a document. A document with a wrapper key, as `$oid`, is taken there as the value that it
///   stands for. Each is the datum that `to_vec_at` writes as that value, and is owned.
/// - `rawdoc` takes a document and `rawarray` an array: each is its bytes, and what is in it is not looked at. `rawbson`
///   takes every value. A document and an array are their bytes there. Any other value is the datum that `to_vec_at`
///   writes as that value; a scope is its bytes, and the options of a RegularExpression stay as they are.
/// - `ignored` takes every value, and is the unit. The value is walked to its end, and so are every
///   document, array and scope in it.
/// - An option is none at a Null, and some value of its shape at every other kind. A newtype takes what its
///   shape takes.
/// - A sequence takes the elements of an array in order. The keys in an array are not looked at. A tuple and
///   a tuple struct take its first elements, one for each part at the part's shape; further ones stay unread.
/// - An enum takes a String that is the name of a unit variant, and a document whose first key is the name of a
///   variant with contents. The value under that key is its contents: at its shape for a newtype variant, as at a
///   tuple for a tuple variant, as at a struct for a struct variant. Further elements stay unread.
/// - A map takes the elements of a document. A key is taken as a String of its text would be. The entries
///   are in the order in which their keys came first; of a repeated key the last value stays.
/// - A struct takes each of its fields from the element of a document that has the field's name as its key,
///   in any order. A field that no element has is none where its shape is an option. Elements of other
///   keys are walked to their ends, those of every document, array and scope in them too, and dropped.
///   From an array a struct takes its fields in the shape's order, one element each; further elements
///   stay unread.
///
/// The texts at `str` and the byte strings at `bytes` are borrowed from the input, and so are all texts and byte
/// strings at `any` that are there, the keys of its maps included, and the keys of a map whose key is `str`. The
/// documents and arrays at `rawdoc`, `rawarray` and `rawbson` are borrowed, and so are the texts at `rawbson` and the bytes of
/// a Binary there. All others are owned, and so are the names of structs, fields and variants, which are those in the shape.
///
/// Keys in the shape's order are found at once. The first other key of a struct with sixteen or more
/// fields has the names put into a map, where it and each key after it that is not found at once is
/// looked up. In a smaller struct, and where the memory for the map is refused, such keys are found by a
/// scan over the names. The first eight keys of a map are looked up by a scan, and with more of them all
/// are put into a map.
///
/// # Errors
///
/// - `DeserializationError` with `Raw`, without a path, exactly where the envelope refuses the bytes:
///   they are fewer than five, they announce another length than theirs, or the last is not zero.
/// - `WithPath` round `EndOfStream`, with its path, where the first refusal is an empty document at an enum.
/// - `WithPath` round a `DeserializationError`, with the path of the value that is refused: the keys and
///   the indexes that lead to it. The path of the document itself is empty. A value in the scope of a
///   code has `$scope` behind the code's own path. The key of a map has the map's own path. The first
///   refusal in the order of the bytes is returned, and its cause is one of these.
///   - `Raw`: a fault of the bytes, before any shape looks at the value.
///   - `TooDeep`: a document, an array or a scope at level 201.
///   - `InvalidType`: a value of another kind than the shape takes, as an array at a closed struct; at `document` one that is no document
///     as a tree, and for code with scope a scope that is none.
///   - `OutOfRange`: a number that does not lie in the range of the shape's integer type, or one in an array
///     at `bytebuf` that is no byte.
///   - `NotOneChar`: at `char` a String or a key of no character or of more than one.
///   - `NotUtf8`: at `str` and `string` a Binary of subtype 0 whose bytes are not UTF-8.
///   - `NotBorrowed`: at `str` and `bytes` a text, a key or a byte string that is not in the input, as the digits
///     of an ObjectId that is opened; at `rawdoc` and `rawbson` a document that is not in the input, as the one inside the
///     document that a DateTime is opened to.
///   - `InvalidLength`: at a struct that is not closed, a tuple, a tuple struct and the contents of a tuple or a struct variant an
///     array of so many elements, which are fewer than its fields or parts; at `oid` a Binary of subtype 0 that has not
///     twelve bytes, and at `uuid` a Binary of subtype 4 that has not sixteen.
///   - `UnknownVariant`: at an enum a String, a key of a map or a first key that is the name of no variant.
///   - `ContentsWanted`: at an enum a String that is the name of a variant with contents.
///   - `UnitInDocument`: at an enum a first key that is the name of a unit variant.
///   - `DuplicateField`: a second element of a field; its value is not looked at.
///   - `MissingField`: at the end of a document, the first field in the shape's order that is no option
///     and has no element; `$code`, at the end of a document whose first wrapper key is `$scope`.
///   - `BadBody`: the value of a wrapper key, or a String at `oid` or `uuid`, stands for nothing.
///   - `UnknownField`: at a closed struct a key that is the name of none of its fields; its value is not looked at. Behind `$code` or
///     `$scope`, as the first wrapper key of a document, a key that is not the other of the two.
///   - `UnknownReference`: at a reference whose name the innermost definitions around it lack.
///   - `WrongKind`: at the shape of an extended kind, what was read as a tree is of another kind than the shape takes, or,
///     at `uuid`, a binary that is no UUID.
///   - `Subtype`: at `uuid` a Binary of this subtype, which is not 4.
/// - `NoMemory` where memory ran out.
pub fn from_slice_at<'de>(alloc: Global, shape: &Shape, bytes: &'de [u8]) -> de::Result<Datum<'de>>
    // The value, and which of its texts and byte strings are borrowed.
    ensures exact { Reads marked result (reads_marked shape.now bytes.now) }
    // The document that a value of a plain shape means is read back as the normal form of the value.
    ensures read_back { (v : Value) (t : Tree) → IsPlain shape.now → FitsIn no_fields v shape.now → means v ≡ Some t → IsSound t
        → bytes.now ≡ enc t → GivesValue (norm v) result }
{
    shape.known();
    read_document(alloc, shape, bytes)
}

/// `from_slice_at`, but for its promise on what is read back.
#[tactic(auto, using(crate::proofs::Documents::frame_refused))]
fn read_document<'de>(alloc: Global, shape: &Shape, bytes: &'de [u8]) -> de::Result<Datum<'de>>
    ensures exact { Reads marked result (reads_marked shape.now bytes.now) }
{
    let document = RawDocument::from_bytes(bytes)?;
    match read_value(alloc, shape, &Met::of_document(MAX_NESTING_LEVEL, document)) {
        Ok(value) => Ok(value),
        Err(stop) => Err(de::Error::from_stop(alloc, stop)),
    }
}

/// The value that the bytes of a document are at a shape, where its texts are mended.
///
/// It reads as [`from_slice_at`] does, with two exceptions:
///
/// - Each String, JavaScriptCode, Symbol and namespace of a DbPointer, the two texts of a RegularExpression and the code of a JavaScriptCodeWithScope are
///   mended: U+FFFD stands for each ill-formed sequence, as `String::from_utf8_lossy` writes it. Keys are not mended: one that is not UTF-8 is refused.
/// - No text and no key is borrowed, and a Binary is borrowed at `bytes` and `rawbson` alone. All others are owned, also at
///   `any`. A document or an array in its bytes is borrowed, and nothing in it is mended.
///
/// # Errors
///
/// Those of [`from_slice_at`], with two exceptions: no value of these kinds is refused for a text that is not UTF-8, and `NotBorrowed` comes at `str` for every
/// text, key and byte string that it takes, and at `bytes` for every text.
#[tactic(auto, using(crate::proofs::Documents::frame_refused))]
pub fn from_slice_utf8_lossy_at<'de>(
    alloc: Global,
    shape: &Shape,
    bytes: &'de [u8],
) -> de::Result<Datum<'de>>
    // The value, and which of its texts and byte strings are borrowed.
    ensures exact { Reads marked result (reads_lossy_marked shape.now bytes.now) }
{
    let document = RawDocument::from_bytes(bytes)?;
    let document = Met::of_document(MAX_NESTING_LEVEL, document);
    match read_value(alloc, shape, &document.mended()) {
        Ok(value) => Ok(value),
        Err(stop) => Err(de::Error::from_stop(alloc, stop)),
    }
}
