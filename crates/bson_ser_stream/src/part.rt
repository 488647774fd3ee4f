// Parts of a document that are appended one by one: an entry of a map, and a field of a struct.
ghost use Rattle.std.specs.Prelude.{◌+◌, length};
ghost use Rattle.bson_datum.specs.View.{view};
ghost use Rattle.bson_laws.specs.Means.{key_text};
ghost use Rattle.bson_laws.specs.Spell.{spell_key, spell_as, named, key_size, size_as};
ghost use Rattle.bson_ser_stream.specs.Writing.{with_entry, with_element, places, count_of};
ghost use Rattle.bson_ser_stream.specs.Halting.{PutsParts};

use crate::value::{Contents, put_named, put_under_key};
use bson_datum::Datum;
use bson_io::{Ledger, Out, Steps};
use bson_values::Text;
use bson_writing::{Halt, written_key};

/// Appends the element of an entry of a map, with so many levels of documents and arrays left for its value. The key is judged before the value.
///
/// # Errors
///
/// The refusal of the key or of the value, with its path from the map on, or that memory ran out. What was appended before stays in `out`.
pub fn put_map_entry<L: Ledger>(
    out: &mut Out,
    steps: &mut Steps<L>,
    key: &Datum<'_>,
    value: &Datum<'_>,
    readable: bool,
    levels: u32,
) -> Result<(), Halt>
    ensures { let key = view key.now in let value = view value.now in
        PutsParts (key_size (key_text key) + 2 + size_as readable value) (count_of places (spell_as readable value levels) + 1) (with_entry out.old.bytes (spell_key key) (spell_as readable value levels))
        out.old out.new steps.old steps.new result }
{
    let key = written_key(out.allocator(), key)?;
    put_under_key(out, steps, key, Contents::Value(value), readable, levels)
}

/// Appends the element of a field of a struct, with so many levels of documents and arrays left for its value. The name is judged before the value.
///
/// # Errors
///
/// The refusal of the name or of the value, with its path from the struct on, or that memory ran out. What was appended before stays in `out`.
pub fn put_struct_field<L: Ledger>(
    out: &mut Out,
    steps: &mut Steps<L>,
    name: &str,
    value: &Datum<'_>,
    readable: bool,
    levels: u32,
) -> Result<(), Halt>
    ensures { let value = view value.now in
        PutsParts (length name.now + 2 + size_as readable value) (count_of places (spell_as readable value levels) + 1) (with_element out.old.bytes name.now (named name.now (spell_as readable value levels)))
        out.old out.new steps.old steps.new result }
{
    put_named(
        out,
        steps,
        &Text::Borrowed(name),
        Contents::Value(value),
        readable,
        levels,
    )
}
