// UUIDs.
ghost use Rattle.std.specs.Prelude.{◌≡◌, false};
ghost use Rattle.uuid.specs.Text.{parsed};
ghost use Rattle.bson_base.specs.Tree as tree;
ghost use Rattle.bson_base.specs.Tree.{no_pairs};
ghost use Rattle.bson_values.specs.Cause as cause;
ghost use Rattle.bson_values.specs.ErrorView.{read_fault};
ghost use Rattle.bson_datum.specs.MarkedView.{marked};
ghost use Rattle.bson_values.specs.Stop.{stop_view};
ghost use Rattle.bson_values.specs.Value.{kind_of};
ghost use Rattle.bson_datum.specs.View.{view};
ghost use Rattle.bson_laws.specs.ReadsExtended as laws;
ghost use Rattle.bson_met.specs.Gives.{Reaches, IsRefusedOrNoMemory};
ghost use Rattle.bson_met.specs.PieceView.{met_text, str_piece};
ghost use Rattle.bson_trees.specs.Leaves.{uuid_from, uuid_datum_from, uuid_elements, uuid_wrapped, makes_binary, tree_passed};

use crate::trees::{read_under, read_wrapped};
use bson_base::{BinarySubtype, Uuid};
use bson_datum::Datum;
use bson_kinds::ElementType;
use bson_met::{Elements, Extended, Met, MetText, Reading, Step, Value, refused};
use bson_values::{Cause, Stop, Wrapper, de};
use bson_wrapped::{data, read_binary, read_uuid};
use std::alloc::Global;

/// The subtype of a binary that is a UUID.
const UUID_SUBTYPE: u8 = 4;

/// A UUID: a binary of subtype 4, its text, or a document that stands for a binary.
pub(crate) fn uuid<'de>(alloc: Global, value: &Met<'de>) -> Reading<Datum<'de>>
    ensures exact { Reaches marked result (uuid_datum_from value.now) }
{
    let id = id_of(alloc, value)?;
    Ok(data::uuid(alloc, id)?)
}

/// The UUID itself.
fn id_of(alloc: Global, value: &Met<'_>) -> Reading<Uuid>
    ensures exact { Reaches (λ id. id.0) result (uuid_from value.now) }
{
    match value.judge(alloc)? {
        Value::Bytes(_) => Err(refused(alloc, Cause::Subtype(0))),
        Value::Extended(Extended::Binary(subtype, bytes)) => {
            if subtype.0 == UUID_SUBTYPE {
                return id_of_bytes(alloc, bytes.bytes);
            }
            Err(refused(alloc, Cause::Subtype(subtype.0)))
        }
        Value::String(text) => id_of_text(alloc, text),
        Value::Document(document) => id_in(alloc, Elements::of_document(document)),
        other => Err(refused(alloc, Cause::InvalidType(other.kind()))),
    }
}

/// The UUID of sixteen bytes.
fn id_of_bytes(alloc: Global, id: &[u8]) -> Reading<Uuid>
    ensures exact { Reaches (λ id. id.0) result (laws.with_length 16 id.now) }
{
    match <[u8; 16]>::try_from(id) {
        Ok(id) => Ok(Uuid(id)),
        Err(_) => Err(refused(alloc, Cause::InvalidLength(id.len() as u64))),
    }
}

/// The UUID of a text.
fn id_of_text(alloc: Global, text: MetText<'_>) -> Reading<Uuid>
    ensures exact { Reaches (λ id. id.0) result (laws.or_bad_uuid (parsed (met_text text.entry).bytes)) }
{
    let text = text.to_text(alloc)?;
    match Uuid::parse_str(text.as_str()) {
        Ok(id) => Ok(id),
        Err(_) => Err(refused(alloc, Cause::BadBody(Wrapper::Uuid))),
    }
}

/// The UUID that a document with these elements stands for. The value of each other key is read as a tree, and dropped.
fn id_in(alloc: Global, mut elements: Elements<'_>) -> Reading<Uuid>
    ensures exact { Reaches (λ id. id.0) result (uuid_elements elements.entry no_pairs) }
{
    let mut step = elements.start();
    'step: while elements.advance(alloc, &mut step)? {
        if let Some(wrapper) = Wrapper::from_key(step.key.text) {
            return wrapped_id(alloc, wrapper, &step, elements);
        }
        pass_tree(alloc, &step)?;
    }
    Err(refused(alloc, Cause::WrongKind(ElementType::EmbeddedDocument)))
}

/// Reads the value of an element as a tree, seen from its document, and drops it.
fn pass_tree(alloc: Global, step: &Step<'_>) -> Reading<()>
    ensures exact { Reaches (λ u. u) result (tree_passed (str_piece step.now.key).bytes step.now.value) }
{
    drop(read_under(alloc, step)?);
    Ok(())
}

/// The UUID that a wrapper key stands for, with the elements behind it.
fn wrapped_id<'de>(
    alloc: Global,
    wrapper: Wrapper,
    step: &Step<'de>,
    rest: Elements<'de>,
) -> Reading<Uuid>
    ensures exact { Reaches (λ id. id.0) result
        (uuid_wrapped wrapper (str_piece step.now.key).bytes step.now.value rest.entry) }
{
    match wrapper {
        Wrapper::Binary => {
            let (subtype, content) = read_binary(alloc, step)?;
            id_of_binary(alloc, subtype, &content)
        }
        Wrapper::Uuid => {
            let id = read_uuid(alloc, step)?;
            id_of_binary(alloc, BinarySubtype(UUID_SUBTYPE), &id.0)
        }
        other => not_binary(alloc, other, step, rest),
    }
}

/// The refusal of another wrapper key, with the elements behind it.
fn not_binary<'de>(
    alloc: Global,
    wrapper: Wrapper,
    step: &Step<'de>,
    rest: Elements<'de>,
) -> Reading<Uuid>
    requires other { makes_binary wrapper ≡ false }
    ensures exact { Reaches (λ id. id.0) result
        (uuid_wrapped wrapper (str_piece step.now.key).bytes step.now.value rest.entry) }
{
    let value = read_wrapped(alloc, wrapper, step, rest)?;
    Err(wrong_kind(alloc, value))
}

/// The refusal of a value that is no binary.
#[cold]
#[inline(never)]
fn wrong_kind(alloc: Global, value: Datum<'_>) -> Stop<de::Fault>
    ensures here { IsRefusedOrNoMemory (cause.wrong_kind (kind_of (view value.entry))) (stop_view read_fault result) }
{
    let kind = value.element_type();
    drop(value);
    refused(alloc, Cause::WrongKind(kind))
}

/// The UUID of a binary in a document, which may also be of subtype 0.
fn id_of_binary(alloc: Global, subtype: BinarySubtype, content: &[u8]) -> Reading<Uuid>
    ensures exact { Reaches (λ id. id.0) result (laws.uuid_in (tree.binary subtype.0 content.now)) }
{
    if subtype.0 == 0 || subtype.0 == UUID_SUBTYPE {
        if let Ok(id) = <[u8; 16]>::try_from(content) {
            return Ok(Uuid(id));
        }
    }
    Err(refused(alloc, Cause::WrongKind(ElementType::Binary)))
}
