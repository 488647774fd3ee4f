// Values as trees.
ghost use Rattle.std.specs.Prelude.{◌≡◌, string_bytes};
ghost use Rattle.bson_base.specs.Tree.{Pairs, no_pairs};
ghost use Rattle.bson_kinds.specs.Piece.{made};
ghost use Rattle.bson_datum.specs.MarkedView.{marked};
ghost use Rattle.bson_laws.specs.Datum.{pair_data};
ghost use Rattle.bson_met.specs.Gives.{Reaches};
ghost use Rattle.bson_met.specs.OpenedView.{extended_view};
ghost use Rattle.bson_met.specs.PieceView.{str_piece};
ghost use Rattle.bson_texts.specs.ListsMarked.{entries_marked, items_marked};
ghost use Rattle.bson_trees.specs.Trees.{tree_at, tree_under, items_from, elements_from, wrapped_at, code_from, scope_from, entries_at, scope_at, extended_at};

use crate::maps::entries_of;
use crate::scalars::{extended_scalar, text_under};
use bson_datum::{Datum, Entry};
use bson_leaves::Entries;
use bson_met::{Elements, Extended, Items, Met, Reading, Step, Value, refused};
use bson_shape::{Form, Leaf};
use bson_values::{Cause, Text, Wrapper};
use bson_wrapped::{data, read_body};
use std::alloc::Global;

/// The key of the code in a document that stands for code with a scope.
const CODE_KEY: &str = "$code";

/// The key of its scope.
const SCOPE_KEY: &str = "$scope";

/// A value as a tree, given as data. A document with a wrapper key is the value that the key stands for.
#[cycle(tree)]
pub(crate) fn read_tree<'de>(alloc: Global, value: &Met<'de>) -> Reading<Datum<'de>>
    ensures exact { Reaches marked result (tree_at value.now) }
{
    match value.judge(alloc)? {
        Value::Boolean(boolean) => Ok(Datum::Bool(boolean)),
        Value::Int32(number) => Ok(Datum::I32(number)),
        Value::Int64(number) => Ok(Datum::I64(number)),
        Value::Double(double) => Ok(Datum::Double(double)),
        Value::String(text) => Ok(Datum::Str(Text::Owned(text.to_string(alloc)?))),
        Value::Bytes(bytes) => Ok(data::bytes(alloc, bytes.bytes)?),
        Value::Null => Ok(Datum::Unit),
        Value::Array(array) => Ok(Datum::Seq(read_items(alloc, Items::of_array(array))?)),
        Value::Document(document) => read_elements(alloc, Elements::of_document(document)),
        Value::Extended(value) => read_extended_value(alloc, value),
    }
}

/// The values of an array.
#[cycle(tree)]
fn read_items<'de>(alloc: Global, mut elements: Items<'de>) -> Reading<Vec<Datum<'de>>>
    ensures exact { Reaches (λ v. items_marked v.items) result (items_from elements.entry) }
{
    let mut items = Vec::new(alloc);
    let mut index = 0;
    let mut item = elements.start();
    'step: while elements.advance(alloc, &mut item)? {
        match read_tree(alloc, &item) {
            Ok(value) => items.push(value)?,
            Err(stop) => return Err(stop.under_index(index)),
        }
        index += 1;
    }
    Ok(items)
}

/// The value that the elements of a document are: a document of them, or, with a wrapper key among them, what the first such key stands for.
#[cycle(tree)]
pub(crate) fn read_elements<'de>(alloc: Global, mut elements: Elements<'de>) -> Reading<Datum<'de>>
    ensures exact { Reaches marked result (elements_from elements.entry no_pairs) }
{
    let mut entries = Entries::new(alloc, Form::Leaf(Leaf::String));
    let mut step = elements.start();
    'step: while elements.advance(alloc, &mut step)? {
        if let Some(wrapper) = Wrapper::from_key(step.key.text) {
            return read_wrapped(alloc, wrapper, &step, elements);
        }
        let key = String::from_str(alloc, step.key.text)?;
        let value = read_under(alloc, &step)?;
        entries.put(step.key.text, Datum::Str(Text::Owned(key)), value)?;
    }
    Ok(Datum::Map(entries.finish()))
}

/// The value of an element, seen from its document.
#[cycle(tree)]
pub(crate) fn read_under<'de>(alloc: Global, step: &Step<'de>) -> Reading<Datum<'de>>
    ensures exact { Reaches marked result (tree_under (str_piece step.now.key).bytes step.now.value) }
{
    match read_tree(alloc, &step.value) {
        Ok(value) => Ok(value),
        Err(stop) => Err(stop.under_key(step.key.text)),
    }
}

/// What a wrapper key stands for, with the elements behind it.
#[cycle(tree)]
pub(crate) fn read_wrapped<'de>(
    alloc: Global,
    wrapper: Wrapper,
    step: &Step<'de>,
    rest: Elements<'de>,
) -> Reading<Datum<'de>>
    ensures exact { Reaches marked result
        (wrapped_at wrapper (str_piece step.now.key).bytes step.now.value rest.entry) }
{
    match wrapper {
        Wrapper::Code => {
            let code = text_under(alloc, step)?;
            after_code(alloc, code, rest)
        }
        Wrapper::Scope => {
            let scope = read_scope(alloc, step.key.text, &step.value)?;
            after_scope(alloc, scope, rest)
        }
        other => read_body(alloc, other, step),
    }
}

/// A code, after whose text these elements come: nothing, or its scope.
#[cycle(tree)]
fn after_code<'de>(alloc: Global, code: String, mut rest: Elements<'de>) -> Reading<Datum<'de>>
    ensures exact { Reaches marked result (code_from (string_bytes code) rest.entry) }
{
    let mut step = rest.start();
    if !rest.advance(alloc, &mut step)? {
        return Ok(data::code(alloc, code)?);
    }
    let key = step.key.text;
    if key == SCOPE_KEY {
        let scope = read_scope(alloc, key, &step.value)?;
        return Ok(data::scoped_code(alloc, code, scope)?);
    }
    let cause = Cause::UnknownField(String::from_str(alloc, key)?);
    Err(refused(alloc, cause))
}

/// A code with a scope, behind whose entries these elements come: its text.
fn after_scope<'de>(
    alloc: Global,
    scope: Vec<Entry<'de>>,
    mut rest: Elements<'_>,
) -> Reading<Datum<'de>>
    ensures exact { (ps : Pairs) → entries_marked scope.entry.items ≡ pair_data made ps
        → Reaches marked result (scope_from ps rest.entry) }
{
    let mut step = rest.start();
    if !rest.advance(alloc, &mut step)? {
        let cause = Cause::MissingField(String::from_str(alloc, CODE_KEY)?);
        return Err(refused(alloc, cause));
    }
    let key = step.key.text;
    if key != CODE_KEY {
        let cause = Cause::UnknownField(String::from_str(alloc, key)?);
        return Err(refused(alloc, cause));
    }
    let code = text_under(alloc, &step)?;
    Ok(data::scoped_code(alloc, code, scope)?)
}

/// The entries of a scope, which is the value at this key.
#[cycle(tree)]
fn read_scope<'de>(alloc: Global, key: &str, value: &Met<'de>) -> Reading<Vec<Entry<'de>>>
    ensures exact { Reaches (λ v. entries_marked v.items) result (scope_at key.now value.now) }
{
    match read_entries(alloc, value) {
        Ok(entries) => Ok(entries),
        Err(stop) => Err(stop.under_key(key)),
    }
}

/// The entries of a value that is a document as a tree.
#[cycle(tree)]
pub(crate) fn read_entries<'de>(alloc: Global, value: &Met<'de>) -> Reading<Vec<Entry<'de>>>
    ensures exact { Reaches (λ v. entries_marked v.items) result (entries_at value.now) }
{
    let value = read_tree(alloc, value)?;
    entries_of(alloc, value)
}

/// A value of a kind that serde's data model lacks.
#[cycle(tree)]
fn read_extended_value<'de>(alloc: Global, value: Extended<'de>) -> Reading<Datum<'de>>
    ensures exact { Reaches marked result (extended_at (extended_view value.entry)) }
{
    let Extended::JavaScriptCodeWithScope(code, scope) = value else {
        return Ok(extended_scalar(alloc, value)?);
    };
    let scope = read_scope(alloc, SCOPE_KEY, &Met::of_scope(scope))?;
    let code = code.to_string(alloc)?;
    Ok(data::scoped_code(alloc, code, scope)?)
}
