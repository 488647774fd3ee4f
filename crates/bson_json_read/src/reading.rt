// The values that JSON values stand for.
ghost use Rattle.std.specs.Prelude.{◌≡◌, IfOk};
ghost use Rattle.json.specs.Json.{object};
ghost use Rattle.json.specs.Value.{value_view, items_view, members_view};
ghost use Rattle.bson_base.specs.BsonView.{tree_of, trees_of, pairs_of};
ghost use Rattle.bson_base.specs.Pairs.{put};
ghost use Rattle.bson_base.specs.Tree as trees;
ghost use Rattle.bson_base.specs.Tree.{no_pairs};
ghost use Rattle.bson_values.specs.Refusal.{under, under_index};
ghost use Rattle.bson_json_laws.specs.FailureView.{unread};
ghost use Rattle.bson_json_laws.specs.Gives.{Reaches};
ghost use Rattle.bson_json_laws.specs.Read as spec;

use crate::numbers::read_number;
use crate::refused::{Reading, refused};
use crate::wrapped::settled;
use bson_base::{Bson, Document, KeySeed};
use bson_json_laws::JsonFault;
use json::Value;
use std::alloc::{AllocError, Global};

// A value.
#[cycle(read)]
#[tactic(auto, using(crate::proofs::Viewed::view_null, crate::proofs::Viewed::view_bool, crate::proofs::Viewed::view_number, crate::proofs::Viewed::view_string, crate::proofs::Viewed::view_array, crate::proofs::Viewed::view_object, crate::proofs::Viewed::array_read, crate::proofs::Viewed::object_read))]
pub(crate) fn read_value(alloc: Global, seed: KeySeed, value: &Value<'_>) -> Reading<Bson>
    ensures { Reaches tree_of unread result (spec.read (value_view value.now)) }
{
    match value {
        Value::Null => Ok(Bson::Null),
        Value::Bool(truth) => Ok(Bson::Boolean(*truth)),
        Value::Number(text) => read_number(alloc, text),
        Value::String(text) => Ok(Bson::String(String::from_str(alloc, text)?)),
        Value::Array(items) => Ok(array(read_items(alloc, seed, items)?)),
        Value::Object(members) => read_object(alloc, seed, members),
    }
}

// An array of these values.
#[tactic(auto, using(bson_base::proofs::Rows::row_items))]
fn array(values: Vec<Bson>) -> Bson
    ensures { tree_of result ≡ trees.array (trees_of values.items) }
{
    Bson::Array(values)
}

// The values of an array.
#[cycle(read)]
fn read_items(alloc: Global, seed: KeySeed, items: &[Value<'_>]) -> Reading<Vec<Bson>>
    ensures { Reaches (λ v. trees_of v.items) unread result (spec.read_items 0 (items_view items.now)) }
{
    let mut values = Vec::new(alloc);
    for (index, item) in items.iter().enumerate() {
        values.push(read_item(alloc, seed, index as u64, item)?)?;
    }
    Ok(values)
}

// A value at an index, seen from its array.
#[cycle(read)]
fn read_item(alloc: Global, seed: KeySeed, index: u64, item: &Value<'_>) -> Reading<Bson>
    ensures { Reaches tree_of unread result (under_index index (spec.read (value_view item.now))) }
{
    match read_value(alloc, seed, item) {
        Ok(value) => Ok(value),
        Err(stop) => Err(stop.under_index(index)),
    }
}

// What an object stands for.
#[cycle(read)]
fn read_object(alloc: Global, seed: KeySeed, members: &[(&str, Value<'_>)]) -> Reading<Bson>
    ensures { Reaches tree_of unread result (spec.read (object (members_view members.now))) }
{
    settled(alloc, read_members(alloc, seed, members)?)
}

// The members of an object.
#[cycle(read)]
fn read_members(alloc: Global, seed: KeySeed, members: &[(&str, Value<'_>)]) -> Reading<Document>
    ensures { Reaches pairs_of unread result (spec.read_members (members_view members.now) no_pairs) }
{
    let mut document = Document::with_seed(alloc, seed);
    for member in members {
        check_new(alloc, member.0, &document)?;
        let value = read_member(alloc, seed, member.0, &member.1)?;
        insert(&mut document, alloc, member.0, value)?;
    }
    Ok(document)
}

// A key is not among those that are done.
fn check_new(alloc: Global, key: &str, done: &Document) -> Reading<()>
    ensures { Reaches (λ _. pairs_of done.now) unread result (spec.without_key key.now (pairs_of done.now)) }
{
    if done.contains_key(key) {
        return Err(refused(alloc, JsonFault::KeyTwice).under_key(key));
    }
    Ok(())
}

// A value at a key, seen from its object.
#[cycle(read)]
fn read_member(alloc: Global, seed: KeySeed, key: &str, value: &Value<'_>) -> Reading<Bson>
    ensures { Reaches tree_of unread result (under key.now (spec.read (value_view value.now))) }
{
    match read_value(alloc, seed, value) {
        Ok(value) => Ok(value),
        Err(stop) => Err(stop.under_key(key)),
    }
}

// One more pair.
fn insert(document: &mut Document, alloc: Global, key: &str, value: Bson) -> Result<(), AllocError>
    ensures { IfOk result (λ _. pairs_of document.new ≡ put key.now (tree_of value) (pairs_of document.old)) }
{
    document.insert(String::from_str(alloc, key)?, value)?;
    Ok(())
}
