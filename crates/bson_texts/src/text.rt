// Texts, and characters.
ghost use Rattle.std.specs.Prelude.{◌≡◌, true, false, string_bytes};
ghost use Rattle.std.specs.Str.{chars};
ghost use Rattle.bson_kinds.specs.Piece.{borrowed, made};
ghost use Rattle.bson_datum.specs.MarkedView.{marked};
ghost use Rattle.bson_laws.specs.Taken.{read_character};
ghost use Rattle.bson_laws.specs.Views as views;
ghost use Rattle.bson_met.specs.Gives.{Reaches};
ghost use Rattle.bson_met.specs.PieceView.{met_bytes};
ghost use Rattle.bson_texts.specs.Leaves.{text_at, borrowed_text, owned_text, character_at};

use bson_datum::Datum;
use bson_met::{Met, MetBytes, Reading, Scalar, Value, refused};
use bson_values::Cause;
use std::alloc::Global;

/// The text that a value is, borrowed.
pub fn borrow_text<'de>(alloc: Global, value: &Met<'de>) -> Reading<&'de str>
    ensures { Reaches (λ t. borrowed t.now) result (text_at true value.now) }
{
    match value.scalar(alloc)? {
        Scalar::String(text) => Ok(text),
        _ => borrow_other_text(alloc, value),
    }
}

/// The same, wherever the value comes from.
#[inline(never)]
fn borrow_other_text<'de>(alloc: Global, value: &Met<'de>) -> Reading<&'de str>
    ensures { Reaches (λ t. borrowed t.now) result (text_at true value.now) }
{
    match value.judge(alloc)? {
        Value::String(text) => text.borrow(alloc),
        Value::Bytes(bytes) => borrow_utf8(alloc, bytes.owned_under_mark()),
        other => Err(refused(alloc, Cause::InvalidType(other.kind()))),
    }
}

/// A copy of the text that a value is.
#[inline(always)]
pub fn own_text(alloc: Global, value: &Met<'_>) -> Reading<String>
    ensures { Reaches (λ s. made (string_bytes s)) result (text_at false value.now) }
{
    match value.scalar(alloc)? {
        Scalar::String(text) => Ok(String::from_str(alloc, text)?),
        _ => own_other_text(alloc, value),
    }
}

/// The same, wherever the value comes from.
#[inline(never)]
fn own_other_text(alloc: Global, value: &Met<'_>) -> Reading<String>
    ensures { Reaches (λ s. made (string_bytes s)) result (text_at false value.now) }
{
    match value.judge(alloc)? {
        Value::String(text) => Ok(text.to_string(alloc)?),
        Value::Bytes(bytes) => own_utf8(alloc, bytes.owned_under_mark()),
        other => Err(refused(alloc, Cause::InvalidType(other.kind()))),
    }
}

/// Bytes that are a text, borrowed.
fn borrow_utf8<'de>(alloc: Global, bytes: MetBytes<'de>) -> Reading<&'de str>
    ensures { Reaches (λ t. borrowed t.now) result (borrowed_text (met_bytes bytes.entry)) }
{
    match str::from_utf8(bytes.borrow(alloc)?) {
        Ok(text) => Ok(text),
        Err(_) => Err(refused(alloc, Cause::NotUtf8)),
    }
}

/// A copy of bytes that are a text.
fn own_utf8(alloc: Global, bytes: MetBytes<'_>) -> Reading<String>
    ensures { Reaches (λ s. made (string_bytes s)) result (owned_text (met_bytes bytes.entry)) }
{
    match str::from_utf8(bytes.bytes) {
        Ok(text) => Ok(String::from_str(alloc, text)?),
        Err(_) => Err(refused(alloc, Cause::NotUtf8)),
    }
}

/// The character of a value that is a text of one.
#[inline(never)]
pub fn character_leaf<'de>(alloc: Global, value: &Met<'de>) -> Reading<Datum<'de>>
    ensures exact { Reaches marked result (character_at value.now) }
{
    match value.judge(alloc)? {
        Value::String(text) => {
            let text = text.to_text(alloc)?;
            character(alloc, text.as_str())
        }
        other => Err(refused(alloc, Cause::InvalidType(other.kind()))),
    }
}

/// The character of a text of one.
pub fn character<'de>(alloc: Global, text: &str) -> Reading<Datum<'de>>
    ensures exact { Reaches marked result (read_character (views.one_character (chars text.now))) }
{
    match one_character(text) {
        Some(character) => Ok(Datum::Char(character)),
        None => Err(refused(alloc, Cause::NotOneChar)),
    }
}

/// The character of a text that has one.
fn one_character(text: &str) -> Option<char>
    ensures { result ≡ views.one_character (chars text.now) }
{
    let mut characters = text.chars();
    let first = characters.next()?;
    match characters.next() {
        Some(_) => None,
        None => Some(first),
    }
}
