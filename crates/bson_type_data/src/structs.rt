// References to documents and regular expressions as data, and what a datum is of them.
ghost use Rattle.std.specs.Prelude.{◌≡◌, string_bytes, IfOk};
ghost use Rattle.std.specs.Option.{option_map};
ghost use Rattle.bson_values.specs.Value.{str};
ghost use Rattle.bson_values.specs.Returned.{Reads};
ghost use Rattle.bson_datum.specs.View.{view};
ghost use Rattle.bson_type_data.specs.Extended.{pointer_datum, pointer_in, pointer_said, taken_pointer, regex_datum, regex_in, regex_said, taken_regex};

use crate::data::{is_equal, struct_of_one, struct_of_two, text_of};
use crate::extended::id_said;
use crate::refusal::not_fitting;
use bson_base::{DbPointer, ObjectId, Regex};
use bson_datum::Datum;
use bson_values::de;
use std::alloc::{AllocError, Global};

/// The reference to a document that a datum is.
///
/// # Errors
///
/// `NotFitting` exactly where it is none, or out of memory.
pub fn pointer_of(alloc: Global, datum: &Datum<'_>) -> de::Result<DbPointer>
    ensures { Reads (λ p. (string_bytes p.namespace, p.id.0)) result (taken_pointer (view datum.now)) }
{
    let Some((namespace, id)) = pointer_said(datum) else {
        return Err(not_fitting());
    };
    if is_equal(pointer_datum(alloc, namespace, id)?, datum) {
        let namespace = String::from_str(alloc, namespace)?;
        return Ok(DbPointer { namespace, id });
    }
    Err(not_fitting())
}

/// The datum of a reference to a document.
///
/// # Errors
///
/// Memory ran out.
pub fn pointer_datum<'x>(
    alloc: Global,
    namespace: &str,
    id: ObjectId,
) -> Result<Datum<'x>, AllocError>
    ensures { IfOk result (λ d. view d ≡ pointer_datum (namespace.now, id.0)) }
{
    let namespace = String::from_str(alloc, namespace)?;
    let digits = id.to_hex(alloc)?;
    let id = struct_of_one(alloc, "", "$oid", text_of(digits))?;
    let body = struct_of_two(alloc, "", ("$ref", text_of(namespace)), ("$id", id))?;
    struct_of_one(alloc, "$dbPointer", "$dbPointer", body)
}

// The namespace and the id that a value may be the datum of.
fn pointer_said<'d>(datum: &'d Datum<'_>) -> Option<(&'d str, ObjectId)>
    ensures { option_map (λ p. (p.0.now, p.1.0)) result ≡ pointer_said (view datum.now) }
{
    pointer_in(datum.field("$dbPointer")?)
}

// The namespace and the id in the struct of both.
fn pointer_in<'d>(body: &'d Datum<'_>) -> Option<(&'d str, ObjectId)>
    ensures { option_map (λ p. (p.0.now, p.1.0)) result ≡ pointer_in (view body.now) }
{
    let namespace = body.field("$ref")?.as_str()?;
    let id = id_said(body.field("$id")?)?;
    Some((namespace, id))
}

/// The regular expression that a datum is.
///
/// # Errors
///
/// `NotFitting` exactly where it is none, or out of memory.
pub fn regex_of(alloc: Global, datum: &Datum<'_>) -> de::Result<Regex>
    ensures { Reads (λ r. (r.pattern, r.options)) result (taken_regex (view datum.now)) }
{
    let Some((pattern, options)) = regex_said(datum) else {
        return Err(not_fitting());
    };
    if is_equal(regex_datum(alloc, pattern, options)?, datum) {
        let pattern = String::from_str(alloc, pattern)?;
        let options = String::from_str(alloc, options)?;
        let regex = Regex::new(alloc, pattern, options)?;
        return Ok(regex);
    }
    Err(not_fitting())
}

/// The datum of a regular expression of these texts.
///
/// # Errors
///
/// Memory ran out.
pub fn regex_datum<'x>(alloc: Global, pattern: &str, options: &str) -> Result<Datum<'x>, AllocError>
    ensures { IfOk result (λ d. view d ≡ regex_datum (pattern.now, options.now)) }
{
    let pattern = String::from_str(alloc, pattern)?;
    let options = String::from_str(alloc, options)?;
    let body = struct_of_two(
        alloc,
        "",
        ("pattern", text_of(pattern)),
        ("options", text_of(options)),
    )?;
    struct_of_one(alloc, "$regularExpression", "$regularExpression", body)
}

// The pattern and the options that a value may be the datum of.
fn regex_said<'d>(datum: &'d Datum<'_>) -> Option<(&'d str, &'d str)>
    ensures { option_map (λ p. (p.0.now, p.1.now)) result ≡ regex_said (view datum.now) }
{
    regex_in(datum.field("$regularExpression")?)
}

// The pattern and the options in the struct of both.
fn regex_in<'d>(body: &'d Datum<'_>) -> Option<(&'d str, &'d str)>
    ensures { option_map (λ p. (p.0.now, p.1.now)) result ≡ regex_in (view body.now) }
{
    let pattern = body.field("pattern")?.as_str()?;
    let options = body.field("options")?.as_str()?;
    Some((pattern, options))
}

// A copy of a text.
pub(crate) fn copied<'x>(alloc: Global, text: &str) -> Result<Datum<'x>, AllocError>
    ensures { IfOk result (λ d. view d ≡ str text.now) }
{
    Ok(text_of(String::from_str(alloc, text)?))
}
