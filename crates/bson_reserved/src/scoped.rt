ghost use Rattle.std.specs.Prelude.{◌≡◌, [], IfSome, option_map};
ghost use Rattle.bson_datum.specs.View.{view, fields_view};
ghost use Rattle.bson_laws.specs.Unwrap as unwrap;
ghost use Rattle.bson_laws.specs.Unwrap.{listed};
ghost use Rattle.bson_reserved.specs.ListView.{parts_view};
ghost use Rattle.bson_reserved.specs.AcceptedView.{IsScope};
ghost use Rattle.bson_reserved.specs.Prover.Sized.{fields_size, parts_size, IsWithin};

use crate::list::{Part, parts_of};
use crate::parts::{end_as, next_key, next_scope, next_text};
use bson_datum::{Datum, Field};

/// What the fields of the struct of code with a scope are accepted as: the code, and its scope, a map or a document in its bytes, yet to be written; `None`
/// where they are not those of such a struct. It takes no memory.
///
/// Source: the reserved names of MongoDB's crate `bson`, version 2.
pub fn scoped_code<'a, 'b>(fields: &'a [Field<'b>]) -> Option<(&'a str, &'a Datum<'b>)>
    ensures value { option_map (λ p. (p.0.now, view p.1.now)) result ≡ unwrap.scoped_code (listed (fields_view fields.now) []) }
    ensures scope { IfSome result (λ p. IsScope (view p.1.now)) }
    ensures smaller { IfSome result (λ p. IsWithin (fields_size fields.now) p.1.now) }
{
    let list = parts_of(fields)?;
    scoped_code_list(list.as_slice())
}

// Code, and what its scope is.
fn scoped_code_list<'a, 'b>(list: &[Part<'a, 'b>]) -> Option<(&'a str, &'a Datum<'b>)>
    ensures value { option_map (λ p. (p.0.now, view p.1.now)) result ≡ unwrap.scoped_code (parts_view list.now) }
    ensures scope { IfSome result (λ p. IsScope (view p.1.now)) }
    ensures smaller { IfSome result (λ p. IsWithin (parts_size list.now) p.1.now) }
{
    let first = next_key("$code", list)?;
    let (code, more) = next_text(first)?;
    let second = next_key("$scope", more)?;
    let (scope, rest) = next_scope(second)?;
    end_as((code, scope), rest)
}
