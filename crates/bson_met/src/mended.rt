// Values whose texts are mended, judged.
ghost use Rattle.std.specs.Prelude.{◌≡◌, None};
ghost use Rattle.bson_base.specs.BsonView.{tree_of};
ghost use Rattle.bson_rawdoc.specs.Node.{fault, mended, node_in, inner_node, value_node};
ghost use Rattle.bson_rawdoc.specs.UnjudgedView.{unjudged_value};
ghost use Rattle.bson_laws.specs.Judged.{judged};
ghost use Rattle.bson_met.specs.Gives.{Reaches};
ghost use Rattle.bson_met.specs.MetView.{what_node};
ghost use Rattle.bson_met.specs.OpenedView.{made_node};
ghost use Rattle.bson_met.specs.ValueView.{value_view};
ghost use Rattle.bson_met.specs.Whole.{HasTexts};

use crate::judge::{as_text, judge_beyond, judge_element};
use crate::met::What;
use crate::opened::{Extended, Made, Names, Scope};
use crate::reading::{Reading, refused};
use crate::text::{MetText, known};
use crate::value::Value;
use bson_base::Bson;
use bson_rawdoc::{RawElement, Unjudged};
use bson_values::Cause;
use std::alloc::Global;

/// A value whose texts are mended, wherever it comes from.
#[tactic(auto, using(crate::proofs::Mending::inner_whole, crate::proofs::Mending::pairs_whole, crate::proofs::Mending::tree_whole))]
#[inline(never)]
pub(crate) fn judge_mended<'de>(alloc: Global, levels: u32, what: &What<'de>) -> Reading<Value<'de>>
    ensures { Reaches value_view result (judged (mended (what_node levels what.now))) }
{
    match what {
        What::Element(element) => judge_unjudged(alloc, levels, element),
        What::Document(_) => judge_whole(alloc, levels, what),
        What::Pairs(_) => judge_whole(alloc, levels, what),
        What::Tree(value) => {
            whole_tree(value);
            judge_whole(alloc, levels, what)
        }
        What::Made(made) => {
            whole_made(*made);
            judge_whole(alloc, levels, what)
        }
    }
}

/// A value that has no fault, whose texts are mended.
fn judge_whole<'de>(alloc: Global, levels: u32, what: &What<'de>) -> Reading<Value<'de>>
    requires { fault (what_node levels what.now) ≡ None }
    ensures { Reaches value_view result (judged (mended (what_node levels what.now))) }
{
    Ok(judge_beyond(alloc, levels, what)?.mended())
}

/// The value of an element, whose texts are mended.
fn judge_unjudged<'de>(alloc: Global, levels: u32, element: &RawElement<'de>) -> Reading<Value<'de>>
    ensures { Reaches value_view result (judged (mended (node_in levels element.now.kind element.now.value))) }
{
    match element.unjudged() {
        Ok(Some(value)) => Ok(with_texts(levels, value)),
        Ok(None) => Ok(judge_element(alloc, levels, element)?.mended()),
        Err(fault) => Err(refused(alloc, Cause::Raw(fault))),
    }
}

/// A value with texts, which are mended.
fn with_texts<'de>(levels: u32, value: Unjudged<'de>) -> Value<'de>
    ensures { value_view result ≡ mended (value_node (inner_node levels) (unjudged_value value.entry)) }
{
    let value = match value {
        Unjudged::String(text) => return Value::String(MetText::Mended(text)),
        Unjudged::RegularExpression { pattern, options } => {
            Extended::RegularExpression(MetText::Mended(pattern), MetText::Mended(options))
        }
        Unjudged::DbPointer { namespace, id } => {
            Extended::DbPointer(MetText::Mended(namespace), id)
        }
        Unjudged::JavaScriptCode(code) => Extended::JavaScriptCode(MetText::Mended(code)),
        Unjudged::Symbol(text) => Extended::Symbol(MetText::Mended(text)),
        Unjudged::JavaScriptCodeWithScope { code, scope } => {
            let scope = Scope {
                levels,
                mends: true,
                names: Names::Bytes(scope),
            };
            Extended::JavaScriptCodeWithScope(MetText::Mended(code), scope)
        }
    };
    Value::Extended(value)
}

// The texts of a value of a tree are texts.
fn whole_tree(value: &Bson)
    ensures { HasTexts (tree_of value.now) }
{
    match value {
        Bson::String(text) => {
            as_text(text);
        }
        Bson::JavaScriptCode(code) => {
            as_text(code);
        }
        Bson::Symbol(text) => {
            as_text(text);
        }
        Bson::RegularExpression(regex) => {
            known(regex.pattern());
            known(regex.options());
        }
        Bson::DbPointer(pointer) => {
            as_text(&pointer.namespace);
        }
        Bson::JavaScriptCodeWithScope(scoped) => {
            as_text(&scoped.code);
        }
        Bson::Double(_)
        | Bson::Array(_)
        | Bson::Document(_)
        | Bson::Boolean(_)
        | Bson::Null
        | Bson::Int32(_)
        | Bson::Int64(_)
        | Bson::Timestamp(_)
        | Bson::Binary(_)
        | Bson::ObjectId(_)
        | Bson::DateTime(_)
        | Bson::Decimal128(_)
        | Bson::Undefined
        | Bson::MaxKey
        | Bson::MinKey => {}
    }
}

// A value in a document that another value is opened to has no fault: its texts are texts.
fn whole_made(made: Made<'_>)
    ensures { fault (made_node made.entry) ≡ None }
{
    match made {
        Made::Text(text) => text.known(),
        Made::Bytes(_) | Made::True | Made::One | Made::Long(_) | Made::Document(_) => {}
    }
}
