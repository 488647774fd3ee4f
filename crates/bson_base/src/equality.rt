ghost use Rattle.std.specs.Prelude.{◌≡◌, ◌↔◌, IsTrue};
ghost use Rattle.bson_base.specs.Same.{same, same_trees, same_pairs};
ghost use Rattle.bson_base.specs.BsonView.{tree_of, trees_of, binary_of, regex_of, pointer_of, scoped_of, pairs_of};

use crate::binary::Binary;
use crate::bson::Bson;
use crate::code_with_scope::JavaScriptCodeWithScope;
use crate::db_pointer::DbPointer;
use crate::document::Document;
use crate::regex::Regex;

/// Two binaries are equal exactly where their subtypes and their bytes are.
impl PartialEq for Binary {
    ghost use Rattle.bson_base.specs.BsonView.{binary_of};
    ghost use Rattle.bson_base.specs.Same.{same};
    ghost use Rattle.bson_base.specs.Prover.Decided.{binary_laws};

    ghost eq = { λ a b. same (binary_of a) (binary_of b) };

    ghost laws = { binary_laws };

    fn eq(&self, other: &Self) -> bool
        ensures value { result ≡ same (binary_of self.now) (binary_of other.now) }
        ensures equal { IsTrue result ↔ (binary_of self.now ≡ binary_of other.now) }
    {
        self.subtype.0 == other.subtype.0 && self.bytes.as_slice() == other.bytes.as_slice()
    }
}

/// Two regular expressions are equal exactly where their patterns and their options are.
impl PartialEq for Regex {
    ghost use Rattle.bson_base.specs.BsonView.{regex_of};
    ghost use Rattle.bson_base.specs.Same.{same};
    ghost use Rattle.bson_base.specs.Prover.Decided.{regex_laws};

    ghost eq = { λ a b. same (regex_of a) (regex_of b) };

    ghost laws = { regex_laws };

    fn eq(&self, other: &Self) -> bool
        ensures value { result ≡ same (regex_of self.now) (regex_of other.now) }
        ensures equal { IsTrue result ↔ (regex_of self.now ≡ regex_of other.now) }
    {
        self.pattern() == other.pattern() && self.options() == other.options()
    }
}

/// Two references are equal exactly where their namespaces and their ids are.
impl PartialEq for DbPointer {
    ghost use Rattle.bson_base.specs.BsonView.{pointer_of};
    ghost use Rattle.bson_base.specs.Same.{same};
    ghost use Rattle.bson_base.specs.Prover.Decided.{pointer_laws};

    ghost eq = { λ a b. same (pointer_of a) (pointer_of b) };

    ghost laws = { pointer_laws };

    fn eq(&self, other: &Self) -> bool
        ensures value { result ≡ same (pointer_of self.now) (pointer_of other.now) }
        ensures equal { IsTrue result ↔ (pointer_of self.now ≡ pointer_of other.now) }
    {
        self.namespace == other.namespace && self.id.0 == other.id.0
    }
}

/// Two codes with their scopes are equal exactly where the codes and the scopes are.
impl PartialEq for JavaScriptCodeWithScope {
    ghost use Rattle.bson_base.specs.BsonView.{scoped_of};
    ghost use Rattle.bson_base.specs.Same.{same};
    ghost use Rattle.bson_base.specs.Prover.Decided.{scoped_laws};

    ghost eq = { λ a b. same (scoped_of a) (scoped_of b) };

    ghost laws = { scoped_laws };

    fn eq(&self, other: &Self) -> bool
        ensures value { result ≡ same (scoped_of self.now) (scoped_of other.now) }
        ensures equal { IsTrue result ↔ (scoped_of self.now ≡ scoped_of other.now) }
    {
        self.code == other.code && are_same_documents(&self.scope, &other.scope)
    }
}

/// Two values are equal exactly where they are of one kind and their contents are equal, those of documents in order.
impl PartialEq for Bson {
    ghost use Rattle.bson_base.specs.BsonView.{tree_of};
    ghost use Rattle.bson_base.specs.Same.{same};
    ghost use Rattle.bson_base.specs.Prover.Decided.{bson_laws};

    ghost eq = { λ a b. same (tree_of a) (tree_of b) };

    ghost laws = { bson_laws };

    fn eq(&self, other: &Self) -> bool
        ensures value { result ≡ same (tree_of self.now) (tree_of other.now) }
        ensures equal { IsTrue result ↔ (tree_of self.now ≡ tree_of other.now) }
    {
        is_same(self, other)
    }
}

/// Two documents are equal exactly where they have the same pairs in the same order.
impl PartialEq for Document {
    ghost use Rattle.bson_base.specs.BsonView.{pairs_of};
    ghost use Rattle.bson_base.specs.Same.{same_pairs};
    ghost use Rattle.bson_base.specs.Prover.Decided.{document_laws};

    ghost eq = { λ a b. same_pairs (pairs_of a) (pairs_of b) };

    ghost laws = { document_laws };

    fn eq(&self, other: &Self) -> bool
        ensures value { result ≡ same_pairs (pairs_of self.now) (pairs_of other.now) }
        ensures equal { IsTrue result ↔ (pairs_of self.now ≡ pairs_of other.now) }
    {
        are_same_documents(self, other)
    }
}

// Whether two values are equal.
#[cycle(same)]
#[tactic(auto, using(crate::proofs::Rows::row_items, crate::proofs::Rows::row_pairs, crate::proofs::Sames::unlike_array, crate::proofs::Sames::unlike_document, crate::proofs::Sames::unlike_scoped))]
fn is_same(a: &Bson, b: &Bson) -> bool
    ensures { result ≡ same (tree_of a.now) (tree_of b.now) }
{
    match (a, b) {
        (Bson::Double(number), Bson::Double(other)) => number.0 == other.0,
        (Bson::String(text), Bson::String(other)) => text == other,
        (Bson::Array(values), _) => match b {
            Bson::Array(others) => are_same_values(values, others),
            _ => false,
        },
        (Bson::Document(document), _) => match b {
            Bson::Document(other) => are_same_documents(document, other),
            _ => false,
        },
        (Bson::Boolean(truth), Bson::Boolean(other)) => truth == other,
        (Bson::Null, Bson::Null) => true,
        (Bson::RegularExpression(regex), Bson::RegularExpression(other)) => regex == other,
        (Bson::JavaScriptCode(code), Bson::JavaScriptCode(other)) => code == other,
        (Bson::JavaScriptCodeWithScope(scoped), _) => match b {
            Bson::JavaScriptCodeWithScope(other) => {
                scoped.code == other.code && are_same_documents(&scoped.scope, &other.scope)
            }
            _ => false,
        },
        (Bson::Int32(number), Bson::Int32(other)) => number == other,
        (Bson::Int64(number), Bson::Int64(other)) => number == other,
        (Bson::Timestamp(time), Bson::Timestamp(other)) => {
            time.time == other.time && time.increment == other.increment
        }
        (Bson::Binary(binary), Bson::Binary(other)) => binary == other,
        (Bson::ObjectId(id), Bson::ObjectId(other)) => id.0 == other.0,
        (Bson::DateTime(time), Bson::DateTime(other)) => {
            time.timestamp_millis() == other.timestamp_millis()
        }
        (Bson::Symbol(text), Bson::Symbol(other)) => text == other,
        (Bson::Decimal128(number), Bson::Decimal128(other)) => number.0 == other.0,
        (Bson::Undefined, Bson::Undefined) => true,
        (Bson::MaxKey, Bson::MaxKey) => true,
        (Bson::MinKey, Bson::MinKey) => true,
        (Bson::DbPointer(pointer), Bson::DbPointer(other)) => pointer == other,
        _ => false,
    }
}

// Whether as many values are in both, equal one by one.
#[cycle(same)]
fn are_same_values(a: &[Bson], b: &[Bson]) -> bool
    ensures { result ≡ same_trees (trees_of a.now) (trees_of b.now) }
{
    if a.len() != b.len() {
        return false;
    }
    for (i, value) in a.iter().enumerate() {
        if !is_same(value, &b[i]) {
            return false;
        }
    }
    true
}

// Whether two documents have the same pairs in the same order.
#[cycle(same)]
fn are_same_documents(a: &Document, b: &Document) -> bool
    ensures { result ≡ same_pairs (pairs_of a.now) (pairs_of b.now) }
{
    let (pairs, others) = (a.as_slice(), b.as_slice());
    if pairs.len() != others.len() {
        return false;
    }
    for (i, pair) in pairs.iter().enumerate() {
        let other = &others[i];
        if pair.key != other.key || !is_same(&pair.value, &other.value) {
            return false;
        }
    }
    true
}
