//! The shape that is inferred from documents: what each value asks for, the join of two such shapes, and the laws of both; and what a file of documents is.
#![tactic(auto)]

ghost use Rattle.std.specs.Prelude.{◌≡◌, ◌≤◌, IsSome, Ok};
ghost use Rattle.bson_base.specs.Sound.{AreTreesClean, IsDocument, IsSound};
ghost use Rattle.bson_base.specs.Tree.{document, Pairs, Trees, enc, trees_depth};
ghost use Rattle.bson_rawdoc.specs.Cut.{cut};
ghost use Rattle.bson_shape.specs.Form.{Form, no_fields};
ghost use Rattle.bson_shape.specs.Levels.{levels};
ghost use Rattle.bson_shape.specs.Makers.{IsShape};
ghost use Rattle.bson_laws.specs.Datum.{sorted_pairs};
ghost use Rattle.bson_laws.specs.Plain.{IsPlain};
ghost use Rattle.bson_laws.specs.Recursive.{view};
ghost use Rattle.bson_infer_laws.specs.Above.{Above, IsJoined};
ghost use Rattle.bson_infer_laws.specs.Encodings.{piece_pairs, encodings, cut_into};
ghost use Rattle.bson_infer_laws.specs.Inferred.{shape_of, inferred, with_last, AllTrees};
ghost use Rattle.bson_infer_laws.specs.Join.{join};
ghost use Rattle.bson_infer_laws.specs.Recasts.{IsRecast};

/// The join of two forms is above both: it holds what each of them holds. A form that is above another is their join.
///
/// The forms are those that joins are of (`IsJoined`), as is each form that is inferred. The call does nothing.
pub fn law_join()
    ensures joined { (a b : Form) → IsJoined a → IsJoined b → IsJoined (join a b) }
    ensures above { (a b : Form) → IsJoined a → IsJoined b → Above (join a b) a × Above (join a b) b }
    ensures absorbs { (a b : Form) → IsJoined a → Above a b → join a b ≡ a }
    ensures itself { (a : Form) → IsJoined a → join a a ≡ a }
    ensures transitive { (a b c : Form) → Above a b → Above b c → Above a c }
{}

/// What is inferred of clean documents that nest no deeper than a sound one is a plain shape, so that each maker makes it; of
/// documents it has at most 401 levels.
///
/// It does nothing.
pub fn law_inferred_shape()
    ensures shape { (ts : Trees) → AreTreesClean ts → trees_depth ts ≤ 200 → IsShape (inferred ts) }
    ensures levels { (ts : Trees) → AllTrees IsDocument ts → AreTreesClean ts → trees_depth ts ≤ 200 → levels (inferred ts) ≤ 401 }
    ensures plain { (ts : Trees) → AreTreesClean ts → IsPlain (inferred ts) }
{}

/// What is inferred of clean values has a view of each of them.
///
/// It does nothing.
pub fn law_inferred_views()
    ensures views { (ts : Trees) → AreTreesClean ts → AllTrees (λ t. IsSome (view no_fields (inferred ts) t)) ts }
{}

/// Each of sound documents is read from its bytes at the shape that is inferred from them all, as a value that is written again. So nothing but the size of what
/// is written can refuse it.
///
/// It does nothing.
pub fn law_inferred_recasts()
    ensures recasts { (ts : Trees) → AllTrees IsSound ts → AllTrees (IsRecast (inferred ts)) ts }
{}

/// One of the values, given again at the end, changes nothing of what is inferred.
///
/// It does nothing.
pub fn law_inferred_again()
    ensures again { (ts : Trees) → AreTreesClean ts → AllTrees (λ t. inferred (with_last ts t) ≡ inferred ts) ts }
{}

/// The bytes of a sound document are that document, with the options of its regular expressions in order, which is sound and has the same form. Those of sound
/// documents, one behind another, are a whole file, which is cut into the bytes of each.
///
/// It does nothing.
pub fn law_encoded_documents()
    ensures document { (ps : Pairs) → IsSound (document ps) → piece_pairs (enc (document ps)) ≡ Ok (sorted_pairs ps) }
    ensures sound { (ps : Pairs) → IsSound (document ps) → IsSound (document (sorted_pairs ps)) }
    ensures shape { (ps : Pairs) → shape_of (document (sorted_pairs ps)) ≡ shape_of (document ps) }
    ensures file { (ts : Trees) → AllTrees IsSound ts → cut (encodings ts) ≡ cut_into ts }
{}
