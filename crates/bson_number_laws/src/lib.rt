//! The law that what is read from a tree in memory, and made into a tree, is never refused for a number.
#![tactic(auto)]

ghost use Rattle.std.specs.Prelude.{◌≡◌, Bool, Ok};
ghost use Rattle.bson_base.specs.Tree.{document, Pairs};
ghost use Rattle.bson_kinds.specs.Text.{Bytes, AreBytes};
ghost use Rattle.bson_laws.specs.ReadsFrom.{reads_tree_value};
ghost use Rattle.bson_laws.specs.Spell.{HoldsNumbers};
ghost use Rattle.bson_rawdoc.specs.DocumentTree.{document_pairs};
ghost use Rattle.bson_rawdoc.specs.Envelope.{envelope};
ghost use Rattle.bson_shape.specs.Form.{Form};
ghost use Rattle.bson_tree_laws.specs.TreeSpell.{tree_whole};
ghost use Rattle.bson_values.specs.Value.{Value};

/// What is read at any shape from the document of some bytes is never refused for a number where it is made into a tree: each number in it, keys of maps
/// included, is one that an Int64 holds.
///
/// It is so for readers and writers in the readable form and in the compact one. `law_reads_numbers` of bson_laws says the same of what is read from the bytes
/// themselves and written as bytes. The call does nothing.
pub fn law_tree_numbers()
    ensures numbers { (reader writer : Bool) (s : Form) (bytes : Bytes) (ps : Pairs) (v : Value) → AreBytes bytes → envelope bytes ≡ Ok bytes
        → document_pairs bytes ≡ Ok ps → reads_tree_value reader s (document ps) ≡ Ok v → HoldsNumbers (tree_whole writer v) }
{}
