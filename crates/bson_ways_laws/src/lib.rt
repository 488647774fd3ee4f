//! The laws of two ways from bytes to bytes: by a value alone, and by the trees of what is read and of what is written.
//!
//! One way reads a value from the bytes of a document, and writes its bytes. The other makes the document of the bytes, reads a value from it, makes that a
//! document, and writes the bytes of this one.
#![tactic(auto)]

ghost use Rattle.std.specs.Prelude.{◌≡◌, false, None, Ok};
ghost use Rattle.bson_base.specs.Encoded.{encode_fault};
ghost use Rattle.bson_base.specs.Sound.{IsDocument};
ghost use Rattle.bson_kinds.specs.Text.{Bytes, AreBytes};
ghost use Rattle.bson_base.specs.Tree.{Tree, document, Pairs};
ghost use Rattle.bson_rawdoc.specs.DocumentTree.{document_pairs};
ghost use Rattle.bson_rawdoc.specs.Envelope.{envelope};
ghost use Rattle.bson_shape.specs.Form.{Form};
ghost use Rattle.bson_shape.specs.Makers.{IsShape};
ghost use Rattle.bson_values.specs.Value.{Value};
ghost use Rattle.bson_laws.specs.Reads.{reads_document};
ghost use Rattle.bson_laws.specs.ReadsFrom.{reads_tree_value};
ghost use Rattle.bson_laws.specs.Spell.{spell_document};
ghost use Rattle.bson_tree_laws.specs.TreeSpell.{tree_whole};
ghost use Rattle.bson_ways_laws.specs.Simple.{IsSimple};
ghost use Rattle.bson_ways_laws.specs.Ways.{SuitsBothWays, HasFreeInput, HasCommonKeys};

/// Where a value is read from the bytes of a document, and one from the document of the bytes, and the first is spelled without keys that begin with `$`, the
/// second is the same value: so it is spelled as the same tree.
///
/// The call does nothing.
pub fn law_two_ways_reading()
    ensures same { (s : Form) (bytes : Bytes) (ps : Pairs) (d w : Value) (u : Tree) → SuitsBothWays s → HasFreeInput bytes → document_pairs bytes ≡ Ok ps
        → reads_document s bytes ≡ Ok d → spell_document d ≡ Ok u → HasCommonKeys u → reads_tree_value false s (document ps) ≡ Ok w → d ≡ w }
    ensures spells { (s : Form) (bytes : Bytes) (ps : Pairs) (d w : Value) (u : Tree) → SuitsBothWays s → HasFreeInput bytes → document_pairs bytes ≡ Ok ps
        → reads_document s bytes ≡ Ok d → spell_document d ≡ Ok u → HasCommonKeys u → reads_tree_value false s (document ps) ≡ Ok w → spell_document w ≡ Ok u }
{}

/// What is read from bytes, and spelled as a tree without keys that begin with `$`, is made into that tree, the newtype of a UUID included.
///
/// The call does nothing.
pub fn law_two_ways_writing()
    ensures writes { (s : Form) (bytes : Bytes) (d : Value) (u : Tree) → IsShape s → SuitsBothWays s → AreBytes bytes → reads_document s bytes ≡ Ok d
        → spell_document d ≡ Ok u → HasCommonKeys u → tree_whole false d ≡ Ok u }
{}

/// What is read from the bytes of a document and spelled as a tree without keys that begin with `$` is the tree that the other way comes to, wherever it comes to
/// one.
///
/// No document of the input repeats a key, and none has one that begins with `$`. At the shape nothing is kept in its bytes, nothing depends on whether the
/// reader is human, and no name begins with `$` (`SuitsBothWays`); texts may be mended. The call does nothing.
pub fn law_two_ways()
    ensures agree { (s : Form) (bytes : Bytes) (ps : Pairs) (d w : Value) (u : Tree) → IsShape s → SuitsBothWays s → AreBytes bytes → HasFreeInput bytes
        → document_pairs bytes ≡ Ok ps → reads_document s bytes ≡ Ok d → spell_document d ≡ Ok u → HasCommonKeys u
        → reads_tree_value false s (document ps) ≡ Ok w → tree_whole false w ≡ Ok u }
{}

/// At a shape of structs, sequences, integers, booleans and strings each way takes the bytes of a document exactly where the other does, and comes to the same
/// tree.
///
/// No document of the input repeats a key, and none has one that begins with `$`. The tree of the second way is one that has bytes: no key of it holds a zero
/// character. The call does nothing.
pub fn law_two_ways_simple()
    ensures forth { (s : Form) (bytes : Bytes) (ps : Pairs) (d : Value) (u : Tree) → IsShape s → IsSimple s → AreBytes bytes → HasFreeInput bytes
        → document_pairs bytes ≡ Ok ps → reads_document s bytes ≡ Ok d → spell_document d ≡ Ok u
        → (w : Value) × (reads_tree_value false s (document ps) ≡ Ok w) × (tree_whole false w ≡ Ok u) × IsDocument u × (encode_fault u ≡ None) }
    ensures back { (s : Form) (bytes : Bytes) (ps : Pairs) (w : Value) (u : Tree) → IsShape s → IsSimple s → AreBytes bytes → envelope bytes ≡ Ok bytes
        → HasFreeInput bytes → document_pairs bytes ≡ Ok ps → reads_tree_value false s (document ps) ≡ Ok w → tree_whole false w ≡ Ok u
        → IsDocument u → encode_fault u ≡ None → (d : Value) × (reads_document s bytes ≡ Ok d) × (spell_document d ≡ Ok u) }
{}
