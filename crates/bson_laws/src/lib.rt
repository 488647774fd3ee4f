//! What documents are at a shape, what values mean, how they are read and written, and the laws between these.
#![tactic(auto)]

mod origin;

ghost use Rattle.std.specs.Prelude.{◌≡◌, ℕ, ◌≤◌, Bool, suc, length, Some, None, Ok};
ghost use Rattle.bson_base.specs.Opened as for_trees;
ghost use Rattle.bson_base.specs.Opened.{IsExtended};
ghost use Rattle.bson_kinds.specs.Outcome.{result_map};
ghost use Rattle.bson_base.specs.Sound.{IsClean, IsSound, HasBytes, max_bytes, max_levels};
ghost use Rattle.bson_kinds.specs.Text.{Bytes, Utf8, AreBytes};
ghost use Rattle.bson_base.specs.Tree as tree;
ghost use Rattle.bson_base.specs.Tree.{Tree, Pairs, binary, javascript_code_with_scope, enc, kind, depth};
ghost use Rattle.bson_kinds.specs.Outcome.{◌>>=◌ as and_then};
ghost use Rattle.bson_rawdoc.specs.Node.{Sight, Node, Extended, made_document, mended, opened, opens, node_in, tree_node};
ghost use Rattle.bson_kinds.specs.declared.element_type.ElementType.{ElementType};
ghost use Rattle.bson_shape.specs.Form.{Form, lossy, reference, definitions, Fields, no_fields};
ghost use Rattle.bson_shape.specs.Guarded.{definition};
ghost use Rattle.bson_shape.specs.Makers.{IsShape};
ghost use Rattle.bson_values.specs.Marked.{contents};
ghost use Rattle.bson_values.specs.Value.{Value, kind_as};
ghost use Rattle.bson_values.specs.Cause.{unknown_reference};
ghost use Rattle.bson_laws.specs.declared.origin.Origin as for_origin;
ghost use Rattle.bson_laws.specs.Judged.{judged, refused};
ghost use Rattle.bson_laws.specs.Depths.{height, value_depth};
ghost use Rattle.bson_laws.specs.Fits.{Fits};
ghost use Rattle.bson_laws.specs.Unrolled.{in_table, max_steps};
ghost use Rattle.bson_laws.specs.Recursive.{read, view, FitsIn, IsTable};
ghost use Rattle.bson_laws.specs.Means.{means, norm};
ghost use Rattle.bson_laws.specs.Plain.{IsPlain};
ghost use Rattle.bson_laws.specs.Owned.{IsOwned};
ghost use Rattle.bson_laws.specs.Settled.{IsSettled};
ghost use Rattle.bson_laws.specs.Writable.{IsWritable};
ghost use Rattle.bson_laws.specs.InRange.{IsInRange, ArePairsInRange};
ghost use Rattle.bson_laws.specs.Encodable.{IsEncodable};
ghost use Rattle.bson_laws.specs.RawFree.{IsRawFree};
ghost use Rattle.bson_laws.specs.Trees.{read_tree};
ghost use Rattle.bson_laws.specs.Views.{views};
ghost use Rattle.bson_laws.specs.Unmarked.{unmarked, AreOpenedAlike};
ghost use Rattle.bson_laws.specs.Represented.{RepresentsItself, RepresentsItselfMended};
ghost use Rattle.bson_laws.specs.Reads.{reads_document};
ghost use Rattle.bson_laws.specs.ReadsFrom.{reads_tree};
ghost use Rattle.bson_laws.specs.SuitsTrees.{SuitsTrees};
ghost use Rattle.bson_laws.specs.Datum.{datum, uuid_datum, itself, sorted_tree};
ghost use Rattle.bson_laws.specs.Spell.{IsWrittenUnlessLarge, HoldsNumbers, spell_as, spell_document, size_as};

pub use origin::{Definition, Origin, Reader};

/// What a sound document is at a plain shape is read from its bytes; it fits the shape, and is its own normal form.
///
/// The laws speak of the forms of shapes: `IsShape` says that a form meets the conditions of its makers, as that of each
/// `Shape` does (`Shape::known`). The call does nothing.
pub fn law_views_reads()
    ensures reads { (s : Form) (t : Tree) (d : Value) → IsShape s → IsPlain s → IsSound t → view no_fields s t ≡ Some d
        → reads_document s (enc t) ≡ Ok d }
    ensures fits { (s : Form) (t : Tree) (d : Value) → IsShape s → IsPlain s → IsSound t → view no_fields s t ≡ Some d → FitsIn no_fields d s }
    ensures normal { (s : Form) (t : Tree) (d : Value) → IsShape s → IsPlain s → IsSound t → view no_fields s t ≡ Some d → norm d ≡ d }
{}

/// What a value that fits a plain shape means is, at the shape, the normal form of the value.
///
/// It does nothing.
pub fn law_views_means()
    ensures views { (s : Form) (d : Value) (t : Tree) → IsShape s → IsPlain s → FitsIn no_fields d s → means d ≡ Some t → IsSound t
        → view no_fields s t ≡ Some (norm d) }
{}

/// A value that means a sound document is spelled as that document. Whatever is spelled, in the readable form or in the compact one, takes as many
/// bytes as the size of the value says, and is of the kind that the value is written as.
///
/// It does nothing.
pub fn law_spell_means()
    ensures spells { (d : Value) (t : Tree) → means d ≡ Some t → IsSound t → spell_document d ≡ Ok t }
    ensures size { (readable : Bool) (d : Value) (levels : ℕ) (t : Tree) → spell_as readable d levels ≡ Ok t
        → size_as readable d ≡ length (enc t) }
    ensures kind { (readable : Bool) (d : Value) (levels : ℕ) (t : Tree) → spell_as readable d levels ≡ Ok t
        → kind t ≡ kind_as readable d }
{}

/// A tree in range, as a value in which each extended value is the struct of a reserved name, is spelled as itself with the options of its regular
/// expressions in order, in the readable form and in the compact one; and that is what the value means.
///
/// It is spelled exactly where the format has bytes for it (`IsEncodable`) and it has no more levels than are left: its keys may begin with `$`, and may be
/// repeated. Code with a scope is spelled wherever the map of its scope is, with as many levels. A UUID as a value is spelled as its binary of subtype 4: from
/// its text in the readable form, from its bytes in the compact one. The call does nothing.
pub fn law_datum_spells()
    ensures spells { (readable : Bool) (t : Tree) (levels : ℕ) → IsInRange t → IsEncodable t → depth t ≤ levels
        → spell_as readable (datum itself t) levels ≡ Ok (sorted_tree t) }
    ensures sorted { (readable : Bool) (t u : Tree) (levels : ℕ) → IsInRange t → spell_as readable (datum itself t) levels ≡ Ok u → u ≡ sorted_tree t }
    ensures fits { (readable : Bool) (t u : Tree) (levels : ℕ) → IsInRange t → spell_as readable (datum itself t) levels ≡ Ok u
        → IsEncodable t × (depth t ≤ levels) }
    ensures scope { (readable : Bool) (code : Utf8) (scope : Pairs) (t : Tree) (levels : ℕ) → ArePairsInRange scope
        → spell_as readable (datum itself (tree.document scope)) levels ≡ Ok t
        → spell_as readable (datum itself (javascript_code_with_scope code scope)) levels ≡ Ok (sorted_tree (javascript_code_with_scope code scope)) }
    ensures means { (t : Tree) → IsInRange t → IsEncodable t → means (datum itself t) ≡ Some (sorted_tree t) }
    ensures uuid { (readable : Bool) (b : Bytes) (levels : ℕ) → HasBytes 16 b
        → spell_as readable (uuid_datum itself b) levels ≡ Ok (binary 4 b) }
{}

/// The document that a reader opens an extended value to is, without the marks of what is in the input, the document that `Bson::into_extended_document` gives
/// for the value. What a reader meets of a tree in which nothing is given by its bytes is, without its marks, that tree.
///
/// It does nothing.
pub fn law_opened_agrees()
    ensures opened { AreOpenedAlike }
    ensures trees { (at : Sight) (t : Tree) (levels : ℕ) → IsRawFree t → depth t ≤ levels → unmarked (tree_node at t levels) ≡ Some t }
{}

/// The document that an extended value is opened to represents the value: as a tree it is read as the value itself is, and refused exactly where the value is.
/// Of a clean value that is the value with the options of its regular expressions in order, and so is what is read of the document that
/// `Bson::into_extended_document` gives for it.
///
/// The numbers and the bytes of the value are in the ranges of its kind (`HasRanges`). It is so too where texts are mended. The call does nothing.
pub fn law_opened_represents()
    ensures represents { RepresentsItself }
    ensures mended { RepresentsItselfMended }
    ensures clean { (at : Sight) (t : Tree) (levels : ℕ) (x : Extended) → IsClean t → depth t ≤ levels → tree_node at t levels ≡ opens x
        → read_tree (made_document (opened x)) ≡ Ok (sorted_tree t) }
    ensures document { (at : Sight) (t : Tree) (levels : ℕ) → IsClean t → IsExtended t → depth (tree.document (for_trees.opened t)) ≤ levels
        → read_tree (tree_node at (tree.document (for_trees.opened t)) levels) ≡ Ok (sorted_tree t) }
{}

/// The document that a value of a plain shape means is read back, at the shape, as the normal form of the value.
///
/// It does nothing.
pub fn law_read_back()
    ensures reads { (s : Form) (d : Value) (t : Tree) → IsShape s → IsPlain s → FitsIn no_fields d s → means d ≡ Some t → IsSound t
        → reads_document s (enc t) ≡ Ok (norm d) }
{}

/// What a clean tree in memory is at a plain shape is read from it, for a reader who is human and for one who is not; so the tree that a value of the shape means is
/// read back as the normal form of the value.
///
/// From a tree no text and no byte string can be borrowed, and no variant's contents are an empty array (`SuitsTrees`). The call does nothing.
pub fn law_reads_tree()
    ensures reads { (readable : Bool) (s : Form) (t : Tree) (d : Value) → IsShape s → IsPlain s → SuitsTrees s → IsClean t → depth t ≤ max_levels
        → view no_fields s t ≡ Some d → result_map contents (reads_tree readable s t) ≡ Ok d }
    ensures back { (readable : Bool) (s : Form) (d : Value) (t : Tree) → IsShape s → IsPlain s → SuitsTrees s → FitsIn no_fields d s → means d ≡ Some t → IsClean t
        → depth t ≤ max_levels → result_map contents (reads_tree readable s t) ≡ Ok (norm d) }
{}

/// What is read at a shape is written, unless it nests too deep or a binary in it is too long: the writer refuses it for nothing else.
///
/// The document that an extended value is opened to takes no level when it is read, and one when it is written: so what was read may nest too deep.
///
/// The shape can be written (`IsWritable`). No name of a field holds a zero character, since an option's field that no pair has is read as none, and
/// a struct takes the values of an array by their places: each is written under its name. The keys of maps are `str`, `string` or unit variants. No
/// leaf is `regex`, `codews`, `bson` or `document`, since a regular expression that is given as texts in a document may hold a zero character. The
/// document is read neither at `ignored` nor at an extended leaf, so that it is a document again. Nothing depends on whether the reader is human. The call
/// does nothing.
pub fn law_reads_spell()
    ensures spells { (s : Form) (bytes : Bytes) (d : Value) → IsShape s → IsWritable s → AreBytes bytes → reads_document s bytes ≡ Ok d
        → IsWrittenUnlessLarge (spell_document d) }
{}

/// What is read at any shape is never refused by the writer for a number: each number that is read is one that an Int64 holds.
///
/// It does nothing.
pub fn law_reads_numbers()
    ensures numbers { (s : Form) (bytes : Bytes) (d : Value) → AreBytes bytes → reads_document s bytes ≡ Ok d
        → HoldsNumbers (spell_document d) }
{}

/// What is read at a shape from bytes, and written, is read at the shape from what was written, and written as the same again.
///
/// This holds at every shape that does not depend on whether the reader is human (`IsSettled`), those that keep values in their bytes included, and for every
/// byte string, sound or not: a migration may be run again without harm. The call does nothing.
pub fn law_recast_again()
    ensures again { (s : Form) (bytes : Bytes) (d : Value) (t : Tree) → IsShape s → IsSettled s → AreBytes bytes → reads_document s bytes ≡ Ok d
        → spell_document d ≡ Ok t
        → length (enc t) ≤ max_bytes → (v : Value) × (reads_document s (enc t) ≡ Ok v) × (spell_document v ≡ Ok t) }
{}

/// What is read at a shape where nothing asks to be borrowed is read where texts are mended, too, as the same value: where every text is UTF-8 a mark changes no more than
/// what is borrowed.
///
/// The shape has neither `str` nor `bytes` (`IsOwned`): under a mark no text is in the input, so that `str` takes none, and `bytes` takes no text. The
/// call does nothing.
pub fn law_reads_mended()
    ensures same { (s : Form) (bytes : Bytes) (d : Value) → IsOwned s → reads_document s bytes ≡ Ok d
        → reads_document (lossy s) bytes ≡ Ok d }
{}

/// A reference is read as its definition in the table around it, and refused where it has none; definitions are read as their body in their table. No value in
/// bytes or in a finished tree is deeper than forms are unrolled to read it, and none is where its texts are mended.
///
/// `read` is reading at a form in a table, by what the form is unrolled to: with these equations, which end since a name that leads back to itself does so by a
/// step into the value, either may be taken for the definition. The call does nothing.
pub fn law_references_read()
    ensures reference { (origin : for_origin.Origin) (readable : Bool) (h : Fields) (name : Utf8) (s : Form) (n : Node) → IsTable h → suc (height n) ≤ max_steps → definition h name ≡ Some s
        → read origin readable h (reference name) n ≡ read origin readable h s n }
    ensures undefined { (origin : for_origin.Origin) (readable : Bool) (h : Fields) (name : Utf8) (n : Node) → definition h name ≡ None
        → read origin readable h (reference name) n ≡ and_then (judged n) (λ _. refused (unknown_reference name)) }
    ensures definitions { (origin : for_origin.Origin) (readable : Bool) (g h : Fields) (s : Form) (n : Node)
        → read origin readable g (definitions h s) n ≡ read origin readable h s n }
    ensures bytes { (levels : ℕ) (k : ElementType) (b : Bytes) → levels ≤ max_levels → suc (height (node_in levels k b)) ≤ max_steps }
    ensures trees { (at : Sight) (t : Tree) (levels : ℕ) → levels ≤ max_levels → suc (height (tree_node at t levels)) ≤ max_steps }
    ensures mended { (n : Node) → height (mended n) ≤ height n }
{}

/// A tree is at a reference what it is at its definition in the table around it, and at definitions what it is at their body in their table; a value fits a
/// reference exactly where it fits its definition, and definitions exactly where it fits their body in their table. What a tree is does not depend on how often
/// forms are unrolled, from as often on as the tree is deep; nor does what fits, from as often on as the value is deep.
///
/// It does nothing.
pub fn law_references_seen()
    ensures view { (h : Fields) (name : Utf8) (s : Form) (t : Tree) → IsTable h → definition h name ≡ Some s → view h (reference name) t ≡ view h s t }
    ensures unseen { (h : Fields) (name : Utf8) (t : Tree) → definition h name ≡ None → view h (reference name) t ≡ None }
    ensures view_definitions { (g h : Fields) (s : Form) (t : Tree) → view g (definitions h s) t ≡ view h s t }
    ensures fits { (h : Fields) (name : Utf8) (s : Form) (d : Value) → IsTable h → definition h name ≡ Some s → FitsIn h d s → FitsIn h d (reference name) }
    ensures fit { (h : Fields) (name : Utf8) (s : Form) (d : Value) → IsTable h → definition h name ≡ Some s → FitsIn h d (reference name) → FitsIn h d s }
    ensures unfit { (h : Fields) (name : Utf8) (d : Value) → definition h name ≡ None → FitsIn h d (reference name) → ⊥ }
    ensures fits_definitions { (g h : Fields) (s : Form) (d : Value) → FitsIn h d s → FitsIn g d (definitions h s) }
    ensures definitions_fit { (g h : Fields) (s : Form) (d : Value) → FitsIn g d (definitions h s) → FitsIn h d s }
    ensures unrolled { (rounds : ℕ) (h : Fields) (s : Form) (t : Tree) → IsTable h → IsShape s → suc (depth t) ≤ rounds → views (in_table rounds h s) t ≡ view h s t }
    ensures unrolled_fits { (m n : ℕ) (h : Fields) (s : Form) (d : Value) → IsTable h → IsShape s → suc (value_depth d) ≤ m → suc (value_depth d) ≤ n
        → Fits d (in_table m h s) → Fits d (in_table n h s) }
{}
