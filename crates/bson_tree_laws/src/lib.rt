//! The tree that a value is made into, and the laws that a writer of trees and a writer of bytes agree.
#![tactic(auto)]

ghost use Rattle.std.specs.Prelude.{◌≡◌, ℕ, ◌≤◌, Bool, false, Some, Ok};
ghost use Rattle.bson_base.specs.Sound.{IsClean, max_levels};
ghost use Rattle.bson_base.specs.Tree.{Tree, depth};
ghost use Rattle.bson_shape.specs.Form.{Form, no_fields};
ghost use Rattle.bson_shape.specs.Makers.{IsShape};
ghost use Rattle.bson_values.specs.Value.{Value};
ghost use Rattle.bson_laws.specs.Means.{means};
ghost use Rattle.bson_laws.specs.Plain.{IsPlain};
ghost use Rattle.bson_laws.specs.Recursive.{view, FitsIn};
ghost use Rattle.bson_laws.specs.Spell.{spell_as};
ghost use Rattle.bson_tree_laws.specs.Alike.{HasFreeKeys, IsAlike};
ghost use Rattle.bson_tree_laws.specs.TreeSpell.{tree_spell};

/// What is spelled as a tree without keys that begin with `$` and without repeated keys is made into that tree.
///
/// The keys of its maps are texts or unit variants, each struct of a reserved name is what an extended value is as data, and nothing in it is given by its bytes
/// (`IsAlike`). It is so in the readable form and in the compact one. The call does nothing.
pub fn law_writers()
    ensures writes { (readable : Bool) (d : Value) (levels : ℕ) (u : Tree) → IsAlike d → spell_as readable d levels ≡ Ok u → HasFreeKeys u
        → tree_spell readable false d levels ≡ Ok u }
{}

/// A value that fits a plain shape is written alike by both writers, and made into the tree that it means, where that is clean and has no more levels than are
/// left. What a clean tree is at a plain shape is made into the tree that it is spelled as: its keys are names of the shape and keys of the tree.
///
/// It is so in the readable form and in the compact one. `law_reads_tree` of bson_laws says that the value is read from the tree, and read back from the tree that
/// it means; `law_reads_spell` when a value that is read is spelled. The call does nothing.
pub fn law_fitting_written()
    ensures alike { (s : Form) (d : Value) → IsPlain s → FitsIn no_fields d s → IsAlike d }
    ensures written { (readable : Bool) (s : Form) (d : Value) (t : Tree) (levels : ℕ) → IsPlain s → FitsIn no_fields d s → means d ≡ Some t → IsClean t → depth t ≤ levels
        → tree_spell readable false d levels ≡ Ok t }
    ensures viewed { (readable : Bool) (s : Form) (t u : Tree) (d : Value) (levels : ℕ) → IsShape s → IsPlain s → IsClean t → depth t ≤ max_levels → view no_fields s t ≡ Some d
        → spell_as readable d levels ≡ Ok u → tree_spell readable false d levels ≡ Ok u }
{}
