//! When each sound document that is written at one shape is read at another: the table of rows, the relation of all parts, and its laws.
#![tactic(auto)]

ghost use Rattle.std.specs.Prelude.{◌≡◌, true, IsSome, Some};
ghost use Rattle.bson_base.specs.Sound.{IsSound};
ghost use Rattle.bson_base.specs.Tree.{Tree};
ghost use Rattle.bson_shape.specs.Form.{Form, no_fields};
ghost use Rattle.bson_shape.specs.Makers.{IsShape};
ghost use Rattle.bson_values.specs.Refusal.{Path};
ghost use Rattle.bson_values.specs.Value.{Value};
ghost use Rattle.bson_laws.specs.Means.{means};
ghost use Rattle.bson_laws.specs.Plain.{IsPlain};
ghost use Rattle.bson_laws.specs.Recursive.{view, FitsIn};
ghost use Rattle.bson_evolve_laws.specs.Compatible.{IsCompatible};
ghost use Rattle.bson_evolve_laws.specs.First.{IsFirstFault};
ghost use Rattle.bson_evolve_laws.specs.PlainTest.{is_plain};

/// What a value of the old shape means has a view at the new one, where the two are compatible: so each sound document that is written at the old shape is read at the new one.
///
/// It does nothing.
pub fn law_compatible()
    ensures views { (old new : Form) (d : Value) (t : Tree) → IsShape old → IsShape new → IsPlain old → IsPlain new → IsCompatible old new → FitsIn no_fields d old
        → means d ≡ Some t → IsSound t → IsSome (view no_fields new t) }
{}

/// Shapes one of whose pairs of parts passes no row are not compatible.
///
/// It does nothing.
pub fn law_first_fault()
    ensures excludes { (old new : Form) (path : Path) → IsFirstFault old new path → IsCompatible old new → ⊥ }
{}

/// A plain shape is compatible with itself.
///
/// It does nothing.
pub fn law_reflexive()
    ensures itself { (s : Form) → IsShape s → IsPlain s → IsCompatible s s }
{}

/// The test of plain shapes tells which are.
///
/// It does nothing.
pub fn law_plain()
    ensures found { (s : Form) → is_plain s ≡ true → IsPlain s }
    ensures passes { (s : Form) → IsPlain s → is_plain s ≡ true }
{}
