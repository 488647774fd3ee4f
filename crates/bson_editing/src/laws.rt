// The laws of edits.
ghost use Rattle.std.specs.Prelude.{◌≡◌, false, ◌-◌, Ok};
ghost use Rattle.bson_kinds.specs.Text.{AreBytes, Bytes};
ghost use Rattle.bson_base.specs.Sound.{max_levels};
ghost use Rattle.bson_rawdoc.specs.Envelope.{envelope};
ghost use Rattle.bson_rawdoc.specs.Walk.{walk};
ghost use Rattle.bson_editing.specs.Edited.{edited, edited_walk};
ghost use Rattle.bson_editing.specs.Plan.{Steps, inside_it};
ghost use Rattle.bson_editing.specs.Settled.{AreForNone, LacksNothing, GivesValues, IsSettled, AreNames, IsFresh};

use crate::changes::Changes;

/// Tells a contract that the edit of a document is the document, byte for byte, where no step is for one of its elements and nothing that steps would put is missing. It does nothing.
pub fn law_edit_kept<C: Changes>()
    ensures { (c : C) → (steps : Steps) → (document : Bytes) → AreBytes document → envelope document ≡ Ok document → AreForNone steps (walk document)
        → LacksNothing steps (walk document) → edited (C.changing c) steps document ≡ Ok document }
{}

/// Tells a contract that the elements of an edited document are those of the document, each in its place as a step keeps, changes, renames or leaves it out, and behind them those that
/// were missing. It does nothing.
pub fn law_edit_in_place<C: Changes>()
    ensures { (c : C) → (steps : Steps) → (document : Bytes) → (made : Bytes) → GivesValues (C.changing c) → AreNames steps → edited (C.changing c) steps document ≡ Ok made
        → edited_walk (C.changing c) steps false (max_levels - 1) (walk document) ≡ Ok (walk made) }
{}

/// Tells a contract that an edited document is the same when it is edited again, where changes make of what they made the same, and the steps of a place do not clash. It does nothing.
pub fn law_edit_again<C: Changes>()
    ensures { (c : C) → (steps : Steps) → (document : Bytes) → (made : Bytes) → GivesValues (C.changing c) → IsSettled (C.changing c) → IsFresh (inside_it steps)
        → edited (C.changing c) steps document ≡ Ok made → edited (C.changing c) steps made ≡ Ok made }
{}
