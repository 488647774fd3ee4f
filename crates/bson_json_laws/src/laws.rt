// What holds of all values and texts.
ghost use Rattle.std.specs.Prelude.{◌≡◌, ◌≤◌, Some, None, Ok};
ghost use Rattle.json.specs.Json.{Json};
ghost use Rattle.bson_kinds.specs.Text.{Utf8};
ghost use Rattle.bson_base.specs.Sound.{IsSound, max_levels};
ghost use Rattle.bson_base.specs.Tree.{Tree, document, Pairs, depth};
ghost use Rattle.bson_json_laws.specs.Held.{IsHeld, ArePairsHeld};
ghost use Rattle.bson_json_laws.specs.JsonText.{IsText};
ghost use Rattle.bson_json_laws.specs.Ordinary.{ArePairsOrdinary};
ghost use Rattle.bson_json_laws.specs.ReadText.{json_of_text, document_of_text};
ghost use Rattle.bson_json_laws.specs.Relaxed.{relaxed_pairs};
ghost use Rattle.bson_json_laws.specs.TextFault.{document_text_fault};
ghost use Rattle.bson_json_laws.specs.declared.form.JsonForm.{JsonForm};
ghost use Rattle.bson_json_laws.specs.declared.form.JsonForm.TheVariants.{Canonical, Relaxed};

/// Texts are read back. Of each document in memory:
///
/// - `json`: its text, in either form, is JSON, where it has at most 200 levels.
/// - `back`: its canonical text is read as the same document, where it has no fault of [`TextFault`](crate::TextFault).
/// - `one_text`: so no other such document has the same canonical text.
/// - `relaxed`: its relaxed text is read as the same document, but that an Int64 becomes an Int32 where it fits one, under the same premise.
///
/// The call does nothing.
pub fn law_text_back()
    ensures json { (form : JsonForm) (t : Tree) (text : Utf8) → IsHeld t → depth t ≤ max_levels → (w : IsText form t text) → json_of_text text ≡ Some w.json }
    ensures back { (ps : Pairs) (text : Utf8) → ArePairsHeld ps → document_text_fault ps ≡ None → IsText Canonical (document ps) text → document_of_text text ≡ Ok ps }
    ensures one_text { (ps qs : Pairs) (text : Utf8) → ArePairsHeld ps → ArePairsHeld qs → document_text_fault ps ≡ None → document_text_fault qs ≡ None
        → IsText Canonical (document ps) text → IsText Canonical (document qs) text → ps ≡ qs }
    ensures relaxed { (ps : Pairs) (text : Utf8) → ArePairsHeld ps → document_text_fault ps ≡ None → IsText Relaxed (document ps) text → document_of_text text ≡ Ok (relaxed_pairs ps) }
{}

/// A document that is sound has a canonical text that is read back, where each NaN in it has the bytes `00 00 00 00 00 00 f8 7f`, each decimal is canonical and the options of each regular
/// expression are in order: it has no fault of [`TextFault`](crate::TextFault), and meets the premises of [`law_text_back`]. The call does nothing.
pub fn law_sound_text()
    ensures held { (ps : Pairs) → IsSound (document ps) → ArePairsOrdinary ps → ArePairsHeld ps }
    ensures passes { (ps : Pairs) → IsSound (document ps) → ArePairsOrdinary ps → document_text_fault ps ≡ None }
{}
