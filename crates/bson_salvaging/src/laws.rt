// What is promised of a salvage, beside what it does.
ghost use Rattle.std.specs.Prelude.{◌≡◌, List, map};
ghost use Rattle.std.specs.List.{concat};
ghost use Rattle.bson_kinds.specs.Text.{Bytes};
ghost use Rattle.bson_salvaging.specs.Salvage.{kept, salvage};
ghost use Rattle.bson_salvaging.specs.Salvaged.{saved};
ghost use Rattle.bson_salvaging.specs.Undamaged.{AreUndamaged};

/// Of a file without damage each document is kept: all of the file is written, byte for byte.
///
/// The file is documents one behind another, each of any length, that have no fault in their elements. The call does nothing.
#[tactic(auto, using(crate::proofs::Undamaged::undamaged, crate::proofs::Undamaged::all_saved))]
pub fn law_undamaged()
    ensures kept { (documents : List Bytes) → AreUndamaged documents → salvage (concat documents) ≡ map kept documents }
    ensures saved { (documents : List Bytes) → AreUndamaged documents → saved (salvage (concat documents)) ≡ concat documents }
{}
