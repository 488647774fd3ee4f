ghost use Rattle.std.specs.Prelude.{◌≡◌, true};
ghost use Rattle.bson_base.specs.Sound.{IsSound};
ghost use Rattle.bson_base.specs.Tree.{Trees, Pairs, document};
ghost use Rattle.bson_infer_laws.specs.Encodings.{encodings};
ghost use Rattle.bson_infer_laws.specs.Inferred.{inferred};
ghost use Rattle.bson_infer_run.specs.Files.{found, inferring_of};
ghost use Rattle.bson_infer_run.specs.Infer.{AreSound};
ghost use Rattle.bson_infer_run.specs.SoundTest.{is_sound};

/// What is inferred from the bytes of sound documents, one behind another, is the join of the forms of these documents.
///
/// It does nothing.
pub fn law_infer_files()
    ensures infers { (ts : Trees) → AreSound ts → inferring_of (encodings ts) ≡ found (inferred ts) }
{}

/// The test of soundness holds of exactly the pairs whose document is sound.
///
/// It does nothing.
pub fn law_sound()
    ensures sound { (ps : Pairs) → is_sound ps ≡ true → IsSound (document ps) }
    ensures passes { (ps : Pairs) → IsSound (document ps) → is_sound ps ≡ true }
{}
