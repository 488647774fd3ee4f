// Files in parts, and the stream beside the migration.
ghost use Rattle.std.specs.Prelude.{◌≡◌, ◌++◌, ◌<◌, ◌^◌, [], ◌∷◌, None, Some, length};
ghost use Rattle.bson_kinds.specs.Text.{Bytes};
ghost use Rattle.bson_rawdoc.specs.Cut.{cut};
ghost use Rattle.bson_shape.specs.Form.{Form};
ghost use Rattle.bson_shape.specs.Makers.{IsShape};
ghost use Rattle.bson_shape.specs.Notation.{text};
ghost use Rattle.bson_migrate_run.specs.Migrating.{migration_of};
ghost use Rattle.bson_migrate_run.specs.declared.status.MigrateStatus.{MigrateStatus};
ghost use Rattle.bson_program.specs.Run.{AllQuiet, Run};
ghost use Rattle.bson_stream_run.specs.Migrates.{Migrates};
ghost use Rattle.bson_stream_run.specs.Parts.{in_parts};
ghost use Rattle.bson_stream_run.specs.Rows.{IsRun};

/// A file is migrated as its parts are: what the migration of a part that is whole comes to, and then what that of the rest comes to, with its numbers and its place moved on.
///
/// So a dump that was cut behind a document and migrated in parts gives what one run gives. The call does nothing.
pub fn law_migrate_in_parts()
    ensures parts { (s : Form) (first second : Bytes) → (cut first).broken ≡ None
        → migration_of s (first ++ second) ≡ in_parts (length first) (length (cut first).pieces) (migration_of s first) (migration_of s second) }
{}

/// A run of the stream writes what a migration of the same file writes: where the file is whole, the same output, the same lines and the same status; where it is broken, the same line and the same
/// status, and before that what the documents in front of the place come to; or memory runs out.
///
/// It is premised that the source tells its bytes, of which there are fewer than 2^64, that no call on it or on a sink failed, and that no sink's count of them is at its last value. The call does nothing.
pub fn law_stream_is_migrate()
    ensures migrates { (r : Run MigrateStatus) (s : Form) (file : Bytes) → IsRun r → IsShape s → r.words ≡ text s ∷ [] → r.input.before ≡ Some file → length file < 2 ^ 64 → AllQuiet r → Migrates s file r }
{}
