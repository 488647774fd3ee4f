ghost use Rattle.std.specs.Prelude.{◌≡◌, ◌⊎◌};
ghost use Rattle.bson_buffers.specs.Finding.{IsDocument, IsEnd, IsBroken};
ghost use Rattle.bson_buffers.specs.Number.{number_of};
ghost use Rattle.bson_buffers.specs.declared.status.Status.TheVariants as statuses;

use crate::report::NextDocument;

/// Looks for the document that begins at a place of a file of documents: `bson_buffers::document_at`.
#[unsafe(no_mangle)]
pub extern "C" fn tbson_next_document(file: &[u8], place: usize) -> NextDocument
    ensures done { result.status ≡ number_of statuses.Done → IsDocument file.now place result.length }
    ensures end { result.status ≡ number_of statuses.End → IsEnd file.now place × (result.length ≡ 0) }
    ensures broken { result.status ≡ number_of statuses.Broken → IsBroken file.now place × (result.length ≡ 0) }
    // It is one of these statuses, and their rows exclude each other.
    ensures complete { (result.status ≡ number_of statuses.Done) ⊎ (result.status ≡ number_of statuses.End) ⊎ (result.status ≡ number_of statuses.Broken) }
{
    NextDocument::crossed(bson_buffers::document_at(file, place))
}
