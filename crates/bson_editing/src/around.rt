// A document or an array whose elements are edited.
ghost use Rattle.std.specs.Prelude.{◌≡◌};
ghost use Rattle.bson_rawdoc.specs.DocumentView.{document_bytes};
ghost use Rattle.bson_rawdoc.specs.Walk.{walk};
ghost use Rattle.bson_values.specs.Stop.{IsUnder};
ghost use Rattle.bson_editing.specs.Edited.{has_key, segment};
ghost use Rattle.bson_editing.specs.AroundView.{around_of};

use bson_rawdoc::RawDocument;
use bson_values::Stop;

// A document or an array whose elements are edited.
#[derive(Clone, Copy)]
pub(crate) struct Around<'a> {
    // Its bytes.
    pub document: RawDocument<'a>,
    // Whether it is an array.
    pub array: bool,
    // How many levels of documents and arrays may be in a value of it.
    pub levels: usize,
}

impl Around<'_> {
    // A stop at one of its elements, seen from it.
    pub(crate) fn at_element<F: Drop>(&self, stop: Stop<F>, index: u64, key: &str) -> Stop<F>
        ensures { IsUnder (segment (around_of self.now) index key.now) stop result }
    {
        if self.array {
            stop.under_index(index)
        } else {
            stop.under_key(key)
        }
    }

    // Whether one of its elements has the key.
    pub(crate) fn has_key(&self, key: &str) -> bool
        ensures { result ≡ has_key key.now (around_of self.now).elements }
    {
        has_key(self.document, key)
    }
}

// Whether an element of the document has the key.
fn has_key(document: RawDocument<'_>, key: &str) -> bool
    ensures { result ≡ has_key key.now (walk (document_bytes document.entry)) }
{
    for element in document.iter_elements() {
        let Ok(element) = element else {
            return false;
        };
        if key == element.key() {
            return true;
        }
    }
    false
}
