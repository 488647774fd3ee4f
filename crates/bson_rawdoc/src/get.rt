ghost use Rattle.std.specs.Prelude.{◌≡◌};
ghost use Rattle.std.specs.Option.{option_map};
ghost use Rattle.bson_kinds.specs.Outcome.{result_map};
ghost use Rattle.bson_rawdoc.specs.DocumentView.{document_bytes};
ghost use Rattle.bson_rawdoc.specs.Get.{get};
ghost use Rattle.bson_rawdoc.specs.ValueView.{raw_value};
ghost use Rattle.bson_rawdoc.specs.Walk.{walk};

use crate::document::RawDocument;
use crate::raw::Error;
use crate::value::RawBsonRef;

impl<'a> RawDocument<'a> {
    /// The value at a key: of the first element that has it; `None` where no element does.
    ///
    /// The elements are walked up to that one, and no memory is taken.
    ///
    /// # Errors
    ///
    /// The fault of the list, if it comes before such an element, or the fault of the element's value: see `RawElement::value`.
    pub fn get(self, key: &str) -> Result<Option<RawBsonRef<'a>>, Error>
        ensures get { result_map (option_map raw_value) result ≡ get key.now (walk (document_bytes self.entry)) }
    {
        for element in self.iter_elements() {
            let element = element?;
            if key == element.key() {
                return Ok(Some(element.value()?));
            }
        }
        Ok(None)
    }
}
