// The element of an array for the next part of a tuple or the next field of a struct.
ghost use Rattle.bson_slots.specs.NextValue.{IsNextPart};

use bson_met::{Items, Met, Reading, refused};
use bson_values::Cause;
use std::alloc::Global;

/// The next element of an array, which is at this index. Where none is left, the fault that ends their list is the refusal, and
/// without a fault that there are too few.
pub fn next_part<'de>(alloc: Global, index: u64, elements: &mut Items<'de>) -> Reading<Met<'de>>
    ensures { IsNextPart index elements.old result elements.new }
{
    let mut value = elements.start();
    if elements.advance(alloc, &mut value)? {
        return Ok(value);
    }
    Err(refused(alloc, Cause::InvalidLength(index)))
}
