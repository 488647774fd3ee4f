// What must be written for a call, before its buffers are looked at, and its delivery.
ghost use Rattle.std.specs.Prelude.{◌≡◌, [], string_bytes};
ghost use Rattle.bson_buffers.specs.Expected.{IsDelivered};
ghost use Rattle.bson_buffers.specs.Buffers.{call_of};
ghost use Rattle.bson_buffers.specs.declared.status.Status.TheVariants as statuses;

use crate::asking::ShapeRefusal;
use crate::buffer::put_front;
use crate::report::Report;
use crate::status::Status;
use std::alloc::Global;

/// A status, with what must be written to the two buffers.
#[derive(Drop)]
pub struct Expected {
    pub status: Status,
    pub place: usize,
    pub output: Vec<u8>,
    pub text: String,
}

impl Expected {
    /// A text alone.
    pub fn refusal(alloc: Global, status: Status, text: String) -> Expected
        ensures status { result.status ≡ status }
        ensures place { result.place ≡ 0 }
        ensures output { result.output.items ≡ [] }
        ensures text { string_bytes result.text ≡ string_bytes text }
    {
        Expected {
            status,
            place: 0,
            output: Vec::new(alloc),
            text,
        }
    }

    /// The refusal of a shape.
    pub fn no_shape(alloc: Global, refusal: ShapeRefusal) -> Expected
        ensures status { result.status ≡ statuses.ShapeRefused }
        ensures place { result.place ≡ refusal.place }
        ensures output { result.output.items ≡ [] }
        ensures text { string_bytes result.text ≡ string_bytes refusal.text }
    {
        Expected::refused(alloc, Status::ShapeRefused, refusal)
    }

    /// The refusal of a shape, which this status tells of.
    pub fn refused(alloc: Global, status: Status, refusal: ShapeRefusal) -> Expected
        ensures status { result.status ≡ status }
        ensures place { result.place ≡ refusal.place }
        ensures output { result.output.items ≡ [] }
        ensures text { string_bytes result.text ≡ string_bytes refusal.text }
    {
        Expected {
            status,
            place: refusal.place,
            output: Vec::new(alloc),
            text: refusal.text,
        }
    }
}

/// Puts the text into its buffer, as much of it as fits, and the output into its own, if all of it fits.
pub fn deliver(expected: &Expected, output: &mut [u8], text: &mut [u8]) -> Report
    ensures { IsDelivered expected.now.status expected.now.place expected.now.output.items (string_bytes expected.now.text)
        result.status (call_of result output.old output.new text.old text.new) }
{
    let report = Report {
        status: expected.status,
        place: expected.place,
        written: 0,
        needed: expected.output.len(),
        text_written: put_front(expected.text.as_bytes(), text),
        text_needed: expected.text.len(),
    };
    if output.len() < report.needed {
        return Report {
            status: Status::BufferTooSmall,
            ..report
        };
    }
    Report {
        written: put_front(&expected.output, output),
        ..report
    }
}
