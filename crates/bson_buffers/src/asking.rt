// The shape that bytes from outside are the notation of.
ghost use Rattle.std.specs.Prelude.{◌≡◌, IfOk, Some, string_bytes};
ghost use Rattle.bson_shape.specs.Refusals.{place_of, refusal_text};
ghost use Rattle.bson_buffers.specs.Judged.{IsJudged};

use bson_shape::{ParseError, Shape};
use std::alloc::{AllocError, Global};

/// Why bytes are no shape.
#[derive(Drop)]
pub struct ShapeRefusal {
    /// Where, counted in bytes from 0.
    pub place: usize,
    /// What is said of it.
    pub text: String,
}

// The refusal that an error of the parser tells of. Out of memory is none.
fn refusal_of(alloc: Global, e: &ParseError) -> Result<ShapeRefusal, AllocError>
    ensures place { IfOk result (λ r. place_of e.now ≡ Some r.place) }
    ensures text { IfOk result (λ r. string_bytes r.text ≡ refusal_text e.now) }
{
    let Some(place) = e.place() else {
        return Err(AllocError);
    };
    let text = format!(in alloc; "{e}")?;
    Ok(ShapeRefusal { place, text })
}

/// The shape that the bytes are the notation of, or why they are none.
///
/// # Errors
///
/// Memory ran out. The inner error says why the bytes are no notation.
pub fn asked(alloc: Global, bytes: &[u8]) -> Result<Result<Shape, ShapeRefusal>, AllocError>
    ensures { IfOk result (λ r. IsJudged bytes.now r) }
{
    let text = match str::from_utf8(bytes) {
        Ok(text) => text,
        Err(e) => {
            let place = e.valid_up_to();
            let text = String::from_str(alloc, "not UTF-8")?;
            return Ok(Err(ShapeRefusal { place, text }));
        }
    };
    match Shape::parse(alloc, text) {
        Ok(shape) => {
            shape.known();
            Ok(Ok(shape))
        }
        Err(e) => Ok(Err(refusal_of(alloc, &e)?)),
    }
}
