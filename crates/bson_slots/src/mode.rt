// Which of two shapes applies.
ghost use Rattle.std.specs.Prelude.{◌≡◌, if◌then◌else◌};

use bson_shape::Shape;

/// The one of two shapes that applies for a reader who is human or not.
#[inline(always)]
pub fn shape_for_reader<'s>(readable: bool, human: &'s Shape, compact: &'s Shape) -> &'s Shape
    ensures { result.now ≡ (if readable then human.now else compact.now) }
{
    if readable { human } else { compact }
}
