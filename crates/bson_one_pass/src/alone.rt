// Values that the pass does not take, each by itself.
ghost use Rattle.std.specs.Prelude.{IfSome};
ghost use Rattle.bson_rawdoc.specs.Node.{node_in};
ghost use Rattle.bson_pass_parts.specs.Put.{recast_for, IsPut};

use bson_de::read_for;
use bson_io::{Out, Steps, Tally};
use bson_kinds::ElementType;
use bson_laws::{Origin, Reader};
use bson_met::Met;
use bson_pass_parts::put;
use bson_rawdoc::RawElement;
use bson_ser_stream::put_value;
use bson_shape::Shape;

/// The value of an element that the pass does not take: it is read as a datum, and the datum is written.
///
/// `None` where the reader or the writer refuses it, and where memory runs out.
#[cold]
#[inline(never)]
pub(crate) fn recast_alone(
    made: &mut Vec<u8>,
    reader: &Reader<'_>,
    shape: &Shape,
    levels: u32,
    element: &RawElement<'_>,
) -> Option<ElementType>
    ensures { IfSome result (IsPut (recast_for reader.now shape.now levels (node_in levels element.now.kind element.now.value)) made.old.items made.new.items) }
{
    let alloc = *made.allocator();
    let compact = Reader {
        readable: false,
        origin: Origin::Bytes,
        table: reader.table,
        rounds: reader.rounds,
        steps: reader.steps,
    };
    let Ok(datum) = read_for(
        alloc,
        &compact,
        shape,
        &Met::of_element(levels, element.clone()),
    ) else {
        return None;
    };
    let mut out = Out::new(alloc);
    let mut steps = Steps::<Tally>::new();
    let Ok(kind) = put_value(&mut out, &mut steps, &datum, false, levels) else {
        return None;
    };
    put(made, out.as_bytes())?;
    Some(kind)
}
