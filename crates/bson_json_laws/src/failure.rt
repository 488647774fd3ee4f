ghost use Rattle.std.specs.Prelude.{◌≡◌, map, reverse};
ghost use Rattle.bson_values.specs.PathView.{path_view, segment_view};
ghost use Rattle.bson_json_laws.specs.FailureView.{IsFailureOf};

use bson_values::{Path, Segment, Stop};
use std::alloc::AllocError;
use std::fmt;

/// A fault, with the path of the value that has it; or out of memory.
///
/// It prints the fault and where it is, as `bad $oid at a.b[2]`; of the whole, the fault alone.
#[derive(Debug, Drop)]
pub enum Failure<F> {
    /// The value at this path has this fault.
    At(Path, F),
    /// Memory ran out.
    NoMemory,
}

impl<F: Drop> Failure<F> {
    /// A fault on its way out, once it is out.
    pub fn from_stop(stop: Stop<F>) -> Failure<F>
        ensures same { IsFailureOf stop result }
    {
        let Stop::Refused(refused) = stop else {
            return Failure::NoMemory;
        };
        let refused = Box::into_inner(refused);
        Failure::At(path_of(refused.segments), refused.fault)
    }
}

// The path of these segments, the innermost first.
#[tactic(auto, using(bson_values::proofs::Reversed::map_reverse))]
fn path_of(mut segments: Vec<Segment>) -> Path
    ensures { path_view result ≡ reverse (map segment_view segments.items) }
{
    segments.reverse();
    Path::new(segments)
}

impl<F> From<AllocError> for Failure<F> {
    ghost use Rattle.bson_json_laws.specs.FailureView.{IsOutOfMemory};

    ghost from_gives = { λ _ f. IsOutOfMemory f };

    fn from(_error: AllocError) -> Failure<F> {
        Failure::NoMemory
    }
}

impl<F: fmt::Display> fmt::Display for Failure<F> {
    ghost use Rattle.bson_json_laws.specs.Printed.{printed_failure};

    ghost output = { λ failure. printed_failure F.output failure };

    fn fmt<W: fmt::Write>(&self, f: &mut fmt::Formatter<W>) -> fmt::Result {
        match self {
            Failure::At(path, fault) => {
                write!(f, "{fault}")?;
                if path.segments().is_empty() {
                    return Ok(());
                }
                write!(f, " at {path}")
            }
            Failure::NoMemory => f.write_str("out of memory"),
        }
    }
}
