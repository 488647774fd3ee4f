ghost use Rattle.std.specs.Prelude.{IfOk};
ghost use Rattle.bson_evolve_check.specs.Checks.{ArePlain};
ghost use Rattle.bson_evolve_differences.specs.Differences.{AreDifferences, BeginsWithFault};
ghost use Rattle.bson_evolve_differences.specs.Lists.{Lists};
ghost use Rattle.bson_evolve_differences.specs.Views.{differences_view};

use crate::difference::Difference;
use crate::search::all_differences;
use bson_evolve_check::{CheckError, is_plain};
use bson_shape::Shape;
use std::alloc::{AllocError, Global};

/// Why documents that are written at an old shape need not be read at a new one: each pair of parts that is reached from the two and passes no row of the table in
/// `docs/DEFINITIONS.md`, in depth-first order, with a reason.
///
/// There is one exactly where `check` of `bson_evolve_check` says no, and the first is at its path. Where that is the path of the shapes themselves, which is printed as `.`, the
/// reason tells what does not pass there, such as a field that the old shape lacks.
///
/// The search goes on where `check` stops. Two structs that do not pass give one difference for each field that is missing or refused, and two enums one for each variant that
/// is missing or has other content and for each missing field of a variant; what both have in common is compared all the same. Nothing inside other parts that do not pass is.
/// Paths and costs are those of `check`, and each difference holds the notations of both parts.
///
/// As in `check`, parts of equal forms in equal definitions are one part, and each pair is entered once, on the first way to it: where two fields go from `i64` to `i32`, the
/// first of them is told.
///
/// # Errors
///
/// The first of these that applies: `OldNotPlain`, `NewNotPlain`, `NoMemory` where memory runs out.
pub fn differences(alloc: Global, old: &Shape, new: &Shape) -> Result<Vec<Difference>, CheckError>
    ensures exact { Lists result old.now new.now }
    ensures first { IfOk result (λ ds. BeginsWithFault old.now new.now (differences_view ds.items)) }
{
    if !is_plain(old) {
        return Err(CheckError::OldNotPlain);
    }
    if !is_plain(new) {
        return Err(CheckError::NewNotPlain);
    }
    match compare(alloc, old, new) {
        Ok(found) => Ok(found),
        Err(_) => Err(CheckError::NoMemory),
    }
}

// The differences of two plain shapes.
fn compare(alloc: Global, old: &Shape, new: &Shape) -> Result<Vec<Difference>, AllocError>
    requires { ArePlain old.now new.now }
    ensures { IfOk result (λ ds. AreDifferences old.now new.now (differences_view ds.items)) }
{
    let bson = Shape::bson();
    all_differences(alloc, old, new, &bson)
}
