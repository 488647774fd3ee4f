//! Why documents that are written at one shape need not be read at another: each pair of parts that passes no row of compatibility, with a reason.
#![tactic(auto)]

ghost use Rattle.std.specs.Prelude.{List};
ghost use Rattle.bson_shape.specs.Form.{Form};
ghost use Rattle.bson_evolve_differences.specs.Differences.{AreDifferences, BeginsWithFault, Difference as DifferenceView};
ghost use Rattle.bson_evolve_differences.specs.Reached.{AreOfReached, TellEach};

mod comparing;
mod difference;
mod mismatch;
mod reason;
mod search;

pub use comparing::differences;
pub use difference::{Difference, Reason};

/// The differences of two shapes are those of the pairs that are reached from them: each is of such a pair, on a path to it, and each reason of each such pair is told.
/// There are none where the shapes are compatible; else the first one is at the path where `check` says no.
///
/// It does nothing.
pub fn law_differences()
    ensures begins { (old new : Form) (ds : List DifferenceView) → AreDifferences old new ds → BeginsWithFault old new ds }
    ensures reached { (old new : Form) (ds : List DifferenceView) → AreDifferences old new ds → AreOfReached old new ds }
    ensures each { (old new : Form) (ds : List DifferenceView) → AreDifferences old new ds → TellEach old new ds }
{}
