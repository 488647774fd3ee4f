// The pairs of parts that were met, by the numbers of their parts.
ghost use Rattle.std.specs.Prelude.{◌≡◌, ◌+◌, if◌then◌else◌, List, IfOk};
ghost use Rattle.std.specs.BTreeSet.{btree_set_len};
ghost use Rattle.bson_evolve_laws.specs.First.{Pair};
ghost use Rattle.bson_evolve_laws.specs.Placed.{Placed};
ghost use Rattle.bson_evolve_check.specs.Meeting.{Holds, IsMeeting};
ghost use Rattle.bson_evolve_check.specs.Placing.{AreDifferent, IsAt};

use std::alloc::AllocError;
use std::collections::BTreeSet;

/// The pairs that were met.
pub type Met = BTreeSet<(usize, usize)>;

/// Whether the pair of the parts of these numbers is new. It is met now.
///
/// # Errors
///
/// Memory ran out.
pub(crate) fn meet(met: &mut Met, old: usize, new: usize) -> Result<bool, AllocError>
    ensures met { IfOk result (λ added. (parts : List Placed) (pairs : List Pair) (p : Pair) → AreDifferent parts → Holds parts met.old pairs → IsAt parts old p.old → IsAt parts new p.new
        → IsMeeting parts met.new pairs p added) }
    ensures many { IfOk result (λ added. btree_set_len met.new ≡ btree_set_len met.old + (if added then 1 else 0)) }
{
    Ok(met.insert((old, new))?)
}
