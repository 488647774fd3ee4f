// The path of a route of ways.
ghost use Rattle.std.specs.Prelude.{◌≡◌, ◌++◌, ◌∷◌, [], map, IfOk, OnOk};
ghost use Rattle.bson_values.specs.PathView.{path_view, segment_view};
ghost use Rattle.bson_values.specs.Refusal.{at_key};
ghost use Rattle.bson_evolve_check.specs.Searching.{route_path};
ghost use Rattle.bson_evolve_check.specs.Steps.{inner_path, variant_path, way_path};

use crate::step::{Inner, Way};
use bson_values::{Path, Segment};
use std::alloc::{AllocError, Global};

/// The path of ways, each of which goes on where the one before it ended.
///
/// # Errors
///
/// Memory ran out.
pub fn path_of(alloc: Global, route: &[Way<'_>]) -> Result<Path, AllocError>
    ensures { IfOk result (λ p. path_view p ≡ route_path route.now) }
{
    let mut segments = Vec::new(alloc);
    for way in route {
        push_way(alloc, &mut segments, way)?;
    }
    Ok(Path::new(segments))
}

// The segments of a way.
fn push_way(alloc: Global, segments: &mut Vec<Segment>, way: &Way<'_>) -> Result<(), AllocError>
    ensures { OnOk result (map segment_view segments.new.items ≡ map segment_view segments.old.items ++ way_path way.now) }
{
    push_variant(alloc, segments, way.variant)?;
    push_inner(alloc, segments, way.inner)?;
    Ok(())
}

fn push_variant(
    alloc: Global,
    segments: &mut Vec<Segment>,
    variant: Option<&str>,
) -> Result<(), AllocError>
    ensures { OnOk result (map segment_view segments.new.items ≡ map segment_view segments.old.items ++ variant_path variant.entry) }
{
    match variant {
        Some(name) => push_key(alloc, segments, name),
        None => Ok(()),
    }
}

fn push_inner(
    alloc: Global,
    segments: &mut Vec<Segment>,
    inner: Inner<'_>,
) -> Result<(), AllocError>
    ensures { OnOk result (map segment_view segments.new.items ≡ map segment_view segments.old.items ++ inner_path inner.entry) }
{
    match inner {
        Inner::Here => Ok(()),
        Inner::Key(key) => push_key(alloc, segments, key),
        Inner::Index(index) => {
            segments.push(Segment::Index(index as u64))?;
            Ok(())
        }
    }
}

fn push_key(alloc: Global, segments: &mut Vec<Segment>, key: &str) -> Result<(), AllocError>
    ensures { OnOk result (map segment_view segments.new.items ≡ map segment_view segments.old.items ++ at_key key.now ∷ []) }
{
    segments.push(Segment::Key(String::from_str(alloc, key)?))?;
    Ok(())
}
