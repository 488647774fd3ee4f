// Pairs of parts that must pass, each with the way to it.
ghost use Rattle.std.specs.Prelude.{◌≡◌, [], ◌∷◌, ◌++◌, IfOk, Some};
ghost use Rattle.bson_values.specs.Refusal.{at_index, at_key};
ghost use Rattle.bson_evolve_laws.specs.Rows as rows;
ghost use Rattle.bson_evolve_check.specs.Steps.{answer_view, step_view, variant_path, way_path};

use bson_shape::Shape;
use std::alloc::{AllocError, Global};

/// Where a part is in the value around it.
#[derive(Clone, Copy)]
pub enum Inner<'s> {
    /// The value itself.
    Here,
    /// At a key.
    Key(&'s str),
    /// At an index.
    Index(usize),
}

/// The way from a value to one of its parts: under the name of a variant, where there is one, and then where the part is in its content.
#[derive(Clone, Copy)]
pub struct Way<'s> {
    pub variant: Option<&'s str>,
    pub inner: Inner<'s>,
}

/// A pair of parts, and the way to it.
#[derive(Clone, Copy)]
pub struct Step<'s> {
    pub way: Way<'s>,
    pub old: &'s Shape,
    pub new: &'s Shape,
}

/// The pairs that must pass; `None` where no row names the pair.
pub type Answer<'s> = Option<Vec<Step<'s>>>;

impl<'s> Way<'s> {
    /// The value itself.
    pub fn here() -> Way<'s>
        ensures { way_path result ≡ [] }
    {
        Way {
            variant: None,
            inner: Inner::Here,
        }
    }

    /// The value at a key.
    pub fn key(key: &'s str) -> Way<'s>
        ensures { way_path result ≡ at_key key.now ∷ [] }
    {
        Way {
            variant: None,
            inner: Inner::Key(key),
        }
    }

    /// The value at an index.
    pub fn index(index: usize) -> Way<'s>
        ensures { way_path result ≡ at_index index ∷ [] }
    {
        Way {
            variant: None,
            inner: Inner::Index(index),
        }
    }
}

impl<'s> Step<'s> {
    /// A pair at a key of the content of a variant, where there is one.
    pub fn at_key(
        variant: Option<&'s str>,
        key: &'s str,
        old: &'s Shape,
        new: &'s Shape,
    ) -> Step<'s>
        ensures { step_view result ≡ rows.step (variant_path variant.entry ++ (at_key key.now ∷ [])) old.now new.now }
    {
        let way = Way {
            variant,
            inner: Inner::Key(key),
        };
        Step { way, old, new }
    }

    /// A pair at an index of the content of a variant, where there is one.
    pub fn at_index(
        variant: Option<&'s str>,
        index: usize,
        old: &'s Shape,
        new: &'s Shape,
    ) -> Step<'s>
        ensures { step_view result ≡ rows.step (variant_path variant.entry ++ (at_index index ∷ [])) old.now new.now }
    {
        let way = Way {
            variant,
            inner: Inner::Index(index),
        };
        Step { way, old, new }
    }

    /// The pair that a newtype variant of this name holds.
    pub fn in_variant(name: &'s str, old: &'s Shape, new: &'s Shape) -> Step<'s>
        ensures { step_view result ≡ rows.step (at_key name.now ∷ []) old.now new.now }
    {
        let way = Way {
            variant: Some(name),
            inner: Inner::Here,
        };
        Step { way, old, new }
    }
}

/// The pair passes, where the condition holds, and names none.
pub(crate) fn passes_if<'s>(alloc: Global, passes: bool) -> Answer<'s>
    ensures { answer_view result ≡ rows.passes_if passes }
{
    if passes { Some(Vec::new(alloc)) } else { None }
}

/// The pair passes, where that of these two parts does.
///
/// # Errors
///
/// Memory ran out.
pub(crate) fn needs<'s>(
    alloc: Global,
    way: Way<'s>,
    old: &'s Shape,
    new: &'s Shape,
) -> Result<Answer<'s>, AllocError>
    ensures { IfOk result (λ a. answer_view a ≡ Some (rows.step (way_path way.entry) old.now new.now ∷ [])) }
{
    let mut steps = Vec::new(alloc);
    steps.push(Step { way, old, new })?;
    Ok(Some(steps))
}
