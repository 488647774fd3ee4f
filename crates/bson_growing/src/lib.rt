//! Vectors, boxes and maps that grow, where nothing is said of what memory was refused for. Each function is generic, so that what is dropped where memory runs out is dropped by a call.
#![tactic(auto)]

ghost use Rattle.std.specs.Prelude.{◌≡◌, [], ◌∷◌, ◌++◌, IfOk, OnOk};
ghost use Rattle.std.specs.BTreeMap.{insert_entry};
ghost use Rattle.std.specs.String.{string_cmp};

use std::alloc::{AllocError, Global};
use std::collections::BTreeMap;

/// Puts one more at the end.
///
/// # Errors
///
/// Memory ran out.
pub fn push<T: Drop>(items: &mut Vec<T>, item: T) -> Result<(), AllocError>
    ensures items { OnOk result (items.new.items ≡ items.old.items ++ item ∷ []) }
{
    items.push(item)?;
    Ok(())
}

/// A vector of these two.
///
/// # Errors
///
/// Memory ran out.
pub fn two<T: Drop>(alloc: Global, first: T, second: T) -> Result<Vec<T>, AllocError>
    ensures items { IfOk result (λ v. v.items ≡ first ∷ second ∷ []) }
{
    let mut items = Vec::with_capacity(alloc, 2)?;
    push(&mut items, first)?;
    push(&mut items, second)?;
    Ok(items)
}

/// A value in a box.
///
/// # Errors
///
/// Memory ran out.
pub fn boxed<T: Drop>(alloc: Global, value: T) -> Result<Box<T>, AllocError>
    ensures value { IfOk result (λ b. b.value ≡ value) }
{
    Ok(Box::new(alloc, value)?)
}

/// Puts a value at a key; one that was there is dropped.
///
/// # Errors
///
/// Memory ran out.
pub fn put<T: Drop>(map: &mut BTreeMap<String, T>, key: String, value: T) -> Result<(), AllocError>
    ensures entries { OnOk result (map.new.entries ≡ insert_entry string_cmp map.old.entries key value) }
{
    let _old = map.insert(key, value)?;
    Ok(())
}
