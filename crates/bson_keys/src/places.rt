ghost use Rattle.std.specs.Prelude.{◌≡◌, ◌≤◌, ◌+◌, Some, None, if◌then◌else◌, map, IfOk};
ghost use Rattle.std.specs.Str.{bytes_eq};
ghost use Rattle.bson_kinds.specs.Places.{place_among};
ghost use Rattle.bson_kinds.specs.Text.{Utf8};
ghost use Rattle.bson_keys.specs.Places.{place_in_tree, place_or, next_place, FindsAll};

use crate::hashes::second_hash_of;
use std::alloc::{AllocError, Global};
use std::collections::BTreeMap;

/// So many keys are looked up by a scan.
const FEW: usize = 8;

/// The places of keys, in the order of their second hashes, and of the texts where these are the same. So each key is found in
/// as many steps as the logarithm of their number, whatever the keys are.
type Places<'de> = BTreeMap<(u64, &'de str), usize>;

/// The keys of a map that is read, each with its place.
#[derive(Drop)]
pub struct MapKeys<'de> {
    /// The first keys at their places, and behind them texts of no use.
    first: [&'de str; FEW],
    /// How many of the first keys there are.
    count: usize,
    /// The places by the keys, made for the first key that has no room among the first ones.
    places: Option<Box<Places<'de>>>,
}

impl<'de> MapKeys<'de> {
    ghost use Rattle.bson_keys.specs.KeysView.{key_place, HasPlacesBelow};

    /// No keys.
    pub fn new() -> MapKeys<'de>
        ensures none { (text : Utf8) → key_place result text ≡ None }
        ensures next { HasPlacesBelow 0 result }
    {
        MapKeys {
            first: [""; FEW],
            count: 0,
            places: None,
        }
    }

    /// One more key, at its place. The places of the keys are 0, 1 and so on.
    pub fn push(&mut self, alloc: Global, key: &'de str, place: usize) -> Result<(), AllocError>
        requires { HasPlacesBelow place self.old }
        ensures places { IfOk result (λ _. (text : Utf8) → key_place self.new text
            ≡ (if bytes_eq key.now text then Some place else key_place self.old text)) }
        ensures next { IfOk result (λ _. HasPlacesBelow (place + 1) self.new) }
    {
        if let Some(places) = &mut self.places {
            insert(places, key, place)?;
            return Ok(());
        }
        if self.count < FEW {
            self.first[self.count] = key;
            self.count += 1;
            return Ok(());
        }
        self.push_to_tree(alloc, key, place)
    }

    /// The place of the key that is the text, by one search; where there is none, one more key, at this place.
    #[inline(always)]
    pub fn place_or_push(
        &mut self,
        alloc: Global,
        key: &'de str,
        place: usize,
    ) -> Result<Option<usize>, AllocError>
        requires { HasPlacesBelow place self.old }
        ensures found { IfOk result (λ o. o ≡ key_place self.old key.now) }
        ensures places { IfOk result (λ o. (text : Utf8) → key_place self.new text
            ≡ (if bytes_eq key.now text then Some (place_or place o) else key_place self.old text)) }
        ensures next { IfOk result (λ o. HasPlacesBelow (next_place place o) self.new) }
    {
        if let Some(places) = &mut self.places {
            return place_or_insert(places, key, place);
        }
        if let Some(found) = scan(&self.first[..self.count], key) {
            return Ok(Some(found));
        }
        self.push(alloc, key, place)?;
        Ok(None)
    }

    /// The same, where the first keys fill all the room that there is for them: all go into a B-tree.
    #[inline(never)]
    fn push_to_tree(&mut self, alloc: Global, key: &'de str, place: usize) -> Result<(), AllocError>
        requires few { self.old.count ≤ 8 }
        requires full { 8 ≤ self.old.count }
        requires none { self.old.places ≡ None }
        ensures places { IfOk result (λ _. (text : Utf8) → key_place self.new text
            ≡ (if bytes_eq key.now text then Some place else key_place self.old text)) }
        ensures next { IfOk result (λ _. HasPlacesBelow (place + 1) self.new) }
    {
        let mut places = places_of(alloc, &self.first)?;
        insert(&mut places, key, place)?;
        self.places = Some(Box::new(alloc, places)?);
        Ok(())
    }
}

/// Puts the place of a key into a B-tree.
#[inline(never)]
fn insert<'de>(places: &mut Places<'de>, key: &'de str, place: usize) -> Result<(), AllocError>
    ensures { IfOk result (λ _. (text : Utf8) → place_in_tree places.new text
        ≡ (if bytes_eq key.now text then Some place else place_in_tree places.old text)) }
{
    places.insert((second_hash_of(key), key), place)?;
    Ok(())
}

/// The place that a B-tree has for a key; where it has none, it is given this one. A key that is there is put in once more, with its own place.
#[inline(never)]
fn place_or_insert<'de>(
    places: &mut Places<'de>,
    key: &'de str,
    place: usize,
) -> Result<Option<usize>, AllocError>
    ensures found { IfOk result (λ o. o ≡ place_in_tree places.old key.now) }
    ensures places { IfOk result (λ o. (text : Utf8) → place_in_tree places.new text
        ≡ (if bytes_eq key.now text then Some (place_or place o) else place_in_tree places.old text)) }
{
    let hash = second_hash_of(key);
    match places.insert((hash, key), place)? {
        None => Ok(None),
        Some(found) => {
            places.insert((hash, key), found)?;
            Ok(Some(found))
        }
    }
}

/// The places by the keys, of each key the last.
fn places_of<'de>(alloc: Global, keys: &[&'de str]) -> Result<Places<'de>, AllocError>
    ensures { IfOk result (λ tree. FindsAll tree (map (λ k. k.now) keys.now)) }
{
    let mut places = BTreeMap::new(alloc);
    for (place, key) in keys.iter().enumerate() {
        insert(&mut places, key, place)?;
    }
    Ok(places)
}

/// The place of the last key that is the text.
fn scan(keys: &[&str], text: &str) -> Option<usize>
    ensures { result ≡ place_among (map (λ k. k.now) keys.now) text.now }
{
    let mut place = keys.len();
    while place > 0 {
        place -= 1;
        if keys[place] == text {
            return Some(place);
        }
    }
    None
}
