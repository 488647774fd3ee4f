ghost use Rattle.std.specs.Prelude.{◌≡◌, ◌<◌, false, length, map, Some, IfOk, IfSome};
ghost use Rattle.std.specs.Bool.{OnTrue};
ghost use Rattle.std.specs.Option.{ForSome};
ghost use Rattle.bson_shape.specs.Makers.{has_repeat};
ghost use Rattle.bson_slots.specs.Indexes.{Indexes};
ghost use Rattle.bson_slots.specs.Place.{place_of};

use bson_shape::Named;
use std::alloc::{AllocError, Global};
use std::collections::BTreeMap;

/// Below this count of names a scan is as fast as a map.
const FEW: usize = 16;

/// Finds fields or variants by their names.
#[derive(Drop)]
pub struct NameIndex<'s, T: Named> {
    /// The fields or variants, in the shape's order.
    pub items: &'s [T],
    /// The place behind that of the one that was found last.
    next: usize,
    /// The places by the names, made for the first name that was not found at once.
    places: Option<BTreeMap<&'s str, usize>>,
    ghost distinct: { has_repeat (map T.named items.now) ≡ false },
    ghost indexed: { ForSome places (λ m. Indexes m (map T.named items.now)) },
}

impl<'s, T: Named> NameIndex<'s, T> {
    /// An index over fields or variants, whose names all differ.
    pub fn new(items: &'s [T]) -> NameIndex<'s, T>
        requires { has_repeat (map T.named items.now) ≡ false }
        ensures { result.items ≡ items.entry }
    {
        NameIndex {
            items,
            next: 0,
            places: None,
        }
    }

    /// The place of the field or variant that has the name, from 0, or `None` where none has it.
    ///
    /// The one behind that which was found last is tried first, so names in the shape's order are found at once. From 16
    /// names on, any other name is looked up in a map, which is made for the first of them, in as many steps as the logarithm
    /// of their number, whatever the names are. Where memory for the map runs out, the names are scanned instead.
    pub fn place_of(&mut self, alloc: Global, name: &str) -> Option<usize>
        ensures place { result ≡ place_of (map T.named self.old.items.now) name.now }
        ensures within { IfSome result (λ i. i < length self.old.items.now) }
        ensures items { self.new.items ≡ self.old.items }
    {
        let place = if self.is_next(name) {
            self.next
        } else {
            self.find(alloc, name)?
        };
        self.next = place.saturating_add(1);
        Some(place)
    }

    /// Whether the one behind that which was found last has the name.
    fn is_next(&self, name: &str) -> bool
        ensures place { OnTrue result
            (place_of (map T.named self.now.items.now) name.now ≡ Some self.now.next) }
        ensures within { OnTrue result (self.now.next < length self.now.items.now) }
    {
        match self.items.get(self.next) {
            Some(item) => item.name() == name,
            None => false,
        }
    }

    /// The place of the one that has the name, wherever it is.
    fn find(&mut self, alloc: Global, name: &str) -> Option<usize>
        ensures place { result ≡ place_of (map T.named self.old.items.now) name.now }
        ensures within { IfSome result (λ i. i < length self.old.items.now) }
        ensures items { self.new.items ≡ self.old.items }
    {
        if self.items.len() < FEW {
            return scan(self.items, name);
        }
        self.find_in_map(alloc, name)
    }

    /// The same, among many names.
    #[inline(never)]
    fn find_in_map(&mut self, alloc: Global, name: &str) -> Option<usize>
        ensures place { result ≡ place_of (map T.named self.old.items.now) name.now }
        ensures within { IfSome result (λ i. i < length self.old.items.now) }
        ensures items { self.new.items ≡ self.old.items }
    {
        self.make_map(alloc);
        match &self.places {
            Some(places) => places.get(name).copied(),
            None => scan(self.items, name),
        }
    }

    /// Makes the map, where it was not made before. Where memory for it runs out, there is none.
    fn make_map(&mut self, alloc: Global)
        ensures { self.new.items ≡ self.old.items }
    {
        if self.places.is_none() {
            self.places = places_of(alloc, self.items).ok();
        }
    }
}

/// The places of fields or variants, by their names.
fn places_of<T: Named>(alloc: Global, items: &[T]) -> Result<BTreeMap<&str, usize>, AllocError>
    requires { has_repeat (map T.named items.now) ≡ false }
    ensures { IfOk result (λ m. Indexes m (map T.named items.now)) }
{
    let mut places = BTreeMap::new(alloc);
    for (place, item) in items.iter().enumerate() {
        places.insert(item.name(), place)?;
    }
    Ok(places)
}

/// The place of the first field or variant that has the name, from 0, or `None` where none has it.
pub fn scan<T: Named>(items: &[T], name: &str) -> Option<usize>
    ensures place { result ≡ place_of (map T.named items.now) name.now }
    ensures within { IfSome result (λ i. i < length items.now) }
{
    for (place, item) in items.iter().enumerate() {
        if item.name() == name {
            return Some(place);
        }
    }
    None
}
