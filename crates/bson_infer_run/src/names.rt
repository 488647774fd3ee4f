// Names, each at its index.
ghost use Rattle.std.specs.Prelude.{◌≡◌, ◌≤◌, ◌<◌, ◌+◌, [], ◌∷◌, ◌++◌, Some, false, if◌then◌else◌, get_or, length, map, string_bytes, IfOk, IsTrue, MatchOption};
ghost use Rattle.std.specs.BTreeMap.{get_by_text};
ghost use Rattle.std.specs.List.{list_any};
ghost use Rattle.std.specs.Str.{bytes_eq};
ghost use Rattle.bson_kinds.specs.Places.{place_among};
ghost use Rattle.bson_kinds.specs.Text.{Utf8};
ghost use Rattle.bson_infer_run.specs.NamesView.{FindsAll};
ghost use Rattle.bson_infer_run.specs.SummaryView.{IsAt};

use std::alloc::{AllocError, Global};
use std::collections::BTreeMap;
use std::marker::Model;

/// So many names are looked up by a scan.
const FEW: usize = 16;

type Places = BTreeMap<String, usize>;

/// Different names, each at its index. Contracts see the list of them.
///
/// Each is found in as many steps as the logarithm of their number, whatever the names are.
#[derive(Drop)]
pub(crate) struct Names {
    texts: Vec<String>,
    // The index of each name, where there are more than a few.
    places: Places,
}

impl Model for Names {
    ghost use Rattle.std.specs.Prelude.{List, map, string_bytes};
    ghost use Rattle.bson_kinds.specs.Text.{Utf8};

    ghost Value = { List Utf8 };

    ghost use Rattle.bson_infer_run.specs.NamesView.{IsIndexed};

    ghost view = { λ n. map string_bytes n.texts.items };

    ghost invariant = { λ n. IsIndexed (map string_bytes n.texts.items) n.places };
}

impl Names {
    /// No names.
    pub(crate) fn new(alloc: Global) -> Names
        ensures { result ≡ [] }
    {
        Names {
            texts: Vec::new(alloc),
            places: BTreeMap::new(alloc),
        }
    }

    /// The name at an index.
    pub(crate) fn name(&self, place: usize) -> &str
        requires { place < length self.now }
        ensures { result.now ≡ get_or self.now place result.now }
    {
        self.texts[place].as_str()
    }

    /// Whether a name is at an index.
    pub(crate) fn is_at(&self, name: &str, place: usize) -> bool
        ensures { IsTrue result → IsAt self.now name.now place }
    {
        place < self.texts.len() && self.texts[place].as_str() == name
    }

    /// The index of a name.
    pub(crate) fn place_of(&self, name: &str) -> Option<usize>
        ensures { MatchOption result (list_any (bytes_eq name.now) self.now ≡ false) (IsAt self.now name.now) }
    {
        if self.texts.len() <= FEW {
            return scan(&self.texts, name);
        }
        look_up(&self.places, name)
    }

    /// These names, and one more at the end.
    ///
    /// # Errors
    ///
    /// Memory ran out.
    pub(crate) fn with(self, alloc: Global, name: &str) -> Result<Names, AllocError>
        requires { list_any (bytes_eq name.now) self ≡ false }
        ensures { IfOk result (λ names. names ≡ self ++ name.now ∷ []) }
    {
        let Names { mut texts, places } = self;
        let places = with_place(alloc, places, &texts, name)?;
        texts.push(String::from_str(alloc, name)?)?;
        Ok(Names { texts, places })
    }
}

// The index of these names and one more.
fn with_place(
    alloc: Global,
    places: Places,
    texts: &[String],
    name: &str,
) -> Result<Places, AllocError>
    requires { 16 < length texts.now → FindsAll places (map string_bytes texts.now) }
    ensures { IfOk result (λ p. 16 < length texts.now + 1 → FindsAll p (map string_bytes texts.now ++ name.now ∷ [])) }
{
    if texts.len() < FEW {
        return Ok(places);
    }
    let mut places = of_all(alloc, places, texts)?;
    put(&mut places, String::from_str(alloc, name)?, texts.len())?;
    Ok(places)
}

// The index of names that are no longer a few. It is there where they were so before.
fn of_all(alloc: Global, places: Places, texts: &[String]) -> Result<Places, AllocError>
    requires many { 16 ≤ length texts.now }
    requires finds { 16 < length texts.now → FindsAll places (map string_bytes texts.now) }
    ensures { IfOk result (λ p. FindsAll p (map string_bytes texts.now)) }
{
    if texts.len() > FEW {
        return Ok(places);
    }
    places_of(alloc, texts)
}

// The indexes of names.
fn places_of(alloc: Global, texts: &[String]) -> Result<Places, AllocError>
    ensures { IfOk result (λ p. FindsAll p (map string_bytes texts.now)) }
{
    let mut places = BTreeMap::new(alloc);
    for (place, text) in texts.iter().enumerate() {
        put(&mut places, String::from_str(alloc, text.as_str())?, place)?;
    }
    Ok(places)
}

// Puts the index of a name into the B-tree.
fn put(places: &mut Places, name: String, place: usize) -> Result<(), AllocError>
    ensures { IfOk result (λ _. (text : Utf8) → get_by_text places.new text
        ≡ (if bytes_eq (string_bytes name) text then Some place else get_by_text places.old text)) }
{
    places.insert(name, place)?;
    Ok(())
}

// The index that the B-tree has for a name.
fn look_up(places: &Places, name: &str) -> Option<usize>
    ensures { result ≡ get_by_text places.now name.now }
{
    places.get(name).copied()
}

// The index of a name, the last where there are more.
fn scan(texts: &[String], name: &str) -> Option<usize>
    ensures { result ≡ place_among (map string_bytes texts.now) name.now }
{
    let mut place = texts.len();
    while place > 0 {
        place -= 1;
        if texts[place].as_str() == name {
            return Some(place);
        }
    }
    None
}
