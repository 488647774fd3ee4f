ghost use Rattle.std.specs.Prelude.{◌≡◌, [], true, Ok, IfOk};
ghost use Rattle.bson_shape.specs.Form as form;
ghost use Rattle.bson_shape.specs.Leaf.{is_text};
ghost use Rattle.bson_shape.specs.Makers.{is_text_key};
ghost use Rattle.bson_shape.specs.ShapeView.{form_view};
ghost use Rattle.bson_kinds.specs.Piece.{made};
ghost use Rattle.bson_values.specs.Marked.{contents};
ghost use Rattle.bson_datum.specs.MarkedView.{marked};
ghost use Rattle.bson_values.specs.Value as value;
ghost use Rattle.bson_laws.specs.Containers.{reads_key};
ghost use Rattle.bson_laws.specs.ReadsLeaf.{put_entry};
ghost use Rattle.bson_met.specs.Gives.{Reaches};
ghost use Rattle.bson_met.specs.PieceView.{str_piece};
ghost use Rattle.bson_leaves.specs.KeyValues.{key_value};
ghost use Rattle.bson_texts.specs.ListsMarked.{entries_marked};

use crate::unit::unit_of;
use bson_datum::{Datum, Entry};
use bson_keys::MapKeys;
use bson_met::{MetStr, Reading};
use bson_shape::{Form, Leaf};
use bson_texts::character;
use bson_values::Text;
use std::alloc::{AllocError, Global};
use std::mem;

/// The entries of a map that is read. No two have one key.
#[derive(Drop)]
pub struct Entries<'s, 'de> {
    /// The form of the keys.
    key: Form<'s>,
    /// The entries, in the order in which their keys came first.
    entries: Vec<Entry<'de>>,
    /// The texts that their keys were read from.
    keys: MapKeys<'de>,
}

impl<'s, 'de> Entries<'s, 'de> {
    ghost use Rattle.bson_leaves.specs.EntriesView.{IsIndexed, key_form, entries_of};

    /// No entries. Their keys are to be read at this form, which is `str`, `string`, `char` or an enum of unit variants.
    pub fn new(alloc: Global, key: Form<'s>) -> Entries<'s, 'de>
        requires { is_text_key (form_view key) ≡ true }
        ensures key { key_form result ≡ key.entry }
        ensures none { entries_of result ≡ [] }
        ensures indexed { IsIndexed result }
    {
        Entries {
            key,
            entries: Vec::new(alloc),
            keys: MapKeys::new(),
        }
    }

    /// The key that a text is.
    #[inline(always)]
    pub fn read_key(&self, key: MetStr<'de>) -> Reading<Datum<'de>>
        requires { is_text_key (form_view (key_form self.now)) ≡ true }
        ensures exact { Reaches marked result (reads_key (form_view (key_form self.now)) (str_piece key.entry)) }
    {
        let alloc = *self.entries.allocator();
        match self.key {
            Form::Leaf(leaf) => leaf_key(alloc, leaf, key),
            Form::Enum(variants) => unit_of(alloc, variants, key.text),
            _ => unreachable!(),
        }
    }

    /// Puts an entry, whose key was read from this text: in the place of the one that has its key, and
    /// else behind all others.
    ///
    /// # Errors
    ///
    /// Memory ran out.
    #[inline(always)]
    pub fn put(
        &mut self,
        text: &'de str,
        key: Datum<'de>,
        value: Datum<'de>,
    ) -> Result<(), AllocError>
        requires indexed { IsIndexed self.old }
        requires key { key_value (form_view (key_form self.old)) text.now ≡ Ok (contents (marked key)) }
        ensures key { IfOk result (λ _. key_form self.new ≡ key_form self.old) }
        ensures indexed { IfOk result (λ _. IsIndexed self.new) }
        ensures entries { IfOk result (λ _. entries_marked (entries_of self.new)
            ≡ put_entry (marked key.entry) (marked value.entry) (entries_marked (entries_of self.old))) }
    {
        let alloc = *self.entries.allocator();
        let entry = Entry { key, value };
        match self.keys.place_or_push(alloc, text, self.entries.len()) {
            Ok(Some(place)) => {
                renew(&mut self.entries[place], entry);
                Ok(())
            }
            Ok(None) => Ok(self.entries.push(entry)?),
            Err(error) => {
                discard(entry);
                Err(error)
            }
        }
    }

    /// The entries.
    pub fn finish(self) -> Vec<Entry<'de>>
        ensures { result.items ≡ entries_of self.entry }
    {
        self.entries
    }
}

/// Gives an entry the value of another one, which has its key.
#[inline(never)]
fn renew<'de>(old: &mut Entry<'de>, entry: Entry<'de>)
    ensures key { old.new.key ≡ old.old.key }
    ensures value { old.new.value ≡ entry.entry.value }
{
    let Entry { key, value } = entry;
    drop(key);
    drop(mem::replace(&mut old.value, value));
}

/// Lets an entry go that was not kept.
#[cold]
#[inline(never)]
fn discard(entry: Entry<'_>) {
    drop(entry);
}

/// The key that a text is at a leaf of texts.
#[inline(always)]
fn leaf_key<'de>(alloc: Global, leaf: Leaf, key: MetStr<'de>) -> Reading<Datum<'de>>
    requires { is_text leaf ≡ true }
    ensures exact { Reaches marked result (reads_key (form.leaf leaf) (str_piece key.entry)) }
{
    match leaf {
        Leaf::Char => character(alloc, key.text),
        Leaf::String => owned_text(alloc, key.text),
        _ => Ok(Datum::Str(Text::Borrowed(key.borrow(alloc)?))),
    }
}

/// A copy of a text.
#[inline(never)]
fn owned_text<'de>(alloc: Global, text: &str) -> Reading<Datum<'de>>
    ensures exact { Reaches marked result (Ok (value.str (made text.now))) }
{
    Ok(Datum::Str(Text::Owned(String::from_str(alloc, text)?)))
}
