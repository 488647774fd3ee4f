// Reading a notation from left to right, with the forms around on a stack of its own.
ghost use Rattle.std.specs.Prelude.{◌≡◌, ◌<◌, ◌∷◌, ◌++◌, [], IfOk, OnOk, string_bytes, encode_utf8};
ghost use Rattle.bson_shape.specs.Notation.{names_form};
ghost use Rattle.bson_shape.specs.Machine as machine;
ghost use Rattle.bson_shape.specs.ShapeView.{fields_of};
ghost use Rattle.bson_shape.specs.ParserView.{enum_view, holder_view, group_view, owner_view, sign_view, mode_view, levels_view, Reaches};
ghost use Rattle.bson_shape.specs.Answers.{Gives};

use crate::ends::{form_ended, last, no_more};
use crate::group::{
    Group, Holder, OpenEnum, closing, group_closed, grown_enum, is_empty, item_ended,
    opened_angles, opened_braces, opened_parens, opened_table, struct_marked,
};
use crate::levels::{Level, Prefix};
use crate::mode::{Mode, Owner, Sign};
use crate::name::{begins_bare, in_bare, is_bare};
use crate::{FieldShape, Leaf, ParseError, Shape, ShapeError, VariantContent};
use std::alloc::{AllocError, Global};

/// The most forms that may be around a form.
const MAX_AROUND: usize = 512;

/// Appends an ASCII character.
fn push_byte(name: &mut String, b: u8) -> Result<(), AllocError>
    requires { b < 128 }
    ensures { OnOk result (string_bytes name.new ≡ string_bytes name.old ++ b ∷ []) }
{
    name.push(b as char)?;
    Ok(())
}

/// The first byte of a name.
fn name_begun(alloc: Global, owner: Owner, b: u8) -> Result<Mode, AllocError>
    requires { b < 128 }
    ensures { IfOk result (λ m. mode_view m ≡ machine.name_begun (owner_view owner) b) }
{
    let mut name = String::new(alloc);
    if b == b'"' {
        return Ok(Mode::Quoted(owner, name));
    }
    push_byte(&mut name, b)?;
    Ok(Mode::Bare(owner, name))
}

/// Whether a form begins with the byte.
fn begins_form(b: u8) -> bool
    ensures { result ≡ machine.begins_form b }
{
    begins_bare(b)
        || matches!(
            b,
            b'"' | b'?' | b'~' | b'^' | b'%' | b'&' | b'@' | b'[' | b'(' | b'<' | b'{'
        )
}

/// The first byte of a form.
fn form_begun(alloc: Global, levels: &mut Vec<Level>, at: usize, b: u8) -> Result<Mode, AllocError>
    requires { b < 128 }
    ensures { IfOk result (λ m. machine.form_begun at (levels_view levels.old.items) b ≡ (mode_view m, levels_view levels.new.items)) }
{
    if b == b'{' {
        return Ok(opened_braces(alloc, Holder::NamelessAt(at)));
    }
    if b == b'[' {
        levels.push(Level::InBrackets(at))?;
        return Ok(Mode::FormDue);
    }
    if b == b'?' {
        levels.push(Level::InPrefix(at, Prefix::Option))?;
        return Ok(Mode::FormDue);
    }
    if b == b'~' {
        levels.push(Level::InPrefix(at, Prefix::Lossy))?;
        return Ok(Mode::FormDue);
    }
    if b == b'^' {
        levels.push(Level::InPrefix(at, Prefix::Readable))?;
        return Ok(Mode::FormDue);
    }
    if b == b'%' {
        return Ok(Mode::BehindSign(Sign::Percent, at));
    }
    if b == b'&' {
        return Ok(Mode::BehindSign(Sign::Ampersand, at));
    }
    if b == b'@' {
        return Ok(Mode::BehindSign(Sign::At, at));
    }
    if b == b'(' {
        return Ok(opened_parens(alloc, Holder::NamelessAt(at)));
    }
    if b == b'<' {
        return Ok(opened_angles(alloc, at));
    }
    name_begun(alloc, Owner::FormAt(at), b)
}

/// Where a form is expected.
#[tactic(auto, unfolding(crate::specs::Machine::form_due))]
fn form_due(alloc: Global, levels: &mut Vec<Level>, at: usize, b: u8) -> Result<Mode, ParseError>
    requires { b < 128 }
    ensures { Reaches result levels.new.items (machine.form_due at (levels_view levels.old.items) b) }
{
    if !begins_form(b) {
        return Err(ParseError::NotNotation(at));
    }
    if levels.len() >= MAX_AROUND {
        return Err(ParseError::Refused(at, ShapeError::TooDeep));
    }
    Ok(form_begun(alloc, levels, at, b)?)
}

/// Behind a sign with which the form at the place begins.
fn behind_sign(
    alloc: Global,
    sign: Sign,
    place: usize,
    levels: &mut Vec<Level>,
    at: usize,
    b: u8,
) -> Result<Mode, ParseError>
    requires { b < 128 }
    ensures { Reaches result levels.new.items (machine.behind_sign at (sign_view sign) place (levels_view levels.old.items) b) }
{
    match sign {
        Sign::Percent if b == b'(' => {
            levels.push(Level::InPair(place))?;
            Ok(Mode::FormDue)
        }
        Sign::Ampersand if b == b'(' => Ok(opened_table(alloc, place)),
        Sign::At if begins_bare(b) || b == b'"' => {
            Ok(name_begun(alloc, Owner::ReferenceAt(place), b)?)
        }
        Sign::Percent | Sign::Ampersand | Sign::At => Err(ParseError::NotNotation(at)),
    }
}

/// Where the name of an item is expected.
#[tactic(auto, unfolding(crate::specs::Machine::name_due))]
fn name_due(
    alloc: Global,
    group: Group,
    levels: &Vec<Level>,
    at: usize,
    b: u8,
) -> Result<Mode, ParseError>
    requires { b < 128 }
    ensures { Reaches result levels.now.items (machine.name_due at (group_view group) (levels_view levels.now.items) b) }
{
    if begins_bare(b) || b == b'"' {
        return Ok(name_begun(alloc, Owner::ItemOf(group), b)?);
    }
    Err(ParseError::NotNotation(at))
}

/// Where a field is expected; a struct that has none yet may deny unknown ones.
#[tactic(auto, unfolding(crate::specs::Machine::field_due), using(crate::proofs::Groups::fields_none))]
fn field_due(
    alloc: Global,
    holder: Holder,
    fields: Vec<FieldShape>,
    levels: &Vec<Level>,
    at: usize,
    b: u8,
) -> Result<Mode, ParseError>
    requires { b < 128 }
    ensures { Reaches result levels.now.items (machine.field_due at (holder_view holder) (fields_of fields.items) (levels_view levels.now.items) b) }
{
    if b == b'!' && fields.is_empty() {
        return struct_marked(alloc, holder, levels, at);
    }
    name_due(alloc, Group::Braces(holder, fields), levels, at, b)
}

/// Where an item is expected.
#[tactic(auto, unfolding(crate::specs::Machine::item_begun))]
fn item_begun(
    alloc: Global,
    group: Group,
    levels: &mut Vec<Level>,
    at: usize,
    b: u8,
) -> Result<Mode, ParseError>
    requires { b < 128 }
    ensures { Reaches result levels.new.items (machine.item_begun at (group_view group) (levels_view levels.old.items) b) }
{
    match group {
        Group::Parens(holder, parts) => {
            levels.push(Level::InItem(Group::Parens(holder, parts), String::new(alloc)))?;
            form_due(alloc, levels, at, b)
        }
        Group::Braces(holder, fields) => field_due(alloc, holder, fields, levels, at, b),
        Group::ClosedBraces(place, name, fields) => {
            let group = Group::ClosedBraces(place, name, fields);
            name_due(alloc, group, levels, at, b)
        }
        Group::Angles(opened) => name_due(alloc, Group::Angles(opened), levels, at, b),
        Group::Table(place, table) => name_due(alloc, Group::Table(place, table), levels, at, b),
    }
}

/// Where an item is expected; a group that has none yet may close.
#[tactic(auto, unfolding(crate::specs::Machine::item_due))]
fn item_due(
    alloc: Global,
    group: Group,
    levels: &mut Vec<Level>,
    at: usize,
    b: u8,
) -> Result<Mode, ParseError>
    requires { b < 128 }
    ensures { Reaches result levels.new.items (machine.item_due at (group_view group) (levels_view levels.old.items) b) }
{
    if b == closing(&group) && is_empty(&group) {
        return group_closed(alloc, group, levels, at);
    }
    item_begun(alloc, group, levels, at, b)
}

/// Behind the name of a form that begins at the place.
fn form_named(
    alloc: Global,
    place: usize,
    name: String,
    levels: &mut Vec<Level>,
    at: usize,
    b: u8,
) -> Result<Mode, ParseError>
    ensures { Reaches result levels.new.items (machine.form_named at place (string_bytes name) (levels_view levels.old.items) b) }
{
    match b {
        b'=' => {
            levels.push(Level::InPrefix(place, Prefix::Newtype(name)))?;
            Ok(Mode::FormDue)
        }
        b'!' => Ok(Mode::Done(Shape::unit_struct(name))),
        b'(' => Ok(opened_parens(alloc, Holder::NamedAt(place, name))),
        b'{' if !name.is_empty() => Ok(opened_braces(alloc, Holder::NamedAt(place, name))),
        _ => Err(ParseError::NotNotation(at)),
    }
}

/// Behind the name of a variant: what comes next tells what the variant has.
fn variant_named(
    alloc: Global,
    opened: OpenEnum,
    name: String,
    levels: &mut Vec<Level>,
    at: usize,
    b: u8,
) -> Result<Mode, ParseError>
    ensures { Reaches result levels.new.items (machine.variant_named at (enum_view opened) (string_bytes name) (levels_view levels.old.items) b) }
{
    match b {
        b'=' => {
            levels.push(Level::InItem(Group::Angles(opened), name))?;
            Ok(Mode::FormDue)
        }
        b'(' => Ok(opened_parens(alloc, Holder::VariantOf(opened, name))),
        b'{' => Ok(opened_braces(alloc, Holder::VariantOf(opened, name))),
        _ => {
            let grown = grown_enum(opened, name, VariantContent::Unit)?;
            item_ended(alloc, Group::Angles(grown), levels, at, b)
        }
    }
}

/// Behind the name of a field or a definition, which the divider divides from its form.
fn field_named(
    divider: u8,
    group: Group,
    name: String,
    levels: &mut Vec<Level>,
    at: usize,
    b: u8,
) -> Result<Mode, ParseError>
    ensures { Reaches result levels.new.items (machine.field_named at divider (group_view group) (string_bytes name) (levels_view levels.old.items) b) }
{
    if b != divider {
        return Err(ParseError::NotNotation(at));
    }
    levels.push(Level::InItem(group, name))?;
    Ok(Mode::FormDue)
}

/// Behind the name of an item; a part has none.
fn item_named(
    alloc: Global,
    group: Group,
    name: String,
    levels: &mut Vec<Level>,
    at: usize,
    b: u8,
) -> Result<Mode, ParseError>
    ensures { Reaches result levels.new.items (machine.item_named at (group_view group) (string_bytes name) (levels_view levels.old.items) b) }
{
    match group {
        Group::Braces(holder, fields) => {
            field_named(b':', Group::Braces(holder, fields), name, levels, at, b)
        }
        Group::ClosedBraces(place, struct_name, fields) => {
            let group = Group::ClosedBraces(place, struct_name, fields);
            field_named(b':', group, name, levels, at, b)
        }
        Group::Parens(_, _) => Err(ParseError::NotNotation(at)),
        Group::Angles(opened) => variant_named(alloc, opened, name, levels, at, b),
        Group::Table(place, table) => {
            field_named(b'=', Group::Table(place, table), name, levels, at, b)
        }
    }
}

/// Behind a name.
#[tactic(auto, unfolding(crate::specs::Machine::named))]
fn named(
    alloc: Global,
    owner: Owner,
    name: String,
    levels: &mut Vec<Level>,
    at: usize,
    b: u8,
) -> Result<Mode, ParseError>
    ensures { Reaches result levels.new.items (machine.named at (owner_view owner) (string_bytes name) (levels_view levels.old.items) b) }
{
    match owner {
        Owner::FormAt(place) => form_named(alloc, place, name, levels, at, b),
        Owner::ItemOf(group) => item_named(alloc, group, name, levels, at, b),
        Owner::ReferenceAt(_) => form_ended(alloc, Shape::reference(name), levels, at, b),
    }
}

/// Whether the byte makes a name of the word before it.
fn names_form(b: u8) -> bool
    ensures { result ≡ names_form b }
{
    matches!(b, b'=' | b'!' | b'(' | b'{')
}

/// Behind a bare name.
#[tactic(auto, unfolding(crate::specs::Machine::word_ended))]
fn word_ended(
    alloc: Global,
    owner: Owner,
    name: String,
    levels: &mut Vec<Level>,
    at: usize,
    b: u8,
) -> Result<Mode, ParseError>
    ensures { Reaches result levels.new.items (machine.word_ended at (owner_view owner) (string_bytes name) (levels_view levels.old.items) b) }
{
    match owner {
        Owner::FormAt(place) => {
            if names_form(b) {
                return named(alloc, Owner::FormAt(place), name, levels, at, b);
            }
            match Leaf::from_word(name.as_str()) {
                None => Err(ParseError::NotNotation(at)),
                Some(leaf) => form_ended(alloc, Shape::leaf(leaf), levels, at, b),
            }
        }
        Owner::ItemOf(group) => named(alloc, Owner::ItemOf(group), name, levels, at, b),
        Owner::ReferenceAt(place) => {
            named(alloc, Owner::ReferenceAt(place), name, levels, at, b)
        }
    }
}

/// Inside a bare name.
#[tactic(auto, unfolding(crate::specs::Machine::bare_name))]
fn bare_name(
    alloc: Global,
    owner: Owner,
    name: String,
    levels: &mut Vec<Level>,
    at: usize,
    b: u8,
) -> Result<Mode, ParseError>
    requires { b < 128 }
    ensures { Reaches result levels.new.items (machine.bare_name at (owner_view owner) (string_bytes name) (levels_view levels.old.items) b) }
{
    if in_bare(b) {
        let mut longer = name;
        push_byte(&mut longer, b)?;
        return Ok(Mode::Bare(owner, longer));
    }
    word_ended(alloc, owner, name, levels, at, b)
}

/// A closing quote.
#[tactic(auto, unfolding(crate::specs::Machine::name_closed))]
fn name_closed(
    owner: Owner,
    name: String,
    levels: &Vec<Level>,
    at: usize,
) -> Result<Mode, ParseError>
    ensures { Reaches result levels.now.items (machine.name_closed at (owner_view owner) (string_bytes name) (levels_view levels.now.items)) }
{
    if is_bare(name.as_str()) {
        return Err(ParseError::NotNotation(at));
    }
    Ok(Mode::Named(owner, name))
}

/// Inside a quoted name.
#[tactic(auto, unfolding(crate::specs::Machine::quoted_name))]
fn quoted_name(
    owner: Owner,
    name: String,
    levels: &Vec<Level>,
    at: usize,
    b: u8,
) -> Result<Mode, ParseError>
    requires { b < 128 }
    ensures { Reaches result levels.now.items (machine.quoted_name at (owner_view owner) (string_bytes name) (levels_view levels.now.items) b) }
{
    if b == b'"' {
        return name_closed(owner, name, levels, at);
    }
    if b == b'\\' {
        return Ok(Mode::Escape(owner, name));
    }
    let mut longer = name;
    push_byte(&mut longer, b)?;
    Ok(Mode::Quoted(owner, longer))
}

/// Inside a quoted name, behind a backslash.
#[tactic(auto, unfolding(crate::specs::Machine::escape))]
fn escape(
    owner: Owner,
    name: String,
    levels: &Vec<Level>,
    at: usize,
    b: u8,
) -> Result<Mode, ParseError>
    requires { b < 128 }
    ensures { Reaches result levels.now.items (machine.escape at (owner_view owner) (string_bytes name) (levels_view levels.now.items) b) }
{
    if b == b'"' || b == b'\\' {
        let mut longer = name;
        push_byte(&mut longer, b)?;
        return Ok(Mode::Quoted(owner, longer));
    }
    Err(ParseError::NotNotation(at))
}

/// An ASCII character, at a place.
#[tactic(auto, unfolding(crate::specs::Machine::step))]
fn step(
    alloc: Global,
    mode: Mode,
    levels: &mut Vec<Level>,
    at: usize,
    b: u8,
) -> Result<Mode, ParseError>
    requires { b < 128 }
    ensures { Reaches result levels.new.items (machine.step at (mode_view mode) (levels_view levels.old.items) b) }
{
    match mode {
        Mode::FormDue => form_due(alloc, levels, at, b),
        Mode::BehindSign(sign, place) => behind_sign(alloc, sign, place, levels, at, b),
        Mode::ItemDue(group) => item_due(alloc, group, levels, at, b),
        Mode::Bare(owner, name) => bare_name(alloc, owner, name, levels, at, b),
        Mode::Quoted(owner, name) => quoted_name(owner, name, levels, at, b),
        Mode::Escape(owner, name) => escape(owner, name, levels, at, b),
        Mode::Named(owner, name) => named(alloc, owner, name, levels, at, b),
        Mode::ItemDone(group) => item_ended(alloc, group, levels, at, b),
        Mode::Done(shape) => form_ended(alloc, shape, levels, at, b),
    }
}

/// A character that is not ASCII, at a place.
#[tactic(auto, unfolding(crate::specs::Machine::other_character))]
fn other_character(
    alloc: Global,
    mode: Mode,
    levels: &mut Vec<Level>,
    at: usize,
    c: char,
) -> Result<Mode, ParseError>
    ensures { Reaches result levels.new.items (machine.other_character at (mode_view mode) (levels_view levels.old.items) (encode_utf8 c)) }
{
    match mode {
        Mode::Quoted(owner, name) => {
            let mut longer = name;
            longer.push(c)?;
            Ok(Mode::Quoted(owner, longer))
        }
        Mode::Bare(Owner::FormAt(_), name) => match Leaf::from_word(name.as_str()) {
            None => Err(ParseError::NotNotation(at)),
            Some(leaf) => no_more(alloc, Shape::leaf(leaf), levels, at),
        },
        Mode::Bare(Owner::ReferenceAt(_), name) => {
            no_more(alloc, Shape::reference(name), levels, at)
        }
        Mode::Named(Owner::ReferenceAt(_), name) => {
            no_more(alloc, Shape::reference(name), levels, at)
        }
        Mode::Done(shape) => no_more(alloc, shape, levels, at),
        _ => Err(ParseError::NotNotation(at)),
    }
}

/// A character, at a place.
fn read_character(
    alloc: Global,
    mode: Mode,
    levels: &mut Vec<Level>,
    at: usize,
    c: char,
) -> Result<Mode, ParseError>
    ensures { Reaches result levels.new.items (machine.run at (mode_view mode, levels_view levels.old.items) (encode_utf8 c)) }
{
    if c.is_ascii() {
        return step(alloc, mode, levels, at, c as u8);
    }
    other_character(alloc, mode, levels, at, c)
}

/// All the characters.
fn read_characters(alloc: Global, text: &str, levels: &mut Vec<Level>) -> Result<Mode, ParseError>
    requires { levels.old.items ≡ [] }
    ensures { Reaches result levels.new.items (machine.run 0 (machine.Form_due, []) text.now) }
{
    let mut mode = Mode::FormDue;
    let mut at = 0;
    for c in text.chars() {
        mode = read_character(alloc, mode, levels, at, c)?;
        at += c.len_utf8();
    }
    Ok(mode)
}

/// The refusal of a text that ends before its form does.
fn unended(_mode: Mode, at: usize) -> ParseError
    ensures { result ≡ ParseError.NotNotation at }
{
    ParseError::NotNotation(at)
}

/// The end of the text.
#[tactic(auto, unfolding(crate::specs::Machine::finish))]
fn finish(
    alloc: Global,
    mode: Mode,
    levels: &mut Vec<Level>,
    at: usize,
) -> Result<Shape, ParseError>
    ensures { Gives (λ s. s) result (machine.finish at (mode_view mode) (levels_view levels.old.items)) }
{
    match mode {
        Mode::Done(shape) => last(alloc, shape, levels, at),
        Mode::Bare(Owner::FormAt(_), name) => match Leaf::from_word(name.as_str()) {
            None => Err(ParseError::NotNotation(at)),
            Some(leaf) => last(alloc, Shape::leaf(leaf), levels, at),
        },
        Mode::Bare(Owner::ReferenceAt(_), name) => last(alloc, Shape::reference(name), levels, at),
        Mode::Named(Owner::ReferenceAt(_), name) => last(alloc, Shape::reference(name), levels, at),
        other => Err(unended(other, at)),
    }
}

/// The form that the text is the notation of.
#[tactic(auto, unfolding(crate::specs::Machine::parsed))]
pub(crate) fn read(alloc: Global, text: &str) -> Result<Shape, ParseError>
    ensures { Gives (λ s. s) result (machine.parsed text.now) }
{
    let mut levels = Vec::new(alloc);
    let mode = read_characters(alloc, text, &mut levels)?;
    finish(alloc, mode, &mut levels, text.len())
}
