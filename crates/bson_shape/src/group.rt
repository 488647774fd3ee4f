// Items between brackets, with commas between. Each kind of group is a row of each function here.
ghost use Rattle.std.specs.Prelude.{◌≡◌, ℕ, List, IfOk, Result, string_bytes};
ghost use Rattle.bson_shape.specs.Form.{dropped, denied, Form, no_fields, push_field, no_parts, push_part};
ghost use Rattle.bson_shape.specs.Machine as machine;
ghost use Rattle.bson_shape.specs.Makers.{made_structure, Makes};
ghost use Rattle.bson_shape.specs.ParserView.{enum_view, holder_view, group_view, mode_view, levels_view, Reaches};
ghost use Rattle.bson_shape.specs.Answers.{Gives};
ghost use Rattle.bson_shape.specs.ShapeView.{fields_of, parts_of, content_of};
ghost use Rattle.bson_shape.specs.declared.error.ShapeError.{ShapeError};

use crate::levels::{Level, Prefix, made};
use crate::mode::Mode;
use crate::{FieldShape, ParseError, Shape, ShapeError, VariantContent, VariantShape};
use std::alloc::{AllocError, Global};

/// An enum whose closing bracket has not come.
#[derive(Drop)]
pub(crate) struct OpenEnum {
    pub(crate) place: usize,
    pub(crate) variants: Vec<VariantShape>,
}

/// What braces or parentheses belong to.
#[derive(Drop)]
pub(crate) enum Holder {
    /// A form that begins at this place, without a name.
    NamelessAt(usize),
    /// A form that begins at this place, and its name.
    NamedAt(usize, String),
    /// A variant of this name.
    VariantOf(OpenEnum, String),
}

/// A group whose closing bracket has not come, with the items so far.
#[derive(Drop)]
pub(crate) enum Group {
    /// Fields between braces.
    Braces(Holder, Vec<FieldShape>),
    /// The same, of a struct that denies unknown ones: a form that begins at this place, and its name, which may be empty.
    ClosedBraces(usize, String, Vec<FieldShape>),
    /// Parts between parentheses.
    Parens(Holder, Vec<Shape>),
    /// Variants between angle brackets.
    Angles(OpenEnum),
    /// Definitions between parentheses, of a form that begins at this place.
    Table(usize, Vec<FieldShape>),
}

/// Braces without a field yet.
pub(crate) fn opened_braces(alloc: Global, holder: Holder) -> Mode
    ensures { mode_view result ≡ machine.Item_due (machine.Braces (holder_view holder) no_fields) }
{
    Mode::ItemDue(Group::Braces(holder, Vec::new(alloc)))
}

/// The braces of a struct that denies unknown fields, without a field yet. It begins at the place and has this name.
fn opened_closed_braces(alloc: Global, place: usize, name: String) -> Mode
    ensures { mode_view result ≡ machine.Item_due (machine.Closed_braces place (string_bytes name) no_fields) }
{
    Mode::ItemDue(Group::ClosedBraces(place, name, Vec::new(alloc)))
}

/// Behind `{!`: the braces of a struct that denies unknown fields, without a field yet; a variant has none.
pub(crate) fn struct_marked(
    alloc: Global,
    holder: Holder,
    levels: &Vec<Level>,
    at: usize,
) -> Result<Mode, ParseError>
    ensures { Reaches result levels.now.items (machine.struct_marked at (holder_view holder) (levels_view levels.now.items)) }
{
    match holder {
        Holder::NamelessAt(place) => Ok(opened_closed_braces(alloc, place, String::new(alloc))),
        Holder::NamedAt(place, name) => Ok(opened_closed_braces(alloc, place, name)),
        Holder::VariantOf(_, _) => Err(ParseError::NotNotation(at)),
    }
}

/// Parentheses without a part yet.
pub(crate) fn opened_parens(alloc: Global, holder: Holder) -> Mode
    ensures { mode_view result ≡ machine.Item_due (machine.Parens (holder_view holder) no_parts) }
{
    Mode::ItemDue(Group::Parens(holder, Vec::new(alloc)))
}

/// An enum without a variant yet, which begins at the place.
pub(crate) fn opened_angles(alloc: Global, place: usize) -> Mode
    ensures { mode_view result ≡ machine.Item_due (machine.Angles (machine.opened_enum place)) }
{
    let variants = Vec::new(alloc);
    Mode::ItemDue(Group::Angles(OpenEnum { place, variants }))
}

/// The parentheses of definitions without one yet, of a form that begins at the place.
pub(crate) fn opened_table(alloc: Global, place: usize) -> Mode
    ensures { mode_view result ≡ machine.Item_due (machine.Table place no_fields) }
{
    Mode::ItemDue(Group::Table(place, Vec::new(alloc)))
}

/// The enum with one more variant.
pub(crate) fn grown_enum(
    opened: OpenEnum,
    name: String,
    content: VariantContent,
) -> Result<OpenEnum, AllocError>
    ensures { IfOk result (λ o. enum_view o ≡ machine.grown_enum (enum_view opened) (string_bytes name) (content_of content)) }
{
    let mut grown = opened;
    grown.variants.push(VariantShape { name, content })?;
    Ok(grown)
}

/// The fields and one more.
fn with_field(
    fields: Vec<FieldShape>,
    name: String,
    shape: Shape,
) -> Result<Vec<FieldShape>, AllocError>
    ensures { IfOk result (λ fs. fields_of fs.items ≡ push_field (fields_of fields.items) (string_bytes name) shape) }
{
    let mut grown = fields;
    grown.push(FieldShape { name, shape })?;
    Ok(grown)
}

/// The parts and one more.
fn with_part(parts: Vec<Shape>, part: Shape) -> Result<Vec<Shape>, AllocError>
    ensures { IfOk result (λ ps. parts_of ps.items ≡ push_part (parts_of parts.items) part) }
{
    let mut grown = parts;
    grown.push(part)?;
    Ok(grown)
}

/// The group with one more item: this name, and behind it this form. A part has no name.
pub(crate) fn grown(group: Group, name: String, shape: Shape) -> Result<Group, AllocError>
    ensures { IfOk result (λ g. group_view g ≡ machine.grown (group_view group) (string_bytes name) shape) }
{
    Ok(match group {
        Group::Braces(holder, fields) => Group::Braces(holder, with_field(fields, name, shape)?),
        Group::ClosedBraces(place, struct_name, fields) => {
            Group::ClosedBraces(place, struct_name, with_field(fields, name, shape)?)
        }
        Group::Parens(holder, parts) => Group::Parens(holder, with_part(parts, shape)?),
        Group::Angles(opened) => {
            let content = VariantContent::Newtype(shape);
            Group::Angles(grown_enum(opened, name, content)?)
        }
        Group::Table(place, table) => Group::Table(place, with_field(table, name, shape)?),
    })
}

/// Whether the group has no item yet.
#[tactic(auto, using(crate::proofs::Groups::fields_none, crate::proofs::Groups::parts_none, crate::proofs::Groups::variants_none))]
pub(crate) fn is_empty(group: &Group) -> bool
    ensures { result ≡ machine.is_empty (group_view group.now) }
{
    match group {
        Group::Braces(_, fields) | Group::ClosedBraces(_, _, fields) => fields.is_empty(),
        Group::Parens(_, parts) => parts.is_empty(),
        Group::Angles(opened) => opened.variants.is_empty(),
        Group::Table(_, table) => table.is_empty(),
    }
}

/// The closing bracket.
pub(crate) fn closing(group: &Group) -> u8
    ensures { result ≡ machine.closing (group_view group.now) }
{
    match group {
        Group::Braces(_, _) | Group::ClosedBraces(_, _, _) => b'}',
        Group::Parens(_, _) | Group::Table(_, _) => b')',
        Group::Angles(_) => b'>',
    }
}

/// The last byte of a form that begins at the place, and what its maker answered.
pub(crate) fn form_closed(
    place: usize,
    answer: Result<Shape, ShapeError>,
) -> Result<Mode, ParseError>
    ensures { (at : ℕ) → (st : List machine.Level) → (due : Result Form ShapeError) → Makes answer due → Gives (λ m. (mode_view m, st)) result (machine.form_closed at place st due) }
{
    Ok(Mode::Done(made(place, answer)?))
}

/// The last byte of a variant with this content.
fn variant_closed(
    opened: OpenEnum,
    name: String,
    content: VariantContent,
) -> Result<Mode, AllocError>
    ensures { IfOk result (λ m. mode_view m ≡ machine.Item_done (machine.Angles (machine.grown_enum (enum_view opened) (string_bytes name) (content_of content)))) }
{
    Ok(Mode::ItemDone(Group::Angles(grown_enum(opened, name, content)?)))
}

/// The closing brace of a struct that begins at the place.
fn struct_closed(place: usize, name: String, fields: Vec<FieldShape>) -> Result<Mode, ParseError>
    ensures { (at : ℕ) → (st : List machine.Level) → Gives (λ m. (mode_view m, st)) result (machine.form_closed at place st (made_structure dropped (string_bytes name) (fields_of fields.items))) }
{
    form_closed(place, Shape::structure(name, fields))
}

/// The closing brace of a struct that begins at the place and denies unknown fields.
fn closed_struct_closed(
    place: usize,
    name: String,
    fields: Vec<FieldShape>,
) -> Result<Mode, ParseError>
    ensures { (at : ℕ) → (st : List machine.Level) → Gives (λ m. (mode_view m, st)) result (machine.form_closed at place st (made_structure denied (string_bytes name) (fields_of fields.items))) }
{
    form_closed(place, Shape::closed_structure(name, fields))
}

/// A closing brace.
fn braces_closed(
    alloc: Global,
    holder: Holder,
    fields: Vec<FieldShape>,
    levels: &Vec<Level>,
    at: usize,
) -> Result<Mode, ParseError>
    ensures { Reaches result levels.now.items (machine.group_closed at (machine.Braces (holder_view holder) (fields_of fields.items)) (levels_view levels.now.items)) }
{
    match holder {
        Holder::NamelessAt(place) => struct_closed(place, String::new(alloc), fields),
        Holder::NamedAt(place, name) => struct_closed(place, name, fields),
        Holder::VariantOf(opened, name) => Ok(variant_closed(
            opened,
            name,
            VariantContent::Struct(fields),
        )?),
    }
}

/// A closing parenthesis.
fn parens_closed(
    holder: Holder,
    parts: Vec<Shape>,
    levels: &Vec<Level>,
    at: usize,
) -> Result<Mode, ParseError>
    ensures { Reaches result levels.now.items (machine.group_closed at (machine.Parens (holder_view holder) (parts_of parts.items)) (levels_view levels.now.items)) }
{
    match holder {
        Holder::NamelessAt(place) => form_closed(place, Shape::tuple(parts)),
        Holder::NamedAt(place, name) => form_closed(place, Shape::tuple_struct(name, parts)),
        Holder::VariantOf(opened, name) => Ok(variant_closed(
            opened,
            name,
            VariantContent::Tuple(parts),
        )?),
    }
}

/// A closing bracket.
pub(crate) fn group_closed(
    alloc: Global,
    group: Group,
    levels: &mut Vec<Level>,
    at: usize,
) -> Result<Mode, ParseError>
    ensures { Reaches result levels.new.items (machine.group_closed at (group_view group) (levels_view levels.old.items)) }
{
    match group {
        Group::Braces(holder, fields) => braces_closed(alloc, holder, fields, levels, at),
        Group::ClosedBraces(place, name, fields) => closed_struct_closed(place, name, fields),
        Group::Parens(holder, parts) => parens_closed(holder, parts, levels, at),
        Group::Angles(OpenEnum { place, variants }) => {
            form_closed(place, Shape::enumeration(variants))
        }
        Group::Table(place, table) => {
            levels.push(Level::InPrefix(place, Prefix::Definitions(table)))?;
            Ok(Mode::FormDue)
        }
    }
}

/// Behind an item, with which the group is this.
pub(crate) fn item_ended(
    alloc: Global,
    group: Group,
    levels: &mut Vec<Level>,
    at: usize,
    b: u8,
) -> Result<Mode, ParseError>
    ensures { Reaches result levels.new.items (machine.item_ended at (group_view group) (levels_view levels.old.items) b) }
{
    if b == b',' {
        return Ok(Mode::ItemDue(group));
    }
    if b == closing(&group) {
        return group_closed(alloc, group, levels, at);
    }
    Err(ParseError::NotNotation(at))
}
