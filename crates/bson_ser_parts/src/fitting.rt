// Fields whose list of keys and values is gone over part by part, beside the places that say what each part has to be.
ghost use Rattle.std.specs.Prelude.{◌≡◌, [], option_map};
ghost use Rattle.bson_values.specs.TextView.{text_view};
ghost use Rattle.bson_datum.specs.View.{view, fields_view};
ghost use Rattle.bson_laws.specs.Unwrap.{listed, listed_part};
ghost use Rattle.bson_ser_parts.specs.Places.{agrees};
ghost use Rattle.bson_ser_parts.specs.PlaceView.{places_view, Behind, key_front, plain_front, field_front};

use crate::place::Place;
use bson_datum::{Datum, Field};

// Whether the parts of the list of these fields are what they have to be, as far as it goes.
pub(crate) fn agrees(places: &[Place], fields: &[Field<'_>]) -> bool
    ensures { result ≡ agrees (places_view places.now) (listed (fields_view fields.now) []) }
{
    behind_fields(places, fields).is_some()
}

// The places behind those of the list of these fields; `None` where a part is not what it has to be.
#[cycle(behind)]
fn behind_fields<'p>(places: &'p [Place], fields: &[Field<'_>]) -> Option<&'p [Place]>
    ensures { Behind (option_map (λ left. left.now) result) places.now (listed (fields_view fields.now)) }
{
    let mut rest = places;
    for field in fields {
        rest = behind_field(rest, field)?;
    }
    Some(rest)
}

// The places behind those of a field.
#[cycle(behind)]
fn behind_field<'p>(places: &'p [Place], field: &Field<'_>) -> Option<&'p [Place]>
    ensures { Behind (option_map (λ left. left.now) result) places.now (field_front (text_view field.now.name) (view field.now.value)) }
{
    let rest = behind_key(places, field.name.as_str())?;
    behind_value(rest, &field.value)
}

// The places behind those of what stands for a value: of a struct the list of its fields, of a value with two forms its compact one.
#[cycle(behind)]
fn behind_value<'p>(places: &'p [Place], value: &Datum<'_>) -> Option<&'p [Place]>
    ensures { Behind (option_map (λ left. left.now) result) places.now (listed_part (view value.now)) }
{
    match value {
        Datum::Struct { fields, .. } => behind_fields(places, fields),
        Datum::Mode { compact, .. } => behind_value(places, compact),
        _ => behind_plain(places, value),
    }
}

// The places behind that of a value which is no struct and has one form.
fn behind_plain<'p>(places: &'p [Place], value: &Datum<'_>) -> Option<&'p [Place]>
    ensures { Behind (option_map (λ left. left.now) result) places.now (plain_front (view value.now)) }
{
    let (place, rest) = places.split_first()?;
    place.takes_value(value).then_some(rest)
}

// The places behind that of a key.
fn behind_key<'p>(places: &'p [Place], key: &str) -> Option<&'p [Place]>
    ensures { Behind (option_map (λ left. left.now) result) places.now (key_front key.now) }
{
    let (place, rest) = places.split_first()?;
    place.takes_key(key).then_some(rest)
}
