ghost use Rattle.std.specs.Prelude.{◌≡◌, codes, option_and_then};
ghost use Rattle.bson_datum.specs.Access.{as_i64, field};
ghost use Rattle.bson_datum.specs.View.{view};

use crate::bson::Datum;

/// The age of a person.
pub fn age_of(person: &Datum<'_>) -> Option<i64>
    ensures age { result ≡ option_and_then as_i64 (field (codes "age") (view person.now)) }
{
    person.field("age")?.as_i64()
}

/// The city of a person's first address, as `London` in `{addresses: [{city: "London"}, {city: "Paris"}]}`.
pub fn first_city<'d>(person: &'d Datum<'_>) -> Option<&'d str> {
    let addresses = person.field("addresses")?.as_seq()?;
    addresses.first()?.field("city")?.as_str()
}
