ghost use Rattle.std.specs.Prelude.{◌≡◌};
ghost use Rattle.bson_datum.specs.View.{view};
ghost use Rattle.bson_structs.specs.Variants.{is_unit, IsInside};

use bson_datum::Datum;

/// Whether a datum is the variant of this name without contents.
pub fn is_unit_variant(datum: &Datum<'_>, name: &str) -> bool
    ensures unit { result ≡ is_unit name.now (view datum.now) }
{
    match datum {
        Datum::UnitVariant { variant } => variant.as_str() == name,
        _ => false,
    }
}

/// The value inside the variant of this name; or the datum again, where it is anything else. It takes no memory.
pub fn newtype_value<'a>(datum: Datum<'a>, name: &str) -> Result<Datum<'a>, Datum<'a>>
    ensures inside { IsInside name.now (view datum.entry) result }
{
    match datum {
        Datum::NewtypeVariant { variant, value } => {
            if variant.as_str() != name {
                return Err(Datum::NewtypeVariant { variant, value });
            }
            Ok(Box::into_inner(value))
        }
        datum => Err(datum),
    }
}
