// A difference of two shapes, and its reason.
use bson_values::Path;
use std::fmt;

/// A pair of parts that passes no row of the table of compatibility, and why.
#[derive(Debug, Drop)]
pub struct Difference {
    /// Where the parts are in a document.
    pub path: Path,
    /// The notation of the old part, seen through newtypes, marks, references and definitions.
    pub old: String,
    /// That of the new part.
    pub new: String,
    /// Why no row lets them pass.
    pub reason: Reason,
}

/// Why a pair of parts passes no row of the table.
#[derive(Debug, Drop, PartialEq)]
pub enum Reason {
    /// The old part may be null, as an option or `unit`, and the new one takes no null.
    MayBeNull,
    /// The new integer type lacks numbers of the old one.
    Narrower,
    /// The tuples have different numbers of items.
    OtherLength,
    /// Keys of the old part are not keys of the new map.
    OtherKeys,
    /// The table has no row for such parts. Documents may be read all the same.
    NoRow,
    /// The old struct lacks this field of the new one, which is no option.
    MissingField(String),
    /// The new struct refuses this field of the old one.
    UnknownField(String),
    /// The new enum lacks this variant of the old one.
    MissingVariant(String),
    /// The contents of this variant are of different kinds, or tuples with different numbers of items.
    OtherContent(String),
    /// In the variant of the first name, the old struct lacks the field of the second one, which is no option.
    MissingInVariant(String, String),
}

impl fmt::Display for Reason {
    ghost use Rattle.std.specs.Prelude.{Some};
    ghost use Rattle.bson_evolve_differences.specs.Printed.{reason_text};
    ghost use Rattle.bson_evolve_differences.specs.Views.{reason_view};

    ghost output = { λ r. Some (reason_text (reason_view r)) };

    fn fmt<W: fmt::Write>(&self, f: &mut fmt::Formatter<W>) -> fmt::Result {
        match self {
            Reason::MayBeNull => {
                f.write_str("the old part may be null, and the new one takes no null")
            }
            Reason::Narrower => f.write_str("the new type lacks numbers of the old one"),
            Reason::OtherLength => f.write_str("the tuples have different numbers of items"),
            Reason::OtherKeys => f.write_str("keys of the old part are not keys of the new map"),
            Reason::NoRow => f.write_str("the table has no row for such parts"),
            Reason::MissingField(name) => write!(
                f,
                "the new field {name} is no option, and the old struct lacks it"
            ),
            Reason::UnknownField(name) => write!(f, "the new struct refuses the field {name}"),
            Reason::MissingVariant(name) => write!(f, "the new enum lacks the variant {name}"),
            Reason::OtherContent(name) => write!(f, "the variant {name} has other content"),
            Reason::MissingInVariant(variant, name) => write!(
                f,
                "the new field {name} of the variant {variant} is no option, and the old variant lacks it"
            ),
        }
    }
}
