ghost use Rattle.std.specs.Prelude.{◌≡◌};
ghost use Rattle.bson_shape.specs.Refusals.{place_of};

use std::alloc::{AllocError, AllocFailed};
use std::error::Error;
use std::fmt;

/// Why a maker refuses a shape.
#[derive(Debug, Drop, PartialEq, Eq)]
pub enum ShapeError {
    /// The name of a struct is one of the thirteen reserved names, or that of a newtype is one of the three for newtypes.
    ReservedName,
    /// Two fields of a struct or of a struct variant have one name, two variants of an enum, or two definitions.
    RepeatedName,
    /// The key of a map is no text: neither `str`, `string`, `char` nor an enum whose variants are all units.
    KeyNotText,
    /// A name of definitions leads back to itself without a step into a value.
    Unguarded,
    /// The shape would have more than 512 levels.
    TooDeep,
    /// The memory that the call asked for was refused.
    NoMemory,
}

impl fmt::Display for ShapeError {
    ghost use Rattle.std.specs.Prelude.{Some};
    ghost use Rattle.bson_shape.specs.Refusals.{shape_error_text};

    ghost output = { λ e. Some (shape_error_text e) };

    fn fmt<W: fmt::Write>(&self, f: &mut fmt::Formatter<W>) -> fmt::Result {
        f.write_str(match self {
            ShapeError::ReservedName => "reserved name",
            ShapeError::RepeatedName => "repeated name",
            ShapeError::KeyNotText => "map key is not a text",
            ShapeError::Unguarded => "unguarded reference",
            ShapeError::TooDeep => "shape deeper than 512 levels",
            ShapeError::NoMemory => "out of memory",
        })
    }
}

impl Error for ShapeError {}

impl From<AllocError> for ShapeError {
    ghost use Rattle.std.specs.Prelude.{◌≡◌};
    ghost use Rattle.bson_shape.specs.declared.error.ShapeError.TheVariants.{NoMemory};

    ghost from_gives = { λ _ e. e ≡ NoMemory };

    fn from(_error: AllocError) -> ShapeError {
        ShapeError::NoMemory
    }
}

impl<T: Drop> From<AllocFailed<T>> for ShapeError {
    ghost use Rattle.std.specs.Prelude.{◌≡◌};
    ghost use Rattle.bson_shape.specs.declared.error.ShapeError.TheVariants.{NoMemory};

    ghost from_gives = { λ _ e. e ≡ NoMemory };

    fn from(_error: AllocFailed<T>) -> ShapeError {
        ShapeError::NoMemory
    }
}

/// Why a text is refused as a shape. It prints the cause, without the place.
#[derive(Debug, Drop, PartialEq, Eq)]
pub enum ParseError {
    /// The text is no notation of a shape. The number is the count of bytes of the longest beginning that it shares with a notation.
    NotNotation(usize),
    /// A maker refuses a form of the text, and not because memory ran out. The number is the index of the form's first byte.
    Refused(usize, ShapeError),
    /// The memory that the call asked for was refused.
    NoMemory,
}

impl ParseError {
    /// The place in the text, counted in bytes from 0; `None` where memory ran out.
    pub fn place(&self) -> Option<usize>
        ensures place { result ≡ place_of self.now }
    {
        match self {
            ParseError::NotNotation(place) | ParseError::Refused(place, _) => Some(*place),
            ParseError::NoMemory => None,
        }
    }
}

impl fmt::Display for ParseError {
    ghost use Rattle.std.specs.Prelude.{Some};
    ghost use Rattle.bson_shape.specs.Refusals.{refusal_text};

    ghost output = { λ e. Some (refusal_text e) };

    fn fmt<W: fmt::Write>(&self, f: &mut fmt::Formatter<W>) -> fmt::Result {
        match self {
            ParseError::NotNotation(_) => f.write_str("not a shape"),
            ParseError::Refused(_, cause) => cause.fmt(f),
            ParseError::NoMemory => f.write_str("out of memory"),
        }
    }
}

impl Error for ParseError {}

impl From<AllocError> for ParseError {
    ghost use Rattle.std.specs.Prelude.{◌≡◌};
    ghost use Rattle.bson_shape.specs.declared.error.ParseError.TheVariants.{NoMemory};

    ghost from_gives = { λ _ e. e ≡ NoMemory };

    fn from(_error: AllocError) -> ParseError {
        ParseError::NoMemory
    }
}

impl<T: Drop> From<AllocFailed<T>> for ParseError {
    ghost use Rattle.std.specs.Prelude.{◌≡◌};
    ghost use Rattle.bson_shape.specs.declared.error.ParseError.TheVariants.{NoMemory};

    ghost from_gives = { λ _ e. e ≡ NoMemory };

    fn from(_error: AllocFailed<T>) -> ParseError {
        ParseError::NoMemory
    }
}
