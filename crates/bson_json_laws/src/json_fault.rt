use bson_values::Wrapper;
use std::fmt;

/// Why a text stands for no document.
///
/// Source: MongoDB's extended JSON, version 2, "Parsers", and RFC 8259.
#[derive(Clone, Copy, Debug, PartialEq, Eq)]
pub enum JsonFault {
    /// The text is not JSON whose objects and arrays nest at most 403 deep. About where that was seen, in bytes from the start: the place is for people, and no contract says more of it.
    NotJson(usize),
    /// This is the first wrapper key of an object that has other keys too, or whose value is not of the form of the key.
    BadWrapper(Wrapper),
    /// The key comes twice in one object. The path leads to it.
    KeyTwice,
    /// A number is no integer of 64 bits, and too large for a double.
    NumberTooLarge,
    /// The text stands for a value that is no document.
    NotDocument,
    /// Documents and arrays nest deeper than 200 levels.
    TooDeep,
}

impl fmt::Display for JsonFault {
    ghost use Rattle.std.specs.Prelude.{Some};
    ghost use Rattle.bson_json_laws.specs.Printed.{printed_json_fault};

    ghost output = { λ fault. Some (printed_json_fault fault) };

    fn fmt<W: fmt::Write>(&self, f: &mut fmt::Formatter<W>) -> fmt::Result {
        match self {
            JsonFault::NotJson(place) => write!(f, "not JSON at byte {place}"),
            JsonFault::BadWrapper(wrapper) => {
                let key = wrapper.key();
                write!(f, "bad {key}")
            }
            JsonFault::KeyTwice => f.write_str("key twice"),
            JsonFault::NumberTooLarge => f.write_str("number too large"),
            JsonFault::NotDocument => f.write_str("not a document"),
            JsonFault::TooDeep => f.write_str("nested deeper than 200 levels"),
        }
    }
}
