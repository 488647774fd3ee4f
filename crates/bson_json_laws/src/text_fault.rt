use std::fmt;

/// Why the canonical text of a value would not be read as the value.
///
/// Source: MongoDB's extended JSON, version 2, "Parsers".
#[derive(Clone, Copy, Debug, PartialEq, Eq)]
pub enum TextFault {
    /// The key is one of the wrapper keys, as `$oid`: an object that has it must be of its form.
    WrapperKey,
    /// A NaN that has not the bytes `00 00 00 00 00 00 f8 7f`: its text tells no other bits.
    OddNan,
    /// A decimal whose bytes are not canonical: its text tells its value alone.
    OddDecimal,
    /// Documents and arrays nest deeper than 200 levels.
    TooDeep,
}

impl fmt::Display for TextFault {
    ghost use Rattle.std.specs.Prelude.{Some};
    ghost use Rattle.bson_json_laws.specs.Printed.{printed_text_fault};

    ghost output = { λ fault. Some (printed_text_fault fault) };

    fn fmt<W: fmt::Write>(&self, f: &mut fmt::Formatter<W>) -> fmt::Result {
        f.write_str(match self {
            TextFault::WrapperKey => "wrapper key",
            TextFault::OddNan => "NaN with other bytes",
            TextFault::OddDecimal => "decimal with other bytes",
            TextFault::TooDeep => "nested deeper than 200 levels",
        })
    }
}
