ghost use Rattle.std.specs.Prelude.{◌≡◌};
ghost use Rattle.bson_values.specs.Wrapper as wrapper;

/// A wrapper key: a document that has it stands for a value of another kind.
///
/// Source: MongoDB's extended JSON, version 2, with `$numberDecimalBytes`, which carries a decimal without its digits.
#[derive(Clone, Copy, Debug, PartialEq, Eq)]
pub enum Wrapper {
    /// An ObjectId: 24 hexadecimal digits, or twelve bytes.
    Oid,
    /// A text of the deprecated kind Symbol.
    Symbol,
    /// An Int32: a text of decimal digits, with a sign or without.
    NumberInt,
    /// An Int64: a text of decimal digits, with a sign or without.
    NumberLong,
    /// A double: `Infinity`, `-Infinity` or `NaN`.
    NumberDouble,
    /// A binary: base64, and two hexadecimal digits of a subtype.
    Binary,
    /// A binary of subtype 4: the text of a UUID.
    Uuid,
    /// JavaScript code: a text, after which a scope may come.
    Code,
    /// The scope of the JavaScript code that comes after it.
    Scope,
    /// A timestamp: a time and an increment.
    Timestamp,
    /// A regular expression: a pattern and options.
    RegularExpression,
    /// A DbPointer: a namespace and an ObjectId.
    DbPointer,
    /// A time: the text of a date, or milliseconds.
    Date,
    /// The value that is less than every other: the number 1.
    MinKey,
    /// The value that is greater than every other: the number 1.
    MaxKey,
    /// The deprecated kind without a value: true.
    Undefined,
    /// Always refused: a decimal in digits is not supported.
    NumberDecimal,
    /// A Decimal128: its sixteen bytes.
    NumberDecimalBytes,
}

impl Wrapper {
    /// The key.
    pub fn key(self) -> &'static str
        ensures key { result.now ≡ wrapper.key self }
    {
        match self {
            Wrapper::Oid => "$oid",
            Wrapper::Symbol => "$symbol",
            Wrapper::NumberInt => "$numberInt",
            Wrapper::NumberLong => "$numberLong",
            Wrapper::NumberDouble => "$numberDouble",
            Wrapper::Binary => "$binary",
            Wrapper::Uuid => "$uuid",
            Wrapper::Code => "$code",
            Wrapper::Scope => "$scope",
            Wrapper::Timestamp => "$timestamp",
            Wrapper::RegularExpression => "$regularExpression",
            Wrapper::DbPointer => "$dbPointer",
            Wrapper::Date => "$date",
            Wrapper::MinKey => "$minKey",
            Wrapper::MaxKey => "$maxKey",
            Wrapper::Undefined => "$undefined",
            Wrapper::NumberDecimal => "$numberDecimal",
            Wrapper::NumberDecimalBytes => "$numberDecimalBytes",
        }
    }

    /// The wrapper key that a key is; `None` where it is none.
    #[tactic(auto, unfolding(crate::specs::Wrapper::of_key))]
    pub fn from_key(key: &str) -> Option<Wrapper>
        ensures wrapper { result ≡ wrapper.of_key key.now }
    {
        let wrapper = match key {
            "$oid" => Wrapper::Oid,
            "$symbol" => Wrapper::Symbol,
            "$numberInt" => Wrapper::NumberInt,
            "$numberLong" => Wrapper::NumberLong,
            "$numberDouble" => Wrapper::NumberDouble,
            "$binary" => Wrapper::Binary,
            "$uuid" => Wrapper::Uuid,
            "$code" => Wrapper::Code,
            "$scope" => Wrapper::Scope,
            "$timestamp" => Wrapper::Timestamp,
            "$regularExpression" => Wrapper::RegularExpression,
            "$dbPointer" => Wrapper::DbPointer,
            "$date" => Wrapper::Date,
            "$minKey" => Wrapper::MinKey,
            "$maxKey" => Wrapper::MaxKey,
            "$undefined" => Wrapper::Undefined,
            "$numberDecimal" => Wrapper::NumberDecimal,
            "$numberDecimalBytes" => Wrapper::NumberDecimalBytes,
            _ => return None,
        };
        Some(wrapper)
    }
}
