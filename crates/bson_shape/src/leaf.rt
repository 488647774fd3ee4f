ghost use Rattle.std.specs.Prelude.{◌≡◌};
ghost use Rattle.bson_shape.specs.Leaf as leaf;

/// A shape without inner shapes, one for each leaf word of the notation.
#[derive(Clone, Copy, Debug, PartialEq, Eq)]
pub enum Leaf {
    /// Any value.
    Any,
    /// Any value, which is passed over.
    Ignored,
    /// A boolean.
    Bool,
    /// A signed number of 8 bits.
    I8,
    /// A signed number of 16 bits.
    I16,
    /// A signed number of 32 bits.
    I32,
    /// A signed number of 64 bits.
    I64,
    /// A number of 8 bits.
    U8,
    /// A number of 16 bits.
    U16,
    /// A number of 32 bits.
    U32,
    /// A number of 64 bits.
    U64,
    /// A double: a number of 64 bits in binary floating point.
    Double,
    /// A text of one character.
    Char,
    /// A text, borrowed.
    Str,
    /// A text, owned.
    String,
    /// A byte string, borrowed.
    Bytes,
    /// A byte string, owned.
    ByteBuf,
    /// No value: null.
    Unit,
    /// An ObjectId.
    ObjectId,
    /// A time in milliseconds since the start of 1970.
    DateTime,
    /// A byte string with its subtype.
    Binary,
    /// A time in seconds and an increment.
    Timestamp,
    /// A regular expression: a pattern and its options.
    Regex,
    /// JavaScript code with a document of its names.
    CodeWithScope,
    /// A decimal floating point number of 128 bits.
    Decimal128,
    /// A namespace and an ObjectId.
    DbPointer,
    /// A UUID: a byte string of subtype 4.
    Uuid,
    /// Any value, as a tree.
    Bson,
    /// A document, as a tree.
    Document,
    /// A document, as its bytes.
    RawDocument,
    /// An array, as its bytes.
    RawArray,
    /// Any value, a document or an array as its bytes.
    RawBson,
}

impl Leaf {
    /// The word of the notation.
    pub fn word(self) -> &'static str
        ensures word { result.now ≡ leaf.word self }
    {
        match self {
            Leaf::Any => "any",
            Leaf::Ignored => "ignored",
            Leaf::Bool => "bool",
            Leaf::I8 => "i8",
            Leaf::I16 => "i16",
            Leaf::I32 => "i32",
            Leaf::I64 => "i64",
            Leaf::U8 => "u8",
            Leaf::U16 => "u16",
            Leaf::U32 => "u32",
            Leaf::U64 => "u64",
            Leaf::Double => "double",
            Leaf::Char => "char",
            Leaf::Str => "str",
            Leaf::String => "string",
            Leaf::Bytes => "bytes",
            Leaf::ByteBuf => "bytebuf",
            Leaf::Unit => "unit",
            Leaf::ObjectId => "oid",
            Leaf::DateTime => "datetime",
            Leaf::Binary => "binary",
            Leaf::Timestamp => "timestamp",
            Leaf::Regex => "regex",
            Leaf::CodeWithScope => "codews",
            Leaf::Decimal128 => "decimal",
            Leaf::DbPointer => "dbpointer",
            Leaf::Uuid => "uuid",
            Leaf::Bson => "bson",
            Leaf::Document => "document",
            Leaf::RawDocument => "rawdoc",
            Leaf::RawArray => "rawarray",
            Leaf::RawBson => "rawbson",
        }
    }

    /// Whether it is a text.
    pub(crate) fn is_text(self) -> bool
        ensures { result ≡ leaf.is_text self }
    {
        matches!(self, Leaf::Char | Leaf::Str | Leaf::String)
    }

    /// The leaf that a word of the notation stands for; `None` where it stands for none.
    #[tactic(auto, unfolding(crate::specs::Leaf::of_word))]
    pub fn from_word(word: &str) -> Option<Leaf>
        ensures leaf { result ≡ leaf.of_word word.now }
    {
        let leaf = match word {
            "any" => Leaf::Any,
            "ignored" => Leaf::Ignored,
            "bool" => Leaf::Bool,
            "i8" => Leaf::I8,
            "i16" => Leaf::I16,
            "i32" => Leaf::I32,
            "i64" => Leaf::I64,
            "u8" => Leaf::U8,
            "u16" => Leaf::U16,
            "u32" => Leaf::U32,
            "u64" => Leaf::U64,
            "double" => Leaf::Double,
            "char" => Leaf::Char,
            "str" => Leaf::Str,
            "string" => Leaf::String,
            "bytes" => Leaf::Bytes,
            "bytebuf" => Leaf::ByteBuf,
            "unit" => Leaf::Unit,
            "oid" => Leaf::ObjectId,
            "datetime" => Leaf::DateTime,
            "binary" => Leaf::Binary,
            "timestamp" => Leaf::Timestamp,
            "regex" => Leaf::Regex,
            "codews" => Leaf::CodeWithScope,
            "decimal" => Leaf::Decimal128,
            "dbpointer" => Leaf::DbPointer,
            "uuid" => Leaf::Uuid,
            "bson" => Leaf::Bson,
            "document" => Leaf::Document,
            "rawdoc" => Leaf::RawDocument,
            "rawarray" => Leaf::RawArray,
            "rawbson" => Leaf::RawBson,
            _ => return None,
        };
        Some(leaf)
    }
}
