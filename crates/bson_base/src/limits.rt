// What the documents of this library may have at most. `MAX_BYTES` is `MOST` of `bson_io`, which knows no BSON.

/// The deepest nesting level that a reader or a writer takes, for documents, arrays and the scopes of codes. The whole document is at level 1.
pub const MAX_NESTING_LEVEL: u32 = 200;

/// The most bytes behind the subtype of a binary: 16 MiB. In the old subtype 2 a second length is among them.
pub const MAX_BINARY: usize = 16777216;

/// The most bytes of a document.
pub const MAX_BYTES: usize = 2147483647;
