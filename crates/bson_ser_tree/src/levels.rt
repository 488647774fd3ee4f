// How many levels of documents and arrays are left for the parts of a value.
use bson_datum::MAX_NESTING_LEVEL;

/// For the parts of a whole value, which is at level 1.
pub(crate) const IN_WHOLE: u32 = MAX_NESTING_LEVEL - 1;

/// For the parts of what a whole variant holds, which is at level 2.
pub(crate) const IN_VARIANT: u32 = MAX_NESTING_LEVEL - 2;
