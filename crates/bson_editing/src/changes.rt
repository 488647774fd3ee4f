// What makes new values of values.
ghost use Rattle.std.specs.Prelude.{ℕ, IfOk};
ghost use Rattle.bson_editing.specs.Answers.{IsChange};
ghost use Rattle.bson_editing.specs.Edited.{Changing};

use bson_kinds::ElementType;
use std::alloc::{AllocError, Global};

/// A value that a change gives.
#[derive(Debug, Drop)]
pub struct NewValue {
    /// Its kind.
    pub kind: ElementType,
    /// Its bytes.
    pub bytes: Vec<u8>,
}

/// The changes of an edit, by their numbers.
pub trait Changes {
    /// Why a value is not changed.
    type Refusal: Drop;

    /// The same, as the definitions see it.
    ghost Cause: { Type 0 };

    /// The changes of these values.
    ghost changing: { Self → Changing Cause };

    /// A cause is told so.
    ghost tells: { Cause → Self.Refusal → Type 0 };

    /// The value that the change of a number makes of a value, of which these are the kind and the bytes, or why it makes none. There may be so many levels of documents and
    /// arrays in the new value.
    ///
    /// # Errors
    ///
    /// The outer error means out of memory.
    fn change(
        &self,
        alloc: Global,
        number: usize,
        levels: usize,
        kind: ElementType,
        bytes: &[u8],
    ) -> Result<Result<NewValue, Self::Refusal>, AllocError>
        ensures changed { IfOk result (IsChange tells (changing self.now number levels (record { kind = kind; bytes = bytes.now }))) };
}
