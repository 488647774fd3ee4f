// What is done with each document of a stream.
ghost use Rattle.std.specs.Prelude.{◌≡◌, IfOk, OnErr};
ghost use Rattle.bson_kinds.specs.Text.{Bytes};
ghost use Rattle.bson_streaming.specs.Answers.{Answer, IsAnswer};

use bson_io::Out;
use std::alloc::{AllocError, Global};

/// What is done with each document of a stream.
pub trait Job {
    /// In this state a document is answered so, with bytes or with a text that says why there are none, and this is the state after it.
    ghost gives: { Self → Bytes → Answer → Self → Type 0 };

    /// Answers a document: its bytes are put behind those that are due, or the text is returned.
    ///
    /// # Errors
    ///
    /// The outer error means out of memory. What is due is as it was then.
    fn answer(
        &mut self,
        alloc: Global,
        document: &[u8],
        due: &mut Out,
    ) -> Result<Result<(), String>, AllocError>
        ensures answer { IfOk result (IsAnswer (λ a. gives self.old document.now a self.new) due.old.bytes due.new.bytes) }
        ensures kept { OnErr result (due.new.bytes ≡ due.old.bytes) };
}
