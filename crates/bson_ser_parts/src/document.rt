// The writer of a document or an array, part by part.
ghost use Rattle.std.specs.Prelude.{◌≡◌, take, true, IfOk, IfErr};
ghost use Rattle.std.specs.Borrow.{sem, RestsIfErr};
ghost use Rattle.bson_values.specs.ErrorView.{write_failure};
ghost use Rattle.bson_values.specs.Refusal.{no_memory};
ghost use Rattle.bson_values.specs.Stop.{IsPlaced};
ghost use Rattle.bson_datum.specs.View.{view};
ghost use Rattle.bson_io.specs.contracts.out.Out.{the_row};
ghost use Rattle.bson_writing.specs.Halting.{halt_view};
ghost use Rattle.bson_ser_parts.specs.Taking.{AnswersFailed, AnswersBadStep};

use crate::container::{begin_whole, end_begun};
use crate::refusal::{failed_before, take_back};
use bson_datum::Datum;
use bson_io::{Ledger, Out, Steps};
use bson_ser_stream::{Container, put_item, put_map_entry};
use bson_values::Cause;
use bson_values::ser::{Error, Result};
use bson_writing::Halt;

/// A writer of a document or an array, part by part.
///
/// After a call that was refused the output holds what it held when the writer began, and each later call answers `SerializationError` with `Failed`. A writer
/// that is dropped before its end leaves what it appended so far.
#[derive(Drop)]
pub struct DocumentWriter<'o> {
    out: &'o mut Out,
    document: Container,
    array: bool,
    readable: bool,
    // That of the next value of an array.
    index: u64,
    failed: bool,
}

impl<'o> DocumentWriter<'o> {
    ghost use Rattle.bson_ser_parts.specs.Documents.{HasItems, HasEntries, HasBegun, DocumentFailed, TakesItem, TakesEntry, EndsItems, EndsEntries};

    /// Begins an array or a document behind what the output holds. Values with two forms are written in their readable form or in their compact one.
    ///
    /// # Errors
    ///
    /// `NoMemory`. Then the output holds what it held.
    pub fn start<L: Ledger>(
        out: &'o mut Out,
        array: bool,
        readable: bool,
        steps: &mut Steps<L>,
    ) -> Result<DocumentWriter<'o>>
        ensures* rests { sem 𝓛 (RestsIfErr the_row out.entry (λ w. w.out.ghost_name) result (λ o. o.bytes ≡ out.old.bytes)) }
        ensures same_reference { IfOk result (λ w. w.out.ghost_name ≡ out.entry.ghost_name) }
        ensures begun { IfOk result (HasBegun array out.old.bytes readable) }
        ensures memory { IfErr result (λ e. write_failure e ≡ no_memory) }
    {
        let document = begin_whole(out, steps)?;
        Ok(DocumentWriter {
            out,
            document,
            array,
            readable,
            index: 0,
            failed: false,
        })
    }

    /// Takes the next value of an array.
    ///
    /// # Errors
    ///
    /// As `WithPath`, or `NoMemory`: the refusal of the value as a part of the array; `SerializationError` with `TooLong`, where all that was given would have
    /// more than 2147483647 bytes; with `BadStep` where a document was begun; with `Failed` after a refusal.
    pub fn element<L: Ledger>(&mut self, value: &Datum<'_>, steps: &mut Steps<L>) -> Result<()>
        ensures same_reference { self.new.out.ghost_name ≡ self.old.out.ghost_name }
        ensures takes { TakesItem self.old self.new (view value.now) result }
        ensures wrong_form { (begun : _) (readable : _) (es : _) → HasEntries begun readable self.old es → DocumentFailed begun self.new × AnswersBadStep result }
        ensures failed { (begun : _) → DocumentFailed begun self.old → DocumentFailed begun self.new × AnswersFailed result }
    {
        let alloc = self.out.allocator();
        if self.failed {
            return Err(failed_before(alloc));
        }
        if !self.array {
            return Err(self.fail(Halt::caused(alloc, Cause::BadStep)));
        }
        let index = self.index;
        // So many values have more bytes than a document may.
        let Some(next) = index.checked_add(1) else {
            return Err(self.fail(Halt::TooLong));
        };
        let (readable, levels) = (self.readable, self.document.levels);
        match put_item(self.out, steps, index, value, readable, levels) {
            Ok(()) => {
                self.index = next;
                Ok(())
            }
            Err(halt) => Err(self.fail(halt)),
        }
    }

    /// Takes the next entry of a document, its key before its value.
    ///
    /// # Errors
    ///
    /// As `WithPath`, or `NoMemory`: the refusal of the key or of the value as a part of the map; `SerializationError` with `TooLong`, where all that was given
    /// would have more than 2147483647 bytes; with `BadStep` where an array was begun; with `Failed` after a refusal.
    pub fn entry<L: Ledger>(
        &mut self,
        key: &Datum<'_>,
        value: &Datum<'_>,
        steps: &mut Steps<L>,
    ) -> Result<()>
        ensures same_reference { self.new.out.ghost_name ≡ self.old.out.ghost_name }
        ensures takes { TakesEntry self.old self.new (view key.now) (view value.now) result }
        ensures wrong_form { (begun : _) (readable : _) (vs : _) → HasItems begun readable self.old vs → DocumentFailed begun self.new × AnswersBadStep result }
        ensures failed { (begun : _) → DocumentFailed begun self.old → DocumentFailed begun self.new × AnswersFailed result }
    {
        let alloc = self.out.allocator();
        if self.failed {
            return Err(failed_before(alloc));
        }
        if self.array {
            return Err(self.fail(Halt::caused(alloc, Cause::BadStep)));
        }
        let (readable, levels) = (self.readable, self.document.levels);
        match put_map_entry(self.out, steps, key, value, readable, levels) {
            Ok(()) => Ok(()),
            Err(halt) => Err(self.fail(halt)),
        }
    }

    /// Ends the array or the document.
    ///
    /// # Errors
    ///
    /// `SerializationError` with `TooLong`, as `WithPath`, where it would have more than 2147483647 bytes, and with `Failed` after a refusal; or `NoMemory`.
    pub fn end<L: Ledger>(self, steps: &mut Steps<L>) -> Result<()>
        ensures items { EndsItems self.entry self.exit.0.now.bytes result }
        ensures entries { EndsEntries self.entry self.exit.0.now.bytes result }
        ensures failed { (begun : _) → DocumentFailed begun self.entry → (self.exit.0.now.bytes ≡ begun) × AnswersFailed result }
    {
        let DocumentWriter {
            out,
            document,
            failed,
            ..
        } = self;
        if failed {
            return Err(failed_before(out.allocator()));
        }
        match end_begun(document, out, steps) {
            Ok(()) => Ok(()),
            Err(halt) => Err(take_back(out, document.start, halt)),
        }
    }

    // Takes back what was appended, says why, and fails from now on.
    fn fail(&mut self, halt: Halt) -> Error
        ensures same_reference { self.new.out.ghost_name ≡ self.old.out.ghost_name }
        ensures failed { self.new.failed ≡ true }
        ensures cut { self.new.out.now.bytes ≡ take self.old.document.start self.old.out.now.bytes }
        ensures placed { IsPlaced (halt_view halt) (write_failure result) }
    {
        self.failed = true;
        let start = self.document.start;
        take_back(self.out, start, halt)
    }
}
