// The writer of a variant with contents, part by part.
ghost use Rattle.std.specs.Prelude.{◌≡◌, take, true, IfOk, IfErr};
ghost use Rattle.std.specs.Borrow.{sem, RestsIfErr};
ghost use Rattle.bson_values.specs.ErrorView.{write_failure};
ghost use Rattle.bson_values.specs.Stop.{IsPlaced};
ghost use Rattle.bson_datum.specs.View.{view};
ghost use Rattle.bson_io.specs.contracts.out.Out.{the_row};
ghost use Rattle.bson_writing.specs.Halting.{halt_view};
ghost use Rattle.bson_ser_parts.specs.Pairs.{RefusesName};
ghost use Rattle.bson_ser_parts.specs.Taking.{AnswersFailed, AnswersBadStep};

use crate::pair::{OnePair, begin_variant, contents_kind};
use crate::refusal::{failed_before, take_back};
use bson_datum::Datum;
use bson_io::{Ledger, Out, Steps};
use bson_ser_stream::{put_item, put_struct_field};
use bson_values::Cause;
use bson_values::ser::{Error, Result};
use bson_writing::Halt;

/// A writer of a variant with contents, part by part: of a document of one pair, whose key is the name of the variant, and under which is an array or a document.
///
/// After a call that was refused the output holds what it held when the writer began, and each later call answers `SerializationError` with `Failed`. A writer
/// that is dropped before its end leaves what it appended so far. The second parameter is what keeps the name.
#[derive(Drop)]
pub struct VariantWriter<'o, N = String> {
    out: &'o mut Out,
    name: N,
    pair: OnePair,
    // Whether the contents are values by their positions, or fields.
    tuple: bool,
    readable: bool,
    // That of the next value.
    index: u64,
    failed: bool,
}

impl<'o> VariantWriter<'o> {
    ghost use Rattle.bson_ser_parts.specs.Variants.{HasItems, HasFields, HasBegun, VariantFailed, TakesItem, TakesField, EndsItems, EndsFields};

    /// Begins a variant of this name behind what the output holds: a tuple variant or a struct variant. Values with two forms are written in their readable form
    /// or in their compact one.
    ///
    /// # Errors
    ///
    /// `InvalidCString`, as `WithPath`, where the name has a zero character; or `NoMemory`. Then the output holds what it held.
    pub fn start<L: Ledger>(
        out: &'o mut Out,
        variant: &str,
        tuple: bool,
        readable: bool,
        steps: &mut Steps<L>,
    ) -> Result<VariantWriter<'o>>
        ensures* rests { sem 𝓛 (RestsIfErr the_row out.entry (λ w. w.out.ghost_name) result (λ o. o.bytes ≡ out.old.bytes)) }
        ensures same_reference { IfOk result (λ w. w.out.ghost_name ≡ out.entry.ghost_name) }
        ensures begun { IfOk result (HasBegun tuple out.old.bytes readable variant.now) }
        ensures refused { IfErr result (λ e. RefusesName variant.now (write_failure e)) }
    {
        let name = String::from_str(out.allocator(), variant)?;
        let pair = begin_variant(out, steps, variant)?;
        Ok(VariantWriter {
            out,
            name,
            pair,
            tuple,
            readable,
            index: 0,
            failed: false,
        })
    }

    /// Takes the next value of a tuple variant.
    ///
    /// # Errors
    ///
    /// As `WithPath`, or `NoMemory`: the refusal of the value as a part of the variant; `SerializationError` with `TooLong`, where all that was given would have
    /// more than 2147483647 bytes; with `BadStep` where a struct variant was begun; with `Failed` after a refusal.
    pub fn element<L: Ledger>(&mut self, value: &Datum<'_>, steps: &mut Steps<L>) -> Result<()>
        ensures same_reference { self.new.out.ghost_name ≡ self.old.out.ghost_name }
        ensures takes { TakesItem self.old self.new (view value.now) result }
        ensures wrong_form { (begun : _) (readable : _) (name : _) (fs : _) → HasFields begun readable name self.old fs → VariantFailed begun self.new × AnswersBadStep result }
        ensures failed { (begun : _) → VariantFailed begun self.old → VariantFailed begun self.new × AnswersFailed result }
    {
        let alloc = self.out.allocator();
        if self.failed {
            return Err(failed_before(alloc));
        }
        if !self.tuple {
            return Err(self.fail(Halt::caused(alloc, Cause::BadStep)));
        }
        let index = self.index;
        // So many values have more bytes than a document may.
        let Some(next) = index.checked_add(1) else {
            return Err(self.fail(Halt::TooLong));
        };
        let (readable, levels) = (self.readable, self.pair.contents.levels);
        match put_item(self.out, steps, index, value, readable, levels) {
            Ok(()) => {
                self.index = next;
                Ok(())
            }
            Err(halt) => {
                let halt = halt.under_key(self.name.as_str());
                Err(self.fail(halt))
            }
        }
    }

    /// Takes the next field of a struct variant, its name before its value.
    ///
    /// # Errors
    ///
    /// As `WithPath`, or `NoMemory`: the refusal of the name or of the value as a part of the variant; `SerializationError` with `TooLong`, where all that was handed
    /// in would have more than 2147483647 bytes; with `BadStep` where a tuple variant was begun; with `Failed` after a refusal.
    pub fn entry<L: Ledger>(
        &mut self,
        key: &str,
        value: &Datum<'_>,
        steps: &mut Steps<L>,
    ) -> Result<()>
        ensures same_reference { self.new.out.ghost_name ≡ self.old.out.ghost_name }
        ensures takes { TakesField self.old self.new key.now (view value.now) result }
        ensures wrong_form { (begun : _) (readable : _) (name : _) (vs : _) → HasItems begun readable name self.old vs → VariantFailed begun self.new × AnswersBadStep result }
        ensures failed { (begun : _) → VariantFailed begun self.old → VariantFailed begun self.new × AnswersFailed result }
    {
        let alloc = self.out.allocator();
        if self.failed {
            return Err(failed_before(alloc));
        }
        if self.tuple {
            return Err(self.fail(Halt::caused(alloc, Cause::BadStep)));
        }
        let (readable, levels) = (self.readable, self.pair.contents.levels);
        match put_struct_field(self.out, steps, key, value, readable, levels) {
            Ok(()) => Ok(()),
            Err(halt) => {
                let halt = halt.under_key(self.name.as_str());
                Err(self.fail(halt))
            }
        }
    }

    /// Ends the variant.
    ///
    /// # Errors
    ///
    /// `SerializationError` with `TooLong`, as `WithPath`, where it would have more than 2147483647 bytes, and with `Failed` after a refusal; or `NoMemory`.
    pub fn end<L: Ledger>(self, steps: &mut Steps<L>) -> Result<()>
        ensures items { EndsItems self.entry self.exit.0.now.bytes result }
        ensures fields { EndsFields self.entry self.exit.0.now.bytes result }
        ensures failed { (begun : _) → VariantFailed begun self.entry → (self.exit.0.now.bytes ≡ begun) × AnswersFailed result }
    {
        let VariantWriter {
            out,
            name: _name,
            pair,
            tuple,
            failed,
            ..
        } = self;
        if failed {
            return Err(failed_before(out.allocator()));
        }
        match pair.end(out, steps, contents_kind(tuple)) {
            Ok(()) => Ok(()),
            Err(halt) => Err(take_back(out, pair.document.start, halt)),
        }
    }

    // Takes back what was appended, says why, and fails from now on.
    fn fail(&mut self, halt: Halt) -> Error
        ensures same_reference { self.new.out.ghost_name ≡ self.old.out.ghost_name }
        ensures failed { self.new.failed ≡ true }
        ensures cut { self.new.out.now.bytes ≡ take self.old.pair.document.start self.old.out.now.bytes }
        ensures placed { IsPlaced (halt_view halt) (write_failure result) }
    {
        self.failed = true;
        let start = self.pair.document.start;
        take_back(self.out, start, halt)
    }
}
