// The writer of a value that serde's data model lacks, field by field of the struct of its reserved name.
ghost use Rattle.std.specs.Prelude.{◌≡◌, true, Some, None, IfOk, OnErr};
ghost use Rattle.std.specs.Borrow.{sem, RestsIfErr};
ghost use Rattle.bson_kinds.specs.Reserved.{reserved_kind};
ghost use Rattle.bson_values.specs.Value.{no_field_values};
ghost use Rattle.bson_datum.specs.View.{view};
ghost use Rattle.bson_io.specs.contracts.out.Out.{the_row};
ghost use Rattle.bson_ser_parts.specs.Taking.{AnswersFailed, AnswersBadStep};

use crate::fronts::begins;
use crate::owned::push_owned;
use crate::refusal::{failed_before, refused_for, take_back};
use bson_datum::{Datum, Field, MAX_NESTING_LEVEL};
use bson_io::{Ledger, Out, Steps};
use bson_kinds::{ElementType, reserved_kind};
use bson_ser_stream::put_reserved;
use bson_values::Cause;
use bson_values::ser::{Error, Result};
use std::alloc::Global;

// How many levels of documents and arrays are left for what is in the value, which is at level 1.
const IN_WHOLE: u32 = MAX_NESTING_LEVEL - 1;

/// A writer of a value that serde's data model lacks, field by field of the struct of its reserved name.
///
/// It keeps copies of the fields, and writes the value at its end. After a call that was refused the output holds what it held when the writer began, and each later
/// call answers `SerializationError` with `Failed`. The second parameter is what keeps the fields.
#[derive(Drop)]
pub struct ValueWriter<'o, F = Vec<Field<'static>>> {
    out: &'o mut Out,
    kind: ElementType,
    fields: F,
    failed: bool,
}

impl<'o> ValueWriter<'o> {
    ghost use Rattle.bson_ser_parts.specs.Values.{HasFields, ValueFailed, TakesField, EndsFields};

    /// Begins the value of the struct of this name behind what the output holds.
    ///
    /// # Errors
    ///
    /// `SerializationError` with `BadStep`, as `WithPath`, where the name is not reserved for a kind; or `NoMemory`. Then the output holds what it held.
    pub fn start<L: Ledger>(
        out: &'o mut Out,
        name: &str,
        _steps: &mut Steps<L>,
    ) -> Result<ValueWriter<'o>>
        ensures* rests { sem 𝓛 (RestsIfErr the_row out.entry (λ w. w.out.ghost_name) result (λ o. o.bytes ≡ out.old.bytes)) }
        ensures same_reference { IfOk result (λ w. w.out.ghost_name ≡ out.entry.ghost_name) }
        ensures begun { IfOk result (λ w. HasFields out.old.bytes name.now w no_field_values) }
        ensures refused { OnErr result (AnswersBadStep result × (reserved_kind name.now ≡ None)) }
    {
        let kind = kind_of(out.allocator(), name)?;
        let fields = Vec::new(out.allocator());
        Ok(ValueWriter {
            out,
            kind,
            fields,
            failed: false,
        })
    }

    /// The kind of the value.
    pub fn element_type(&self) -> ElementType
        ensures { result ≡ self.now.kind }
    {
        self.kind
    }

    /// Takes the next field.
    ///
    /// # Errors
    ///
    /// `SerializationError` with `BadStep`, as `WithPath`, where no list that the name takes begins with the fields so far and this one; with `Failed` after a
    /// refusal; or `NoMemory`.
    pub fn field<L: Ledger>(
        &mut self,
        key: &str,
        value: &Datum<'_>,
        _steps: &mut Steps<L>,
    ) -> Result<()>
        ensures same_reference { self.new.out.ghost_name ≡ self.old.out.ghost_name }
        ensures kind { self.new.kind ≡ self.old.kind }
        ensures takes { TakesField self.old self.new key.now (view value.now) result }
        ensures failed { (begun : _) → ValueFailed begun self.old → ValueFailed begun self.new × AnswersFailed result }
    {
        let alloc = self.out.allocator();
        if self.failed {
            return Err(failed_before(alloc));
        }
        let copied = push_owned(alloc, &mut self.fields, key, value);
        if copied.is_err() {
            self.failed = true;
            return Err(Error::NoMemory);
        }
        if begins(self.kind, &self.fields) {
            return Ok(());
        }
        self.failed = true;
        Err(refused_for(alloc, Cause::BadStep))
    }

    /// Ends the value: appends what the struct of all fields is written as. Each later call answers `SerializationError` with `Failed`.
    ///
    /// # Errors
    ///
    /// As `WithPath`, or `NoMemory`: the refusal of the struct as a value in a document; `SerializationError` with `TooLong`, where it would have more than 2147483647
    /// bytes; with `Failed` after a refusal.
    pub fn end<L: Ledger>(&mut self, steps: &mut Steps<L>) -> Result<()>
        ensures same_reference { self.new.out.ghost_name ≡ self.old.out.ghost_name }
        ensures whole { EndsFields self.old self.new.out.now.bytes result }
        ensures done { self.new.failed ≡ true }
        ensures failed { (begun : _) → ValueFailed begun self.old → ValueFailed begun self.new × AnswersFailed result }
    {
        if self.failed {
            return Err(failed_before(self.out.allocator()));
        }
        self.failed = true;
        let start = self.out.len();
        match put_reserved(self.out, steps, self.kind, &self.fields, false, IN_WHOLE) {
            Ok(_) => Ok(()),
            Err(halt) => Err(take_back(self.out, start, halt)),
        }
    }
}

// The kind that the name is reserved for.
fn kind_of(alloc: Global, name: &str) -> Result<ElementType>
    ensures kind { IfOk result (λ kind. reserved_kind name.now ≡ Some kind) }
    ensures refused { OnErr result (AnswersBadStep result × (reserved_kind name.now ≡ None)) }
{
    match reserved_kind(name) {
        Some(kind) => Ok(kind),
        None => Err(refused_for(alloc, Cause::BadStep)),
    }
}
