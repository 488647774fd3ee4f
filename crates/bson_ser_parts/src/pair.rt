// A document of one pair that is begun before what is under its key is known.
ghost use Rattle.std.specs.Prelude.{◌≡◌, ◌++◌, length, take, false, IfOk, OnOk, IfErr, OnErr};
ghost use Rattle.bson_kinds.specs.Text.{has_zero};
ghost use Rattle.bson_values.specs.ErrorView.{write_failure};
ghost use Rattle.bson_writing.specs.Levels.{in_variant};
ghost use Rattle.bson_ser_stream.specs.Writing.{length_place};
ghost use Rattle.bson_ser_stream.specs.Halting.{Grows};
ghost use Rattle.bson_ser_parts.specs.Pairs.{behind_name, contents_kind, NameHalts, RefusesName, IsIn, PairEnds, PairEndHalts};

use crate::container::end_begun;
use crate::refusal::take_back;
use bson_base::has_zero;
use bson_datum::MAX_NESTING_LEVEL;
use bson_io::{Ledger, Out, Steps};
use bson_kinds::ElementType;
use bson_ser_stream::{Container, begin_element};
use bson_values::{Cause, ser};
use bson_writing::{Halt, zero_in};

/// A document of one pair that was begun, and the array or the document under its key.
#[derive(Clone, Copy)]
pub(crate) struct OnePair {
    /// The whole document.
    pub(crate) document: Container,
    // Where the byte of the kind of what is under the key is.
    kind_place: usize,
    /// What is under the key.
    pub(crate) contents: Container,
}

impl OnePair {
    /// Begins a whole document of one pair, and the array or the document under this key.
    pub(crate) fn begin<L: Ledger>(
        out: &mut Out,
        steps: &mut Steps<L>,
        key: &str,
    ) -> Result<OnePair, Halt>
        ensures document { IfOk result (λ p. p.document.start ≡ length out.old.bytes) }
        ensures kind { IfOk result (λ p. p.kind_place ≡ length (out.old.bytes ++ length_place)) }
        ensures contents { IfOk result (λ p. p.contents.start ≡ length (behind_name out.old.bytes key.now)) }
        ensures levels { IfOk result (λ p. p.contents.levels ≡ in_variant) }
        ensures bytes { OnOk result (out.new.bytes ≡ behind_name out.old.bytes key.now ++ length_place) }
        ensures key { OnOk result (has_zero key.now ≡ false) }
        ensures refused { IfErr result (NameHalts key.now) }
        ensures grows { Grows out.old out.new steps.old steps.new }
    {
        let document = Container::begin(out, steps, MAX_NESTING_LEVEL)?;
        if has_zero(key) {
            return Err(zero_in(out.allocator(), key));
        }
        let kind_place = out.len();
        begin_element(out, steps, key)?;
        let contents = Container::begin(out, steps, document.levels)?;
        Ok(OnePair {
            document,
            kind_place,
            contents,
        })
    }

    /// Ends both, where what is under the key is of this kind. The tests before it never fail, since the writer alone has the output meanwhile.
    pub(crate) fn end<L: Ledger>(
        self,
        out: &mut Out,
        steps: &mut Steps<L>,
        kind: ElementType,
    ) -> Result<(), Halt>
        ensures ok { OnOk result (PairEnds self kind out.old out.new) }
        ensures err { IsIn self out.old → IfErr result (PairEndHalts self out.old) }
        ensures kept { IsIn self out.old → OnErr result (take self.document.start out.new.bytes ≡ take self.document.start out.old.bytes) }
    {
        end_begun(self.contents, out, steps)?;
        let kind_place = self.kind_place;
        let len = out.len();
        if kind_place >= len {
            return Err(Halt::caused(out.allocator(), Cause::BadStep));
        }
        out.patch_byte(kind_place, kind.byte(), steps);
        end_begun(self.document, out, steps)
    }
}

/// Begins a variant of this name: a document of one pair. Where it is refused the output is as it was.
///
/// # Errors
///
/// The name has a zero character, or memory ran out.
pub(crate) fn begin_variant<L: Ledger>(
    out: &mut Out,
    steps: &mut Steps<L>,
    name: &str,
) -> ser::Result<OnePair>
    ensures document { IfOk result (λ p. p.document.start ≡ length out.old.bytes) }
    ensures kind { IfOk result (λ p. p.kind_place ≡ length (out.old.bytes ++ length_place)) }
    ensures contents { IfOk result (λ p. p.contents.start ≡ length (behind_name out.old.bytes name.now)) }
    ensures levels { IfOk result (λ p. p.contents.levels ≡ in_variant) }
    ensures bytes { OnOk result (out.new.bytes ≡ behind_name out.old.bytes name.now ++ length_place) }
    ensures name { OnOk result (has_zero name.now ≡ false) }
    ensures refused { IfErr result (λ e. RefusesName name.now (write_failure e)) }
    ensures kept { OnErr result (out.new.bytes ≡ out.old.bytes) }
{
    let start = out.len();
    match OnePair::begin(out, steps, name) {
        Ok(pair) => Ok(pair),
        Err(halt) => Err(take_back(out, start, halt)),
    }
}

/// The kind of what a variant holds: an array of values, or a document of fields.
pub(crate) fn contents_kind(tuple: bool) -> ElementType
    ensures { result ≡ contents_kind tuple }
{
    if tuple {
        ElementType::Array
    } else {
        ElementType::EmbeddedDocument
    }
}
