// What a document and an array share: a place for the length, what is inside, and the end; and the length of code with its scope.
ghost use Rattle.std.specs.Prelude.{◌≡◌, ◌≤◌, ◌+◌, length, Ok, OnOk, OnErr, IfOk, IfErr};
ghost use Rattle.bson_io.specs.Output.{Appended};
ghost use Rattle.bson_ser_stream.specs.Writing.{length_place, level_inside};
ghost use Rattle.bson_writing.specs.Halting.{Gives};
ghost use Rattle.bson_ser_stream.specs.Halting.{Grows, Ends, EndHalts, Totals, TotalHalts};

use bson_io::{Ledger, MOST, Out, Steps};
use bson_values::Cause;
use bson_writing::Halt;

/// A document or an array that was begun.
#[derive(Clone, Copy)]
pub struct Container {
    /// Where it begins in the output.
    pub start: usize,
    /// How many levels are left for what is in it.
    pub levels: u32,
}

impl Container {
    /// Begins a document or an array with so many levels left: appends a place for its length.
    ///
    /// # Errors
    ///
    /// No level is left, or memory ran out. What was appended before stays in `out`.
    pub fn begin<L: Ledger>(
        out: &mut Out,
        steps: &mut Steps<L>,
        levels: u32,
    ) -> Result<Container, Halt>
        ensures levels { Gives 4 out.old.spare (λ c. c.levels) result (level_inside levels) }
        ensures start { IfOk result (λ c. c.start ≡ length out.old.bytes) }
        ensures ok { OnOk result (Appended out.old out.new length_place steps.old steps.new) }
        ensures grows { Grows out.old out.new steps.old steps.new }
    {
        if levels == 0 {
            return Err(Halt::caused(out.allocator(), Cause::TooDeep));
        }
        let start = out.len();
        out.push_all(&[0; 4], steps)?;
        Ok(Container {
            start,
            levels: levels - 1,
        })
    }

    /// Ends it: appends a zero, and writes the length of it all into its first four bytes.
    ///
    /// # Errors
    ///
    /// It has more bytes than a document may, or memory ran out. What was appended before stays in `out`.
    #[inline(always)]
    pub fn end<L: Ledger>(self, out: &mut Out, steps: &mut Steps<L>) -> Result<(), Halt>
        requires { self.start + 4 ≤ length out.old.bytes }
        ensures ok { OnOk result (Ends out.old out.new self.start steps.old steps.new) }
        ensures err { IfErr result (EndHalts out.old self.start) }
        ensures grows { OnErr result (Grows out.old out.new steps.old steps.new) }
    {
        out.push(0, steps)?;
        let len = out.len() - self.start;
        if len > MOST {
            return Err(Halt::TooLong);
        }
        out.patch_i32(self.start, len as i32, steps);
        Ok(())
    }
}

/// A value that was begun with a place for its length, and takes no level.
#[derive(Drop)]
pub(crate) struct Total {
    start: usize,
}

impl Total {
    /// Begins the value: appends a place for its length.
    pub(crate) fn begin<L: Ledger>(out: &mut Out, steps: &mut Steps<L>) -> Result<Total, Halt>
        ensures start { Gives 4 out.old.spare (λ t. t.start) result (Ok (length out.old.bytes)) }
        ensures ok { OnOk result (Appended out.old out.new length_place steps.old steps.new) }
        ensures grows { Grows out.old out.new steps.old steps.new }
    {
        let start = out.len();
        out.push_all(&[0; 4], steps)?;
        Ok(Total { start })
    }

    /// Ends it: writes the length of it all into its first four bytes.
    pub(crate) fn end<L: Ledger>(self, out: &mut Out, steps: &mut Steps<L>) -> Result<(), Halt>
        requires { self.start + 4 ≤ length out.old.bytes }
        ensures ok { OnOk result (Totals out.old out.new self.start steps.old steps.new) }
        ensures err { IfErr result (TotalHalts out.old self.start) }
        ensures grows { OnErr result (Grows out.old out.new steps.old steps.new) }
    {
        let total = out.len() - self.start;
        if total > MOST {
            return Err(Halt::TooLong);
        }
        out.patch_i32(self.start, total as i32, steps);
        Ok(())
    }
}
