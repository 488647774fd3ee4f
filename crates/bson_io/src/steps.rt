// Steps, counted for whoever names what is counted.
ghost use Rattle.std.specs.Prelude.{◌≡◌, ◌+◌};

use crate::count::Count;
use std::marker::{Model, PhantomData};

/// Names what is counted. A caller may use a type of its own.
pub trait Ledger {}

/// A ledger for callers that need no name of their own.
#[derive(Clone, Copy, Debug, PartialEq, Eq)]
pub struct Tally;

impl Ledger for Tally {}

/// How many steps were taken. Contracts see the number; at run time it has no bytes, and counting
/// costs nothing.
#[derive(Drop)]
pub struct Steps<L: Ledger> {
    count: Count,
    ledger: PhantomData<L>,
}

impl<L: Ledger> Model for Steps<L> {
    ghost use Rattle.std.specs.Prelude.{ℕ};

    ghost Value = { ℕ };

    ghost view = { λ s. s.count.count };
}

impl<L: Ledger> Steps<L> {
    /// No steps so far.
    pub fn new() -> Steps<L>
        ensures { result ≡ 0 }
    {
        Steps {
            count: Count::new(),
            ledger: PhantomData,
        }
    }

    /// One more step.
    pub fn tick(&mut self)
        ensures { self.new ≡ self.old + 1 }
    {
        self.count = self.count.plus(1);
    }

    /// As many more steps.
    pub(crate) fn tick_all(&mut self, n: usize)
        ensures { self.new ≡ self.old + n }
    {
        self.count = self.count.plus(n);
    }
}
