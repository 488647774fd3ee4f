// A number that only proofs read. It takes no room, and its methods do nothing at run time.
ghost use Rattle.std.specs.Prelude.{◌≡◌, ◌+◌, ℕ};
ghost use base.Fml.{ftrue};

use std::marker::Model;

/// A number that clauses read as `count`.
#[derive(Drop)]
pub struct Count {
    pub ghost count: { ℕ },
}

impl Model for Count {
    ghost also_owns = { λ _. ftrue };
}

impl Count {
    pub fn new() -> Count
        ensures { result.count ≡ 0 }
    {
        Count {}
    }

    /// The number that is `n` more.
    pub fn plus(&self, _n: usize) -> Count
        ensures { result.count ≡ self.now.count + _n }
    {
        Count {}
    }
}
