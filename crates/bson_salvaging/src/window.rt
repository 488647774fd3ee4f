// The bytes of a file that are held.
ghost use Rattle.std.specs.Prelude.{◌≡◌, ◌≢◌, ◌<◌, ◌≤◌, ◌+◌, ◌^◌, ◌⊎◌, [], false, true, drop, length, OnOk};
ghost use Rattle.bson_io.specs.Ends.{Rose, Takes};
ghost use Rattle.bson_salvaging.specs.Window.{Grows};

use bson_io::Source;
use bson_source::{TakeFault, take_up_to};
use std::alloc::Global;
use std::marker::Model;

/// So many bytes more are taken at once than are needed.
const AHEAD: usize = 65536;

/// The bytes of a file that are held, from the place that is due on.
#[derive(Drop)]
pub(crate) struct Window {
    bytes: Vec<u8>,
    from: usize,
    ended: bool,
}

impl Model for Window {
    ghost use Rattle.std.specs.Prelude.{◌≤◌, drop, vec_len};
    ghost use Rattle.bson_salvaging.specs.Window.{Held};

    ghost Value = { Held };

    ghost view = { λ w. record { bytes = drop w.from w.bytes.items; ended = w.ended } };

    ghost invariant = { λ w. w.from ≤ vec_len w.bytes };
}

impl Window {
    /// Nothing is held.
    pub(crate) fn new(alloc: Global) -> Window
        ensures bytes { result.bytes ≡ [] }
        ensures ended { result.ended ≡ false }
    {
        Window {
            bytes: Vec::new(alloc),
            from: 0,
            ended: false,
        }
    }

    /// The bytes that are held.
    pub(crate) fn bytes(&self) -> &[u8]
        ensures bytes { result.now ≡ self.now.bytes }
        ensures bounded { length result.now < 2 ^ 63 }
    {
        &self.bytes[self.from..]
    }

    /// The bytes that are held behind the first so many.
    pub(crate) fn behind(&self, at: usize) -> &[u8]
        requires { at ≤ length self.now.bytes }
        ensures bytes { result.now ≡ drop at self.now.bytes }
        ensures bounded { at + length result.now < 2 ^ 63 }
    {
        &self.bytes()[at..]
    }

    /// Leaves so many bytes behind.
    pub(crate) fn pass(&mut self, n: usize)
        requires { n ≤ length self.old.bytes }
        ensures bytes { self.new.bytes ≡ drop n self.old.bytes }
        ensures ended { self.new.ended ≡ self.old.ended }
    {
        self.from += n;
    }

    /// Takes bytes of a source until so many are held, or it has given its last.
    ///
    /// # Errors
    ///
    /// `Failed` where a call on the source failed, `NoMemory` where memory ran out. Then some of the bytes are gone from the source.
    pub(crate) fn fill<S: Source>(&mut self, need: usize, source: &mut S) -> Result<(), TakeFault>
        ensures grows { OnOk result (Grows self.old self.new (S.left source.old) (S.left source.new)) }
        ensures enough { OnOk result ((need ≤ length self.new.bytes) ⊎ (self.new.ended ≡ true)) }
        ensures taken { Takes (S.left source.old) (S.left source.new) }
        ensures failed { result ≡ Err TakeFault.Failed → Rose (S.faults source.old) (S.faults source.new) }
        ensures kept { result ≢ Err TakeFault.Failed → S.faults source.new ≡ S.faults source.old }
        ensures later { S.faults source.old ≤ S.faults source.new }
    {
        if self.ended {
            return Ok(());
        }
        if need <= self.bytes().len() {
            return Ok(());
        }
        cut_front(&mut self.bytes, self.from);
        self.from = 0;
        let most = need.saturating_add(AHEAD);
        take_up_to(&mut self.bytes, most, source)?;
        if self.bytes.len() < most {
            self.ended = true;
        }
        Ok(())
    }
}

// Leaves out the first so many bytes.
fn cut_front(bytes: &mut Vec<u8>, count: usize)
    requires { count ≤ length bytes.old.items }
    ensures { bytes.new.items ≡ drop count bytes.old.items }
{
    if count == 0 {
        return;
    }
    let rest = bytes.len() - count;
    bytes.copy_within(count.., 0);
    bytes.truncate(rest);
}
