// A source over another, which is read in large pieces.
ghost use Rattle.std.specs.Prelude.{◌≡◌, ◌≤◌, ◌<◌, ◌↔◌, [], length, IsTrue, OnOk};
ghost use Rattle.std.specs.Io.KnownBytes.{IsAtEnd, Keeps};
ghost use Rattle.bson_io.specs.Buffered.{held, left_of};
ghost use Rattle.bson_io.specs.Ends.{HasCause};

use crate::copy::copy_prefix;
use crate::{Failed, Source};

/// A source over another, which is read in pieces as large as a buffer. A call takes what is held,
/// and only where nothing is held it reads one piece of the source below.
#[derive(Drop)]
pub struct Buffered<S> {
    below: S,
    room: Vec<u8>,
    from: usize,
    to: usize,
    ghost within: { from ≤ to },
    ghost inside: { to ≤ length room.items },
    ghost some: { 0 < length room.items },
}

impl<S: Source> Buffered<S> {
    /// A source over this one, which holds nothing yet. It reads as many bytes at once as the room has.
    pub fn new(below: S, room: Vec<u8>) -> Buffered<S>
        requires { 0 < length room.items }
        ensures left { left_of result.room.items result.from result.to (S.left result.below) ≡ S.left below }
        ensures faults { S.faults result.below ≡ S.faults below }
    {
        Buffered {
            below,
            room,
            from: 0,
            to: 0,
        }
    }

    /// Whether nothing is held, so that the next call reads from the source below, and may wait for it.
    pub fn is_empty(&self) -> bool
        ensures { IsTrue result ↔ (held self.now.room.items self.now.from self.now.to ≡ []) }
    {
        self.from == self.to
    }

    // Reads one piece of the source below where nothing is held. What is left stays the same.
    fn ready(&mut self) -> Result<(), Failed>
        ensures kept { Keeps (left_of self.old.room.items self.old.from self.old.to (S.left self.old.below)) (left_of self.new.room.items self.new.from self.new.to (S.left self.new.below)) }
        ensures ended { OnOk result (self.new.to ≤ self.new.from → IsAtEnd (left_of self.new.room.items self.new.from self.new.to (S.left self.new.below))) }
        ensures cause { HasCause (S.faults self.old.below) (S.faults self.new.below) result }
    {
        if self.from < self.to {
            return Ok(());
        }
        let count = self.below.read(&mut self.room)?;
        self.from = 0;
        self.to = count;
        Ok(())
    }
}

impl<S: Source> Source for Buffered<S> {
    ghost left = { λ b. left_of b.room.items b.from b.to (S.left b.below) };

    ghost faults = { λ b. S.faults b.below };

    fn read(&mut self, buf: &mut [u8]) -> Result<usize, Failed> {
        if buf.is_empty() {
            return Ok(0);
        }
        self.ready()?;
        let n = copy_prefix(&self.room[self.from..self.to], buf);
        self.from += n;
        Ok(n)
    }
}
