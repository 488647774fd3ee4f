// The output buffer: bytes are appended, patched in their place and cut off.
ghost use Rattle.std.specs.Prelude.{◌≡◌, ◌≤◌, ◌+◌, ◌∷◌, ◌↔◌, [], length, take, IsTrue, IsOk, OnOk, OnErr};
ghost use Rattle.std.specs.Int.{w32, to_le_bytes, cast_unsigned};
ghost use Rattle.bson_io.specs.Output.{Appended, Patched, Refused};

use crate::steps::{Ledger, Steps};
use std::alloc::{AllocError, Global};
use std::marker::Model;

/// An output buffer. Contracts see its bytes and a number `spare`: how many more bytes it takes
/// without memory.
#[derive(Drop)]
pub struct Out {
    buf: Vec<u8>,
    alloc: Global,
}

impl Model for Out {
    ghost use Rattle.std.specs.Prelude.{◌-◌, vec_len, vec_capacity};
    ghost use Rattle.bson_io.specs.Output.{Output};

    ghost Value = { Output };

    ghost view = { λ o. record { bytes = o.buf.items; spare = vec_capacity o.buf - vec_len o.buf } };
}

impl Out {
    /// An empty buffer. It takes no memory.
    pub fn new(alloc: Global) -> Out
        ensures { result.bytes ≡ [] }
    {
        Out {
            buf: Vec::new(alloc),
            alloc,
        }
    }

    /// How many bytes it holds.
    pub fn len(&self) -> usize
        ensures { result ≡ length self.now.bytes }
    {
        self.buf.len()
    }

    /// Whether it holds no bytes.
    pub fn is_empty(&self) -> bool
        ensures { IsTrue result ↔ (self.now.bytes ≡ []) }
    {
        self.buf.is_empty()
    }

    /// Its bytes.
    pub fn as_bytes(&self) -> &[u8]
        ensures { result.now ≡ self.now.bytes }
    {
        &self.buf
    }

    /// Its bytes, without a copy.
    pub fn into_vec(self) -> Vec<u8>
        ensures { result.items ≡ self.bytes }
    {
        self.buf
    }

    /// The allocator that it was made with. Contracts see nothing of an allocator.
    pub fn allocator(&self) -> Global {
        self.alloc
    }

    /// Takes memory for so many more bytes, unless they are spare already.
    ///
    /// # Errors
    ///
    /// Memory ran out. The output is as it was.
    pub fn reserve(&mut self, n: usize) -> Result<(), AllocError>
        ensures ok { OnOk result (n ≤ self.new.spare) }
        ensures bytes { self.new.bytes ≡ self.old.bytes }
        ensures spare { self.old.spare ≤ self.new.spare }
        ensures free { n ≤ self.old.spare → IsOk result }
    {
        self.buf.reserve(n)
    }

    /// Appends a byte, at one step. Where one byte is spare it takes no memory.
    ///
    /// # Errors
    ///
    /// Memory ran out. The output is as it was.
    pub fn push<L: Ledger>(&mut self, b: u8, steps: &mut Steps<L>) -> Result<(), AllocError>
        ensures ok { OnOk result (Appended self.old self.new (b ∷ []) steps.old steps.new) }
        ensures err { OnErr result (Refused self.old self.new steps.old steps.new) }
        ensures free { 1 ≤ self.old.spare → IsOk result }
    {
        self.buf.push(b)?;
        steps.tick();
        Ok(())
    }

    /// Appends bytes, at one step each. Where as many are spare it takes no memory.
    ///
    /// # Errors
    ///
    /// Memory ran out. The output is as it was.
    pub fn push_all<L: Ledger>(&mut self, p: &[u8], steps: &mut Steps<L>) -> Result<(), AllocError>
        ensures ok { OnOk result (Appended self.old self.new p.now steps.old steps.new) }
        ensures err { OnErr result (Refused self.old self.new steps.old steps.new) }
        ensures free { length p.now ≤ self.old.spare → IsOk result }
    {
        self.buf.extend_from_slice(p)?;
        steps.tick_all(p.len());
        Ok(())
    }

    /// Replaces the byte at a place, at one step. The place is less than the number of bytes.
    pub fn patch_byte<L: Ledger>(&mut self, at: usize, b: u8, steps: &mut Steps<L>)
        requires { at + 1 ≤ length self.old.bytes }
        ensures { Patched self.old self.new at (b ∷ []) steps.old steps.new }
    {
        self.buf[at] = b;
        steps.tick();
    }

    /// Replaces the four bytes from a place on, which must be there, by an int32 of BSON, at four steps: little-endian, two's complement (bsonspec.org, basic types).
    pub fn patch_i32<L: Ledger>(&mut self, at: usize, v: i32, steps: &mut Steps<L>)
        requires { at + 4 ≤ length self.old.bytes }
        ensures { Patched self.old self.new at (to_le_bytes w32 (cast_unsigned w32 v)) steps.old steps.new }
    {
        self.buf[at..at + 4].copy_from_slice(&v.to_le_bytes());
        steps.tick_all(4);
    }

    /// Keeps the first `len` bytes, or all where there are no more. The memory stays as it is: the room of the bytes that are cut off is spare.
    pub fn cut(&mut self, len: usize)
        ensures bytes { self.new.bytes ≡ take len self.old.bytes }
        ensures room { length self.new.bytes + self.new.spare ≡ length self.old.bytes + self.old.spare }
    {
        self.buf.truncate(len);
    }
}
