// Bytes in memory, without failures of their own.
ghost use Rattle.std.specs.Prelude.{◌≡◌, ◌≤◌, ◌<◌, ◌+◌, ◌↔◌, [], Some, length, min, IfOk, IsErr, OnOk, OnErr};
ghost use Rattle.std.specs.Io.{ReadsAtMost, WritesAtMost};
ghost use Rattle.std.specs.Io.KnownBytes.{ReadConsumes, WriteAppends};
ghost use Rattle.bson_io.specs.Ends.{HasCause, HasSinkCause, IsIdle, UsesRoom, last_count};

use crate::copy::{copy_prefix, fill_from};
use crate::{Failed, Sink, Source};

/// Bytes in memory. It never fails: its count of faults is always 0.
#[derive(Drop)]
pub struct SteadySource<'a> {
    rest: &'a [u8],
}

impl<'a> SteadySource<'a> {
    ghost use Rattle.bson_io.specs.SteadySource.{steady_left};

    /// A source that has these bytes left.
    pub fn new(bytes: &'a [u8]) -> Self
        ensures { steady_left result ≡ bytes.now }
    {
        SteadySource { rest: bytes }
    }
}

impl Source for SteadySource<'_> {
    ghost use Rattle.bson_io.specs.SteadySource.{steady_left};

    ghost left = { λ s. Some (steady_left s) };

    ghost faults = { λ _. 0 };

    fn read(&mut self, buf: &mut [u8]) -> Result<usize, Failed>
        ensures bound { ReadsAtMost result buf.new }
        ensures bytes { ReadConsumes (Some (steady_left self.old)) (Some (steady_left self.new)) result buf.new }
        ensures cause { HasCause 0 0 result }
        ensures empty { buf.old ≡ [] →
            IsIdle (Some (steady_left self.old)) (Some (steady_left self.new)) 0 0 result }

        // It never fails, and gives as much as fits.
        ensures count { result ≡ Ok (min (length buf.old) (length (steady_left self.old))) }
    {
        let rest = self.rest;
        let n = copy_prefix(rest, buf);
        self.rest = &rest[n..];
        Ok(n)
    }
}

/// A caller's slice, which is filled from its front. A write takes as much as there is room for, and
/// it fails only where no room is left.
#[derive(Drop)]
pub struct SteadySink<'a> {
    room: &'a mut [u8],
    len: usize,
    faults: u64,
    ghost within: { len ≤ length room.now },
    pub ghost full: { 0 < faults → len ≡ length room.now },
}

impl<'a> SteadySink<'a> {
    ghost use Rattle.bson_io.specs.SteadySink.{steady_written, steady_room, steady_faults};

    /// A sink over this slice, with nothing written.
    pub fn new(room: &'a mut [u8]) -> Self
        ensures written { steady_written result ≡ [] }
        ensures room { steady_room result ≡ length room.old }
        ensures faults { steady_faults result ≡ 0 }
    {
        SteadySink {
            room,
            len: 0,
            faults: 0,
        }
    }

    /// The bytes written so far.
    pub fn written(&self) -> &[u8]
        ensures { result.now ≡ steady_written self.now }
    {
        &self.room[..self.len]
    }
}

impl Sink for SteadySink<'_> {
    ghost use Rattle.bson_io.specs.SteadySink.{steady_written, steady_room, steady_faults};

    ghost written = { λ s. Some (steady_written s) };

    ghost room = { λ s. Some (steady_room s) };

    ghost faults = { λ s. steady_faults s };

    fn write(&mut self, piece: &[u8]) -> Result<usize, Failed>
        ensures bound { WritesAtMost result piece.now }
        ensures bytes { WriteAppends (Some (steady_written self.old)) (Some (steady_written self.new)) result piece.now }
        ensures room { UsesRoom (Some (steady_room self.old)) (Some (steady_room self.new)) result }
        ensures progress { IfOk result (λ n. n ≡ 0 → piece.now ≡ []) }
        ensures cause { HasSinkCause (steady_faults self.old) (steady_faults self.new) result }
        ensures empty { piece.now ≡ [] →
            IsIdle (Some (steady_written self.old)) (Some (steady_written self.new))
            (steady_faults self.old) (steady_faults self.new) result }

        // It takes as much as there is room for, fails exactly where there is none, and counts that.
        ensures taken { IfOk result (λ n. n ≡ min (length piece.now) (steady_room self.old)) }
        ensures full { 0 < length piece.now → (IsErr result ↔ (steady_room self.old ≡ 0)) }
        ensures counted { OnErr result (steady_faults self.new ≡ min (steady_faults self.old + 1) last_count) }
        ensures kept { OnOk result (steady_faults self.new ≡ steady_faults self.old) }
    {
        if piece.is_empty() {
            return Ok(0);
        }
        if self.len >= self.room.len() {
            self.faults = self.faults.saturating_add(1);
            return Err(Failed);
        }
        let at = self.len;
        let room = &mut *self.room;
        let n = fill_from(room, at, piece);
        self.len = at + n;
        Ok(n)
    }
}
