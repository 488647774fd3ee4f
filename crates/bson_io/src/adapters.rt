// std's readers and writers as a source and a sink, with a count of their errors. As a source and a
// sink they tell no bytes.
ghost use Rattle.std.specs.Prelude.{◌≡◌, ◌+◌, ◌<◌, [], None, length, min, IfOk, OnOk, OnErr};
ghost use Rattle.std.specs.Io.{ReadsAtMost, WritesAtMost};
ghost use Rattle.std.specs.Io.KnownBytes.{ReadConsumes, WriteAppends};
ghost use Rattle.bson_io.specs.Ends.{HasCause, HasSinkCause, IsIdle, last_count};
ghost use Rattle.bson_io.specs.Adapters.{read_faults, write_faults, reader_of, writer_of};

use crate::{Failed, Sink, Source};
use std::io::{Read, Write};

/// A reader of std. Each error counts as a fault. Once the count is at the last value of a
/// `u64` it makes no further call and returns `Ok(0)`.
#[derive(Drop)]
pub struct ReadAdapter<R> {
    inner: R,
    faults: u64,
}

impl<R: Read> ReadAdapter<R> {
    /// A source over this reader, with no faults so far.
    pub fn new(inner: R) -> Self
        ensures inner { reader_of result ≡ inner }
        ensures faults { read_faults result ≡ 0 }
    {
        ReadAdapter { inner, faults: 0 }
    }
}

impl<R: Read> Source for ReadAdapter<R> {
    ghost left = { λ _. None };

    ghost faults = { λ s. s.faults };

    fn read(&mut self, buf: &mut [u8]) -> Result<usize, Failed>
        ensures bound { ReadsAtMost result buf.new }
        ensures bytes { ReadConsumes None None result buf.new }
        ensures cause { HasCause (read_faults self.old) (read_faults self.new) result }
        ensures empty { buf.old ≡ [] →
            IsIdle None None (read_faults self.old) (read_faults self.new) result }

        // Each failure counts as one. Until the count is at its last value the bytes are the reader's.
        ensures counted { OnErr result (read_faults self.new ≡ read_faults self.old + 1) }
        ensures kept { OnOk result (read_faults self.new ≡ read_faults self.old) }
        ensures last { read_faults self.old ≡ last_count → result ≡ Ok 0 }
        ensures passed { read_faults self.old < last_count →
            ReadConsumes (R.remaining (reader_of self.old)) (R.remaining (reader_of self.new)) result buf.new }
    {
        if buf.is_empty() || self.faults == u64::MAX {
            return Ok(0);
        }
        match self.inner.read(buf) {
            Ok(n) => Ok(n),
            Err(_) => {
                self.faults += 1;
                Err(Failed)
            }
        }
    }
}

/// A writer of std. Each error counts as a fault, and so does a write that takes nothing of a piece
/// that is not empty. The count stays at the last value of a `u64`.
#[derive(Drop)]
pub struct WriteAdapter<W> {
    inner: W,
    faults: u64,
}

impl<W: Write> WriteAdapter<W> {
    /// A sink over this writer, with no faults so far.
    pub fn new(inner: W) -> Self
        ensures inner { writer_of result ≡ inner }
        ensures faults { write_faults result ≡ 0 }
    {
        WriteAdapter { inner, faults: 0 }
    }
}

impl<W: Write> Sink for WriteAdapter<W> {
    ghost written = { λ _. None };

    ghost faults = { λ s. s.faults };

    fn write(&mut self, piece: &[u8]) -> Result<usize, Failed>
        ensures bound { WritesAtMost result piece.now }
        ensures bytes { WriteAppends None None result piece.now }
        ensures progress { IfOk result (λ n. n ≡ 0 → piece.now ≡ []) }
        ensures cause { HasSinkCause (write_faults self.old) (write_faults self.new) result }
        ensures empty { piece.now ≡ [] →
            IsIdle None None (write_faults self.old) (write_faults self.new) result }

        // Each failure counts as one, up to the last value, and the bytes go to the writer.
        ensures counted { OnErr result (write_faults self.new ≡ min (write_faults self.old + 1) last_count) }
        ensures kept { OnOk result (write_faults self.new ≡ write_faults self.old) }
        ensures passed { WriteAppends (W.contents (writer_of self.old)) (W.contents (writer_of self.new)) result piece.now }
    {
        if piece.is_empty() {
            return Ok(0);
        }
        match self.inner.write(piece) {
            Ok(n) if 0 < n => Ok(n),
            _ => {
                self.faults = self.faults.saturating_add(1);
                Err(Failed)
            }
        }
    }
}
