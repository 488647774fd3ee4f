// Bytes in memory, where chosen calls fail and chosen calls move little.
ghost use Rattle.std.specs.Prelude.{◌≡◌, ◌≤◌, ◌<◌, ◌-◌, ◌↔◌, ◌⊎◌, [], Some, length, drop, min, IfOk, IsErr, MatchResult};
ghost use Rattle.std.specs.Io.{ReadsAtMost, WritesAtMost};
ghost use Rattle.std.specs.Io.KnownBytes.{ReadConsumes, WriteAppends};
ghost use Rattle.bson_io.specs.Ends.{HasCause, HasSinkCause, IsIdle};
ghost use Rattle.bson_io.specs.Memory.{IsListed, next_calls, moved_of, ReadFailed, ReadMoved, WriteFailed, WriteMoved};

use crate::copy::copy_front;
use crate::{Failed, Sink, Source};
use std::alloc::{AllocError, Global};
use std::marker::Model;

/// Which calls fail, and the most that each moves.
#[derive(Drop)]
struct Script {
    fails: Vec<u64>,
    most: Vec<usize>,
    calls: u64,
}

impl Script {
    fn new(fails: Vec<u64>, most: Vec<usize>) -> Script
        ensures { result ≡ record { fails = fails; most = most; calls = 0 } }
    {
        Script {
            fails,
            most,
            calls: 0,
        }
    }

    /// Numbers a call for which so many bytes fit: how many of them it moves, unless it fails.
    fn call(&mut self, fits: usize) -> Result<usize, Failed>
        ensures listed { IsErr result ↔ IsListed self.old.fails.items self.old.calls }
        ensures moved { IfOk result (λ n. n ≡ moved_of self.old.most.items self.old.calls fits) }
        ensures after { self.new ≡ record self.old { calls = next_calls self.old.calls } }
    {
        let most = self.most.get(self.calls as usize).copied();
        if self.calls < u64::MAX {
            self.calls += 1;
            if self.fails.contains(&self.calls) {
                return Err(Failed);
            }
        }
        Ok(fits.min(most.unwrap_or(fits).max(1)))
    }
}

/// Bytes in memory. A call fails where its number is in the list `fails`, and moves at most as many
/// bytes as its entry in the list `most` says, where 0 counts as 1. Calls past that list's end move
/// as much as fits. Calls are numbered from 1; one with an empty buffer has no number. The numbers
/// end at the last `u64`, and no later call fails.
#[derive(Drop)]
pub struct MemorySource {
    bytes: Vec<u8>,
    at: usize,
    script: Script,
    faults: u64,
}

impl Model for MemorySource {
    ghost use Rattle.std.specs.Prelude.{◌≤◌, drop, vec_len};
    ghost use Rattle.bson_io.specs.Memory.{SourceInMemory};

    ghost Value = { SourceInMemory };

    ghost view = { λ s. record {
      left = drop s.at s.bytes.items;
      fails = s.script.fails.items;
      most = s.script.most.items;
      calls = s.script.calls;
      faults = s.faults;
    } };

    ghost invariant = { λ s. (s.at ≤ vec_len s.bytes) × (s.faults ≤ s.script.calls) };
}

impl MemorySource {
    /// A source that has these bytes left, with no calls so far.
    pub fn new(bytes: Vec<u8>, fails: Vec<u64>, most: Vec<usize>) -> MemorySource
        ensures { result ≡ record {
          left = bytes.items;
          fails = fails.items;
          most = most.items;
          calls = 0;
          faults = 0;
        } }
    {
        MemorySource {
            bytes,
            at: 0,
            script: Script::new(fails, most),
            faults: 0,
        }
    }
}

impl Source for MemorySource {
    ghost left = { λ s. Some s.left };

    ghost faults = { λ s. s.faults };

    fn read(&mut self, buf: &mut [u8]) -> Result<usize, Failed>
        ensures bound { ReadsAtMost result buf.new }
        ensures bytes { ReadConsumes (Some self.old.left) (Some self.new.left) result buf.new }
        ensures cause { HasCause self.old.faults self.new.faults result }
        ensures empty { buf.old ≡ [] →
            IsIdle (Some self.old.left) (Some self.new.left) self.old.faults self.new.faults result }

        // Which call fails, how many bytes the others move, and what is left behind.
        ensures unnumbered { buf.old ≡ [] → self.new ≡ self.old }
        ensures failed { 0 < length buf.old → (IsErr result ↔ IsListed self.old.fails self.old.calls) }
        ensures moved { IfOk result (λ n.
            n ≡ moved_of self.old.most self.old.calls (min (length buf.old) (length self.old.left))) }
        ensures after { 0 < length buf.old →
            MatchResult result (ReadMoved self.old self.new) (λ _. ReadFailed self.old self.new) }
    {
        if buf.is_empty() {
            return Ok(0);
        }
        let rest = &self.bytes[self.at..];
        match self.script.call(rest.len().min(buf.len())) {
            Ok(n) => {
                copy_front(rest, buf, n);
                self.at += n;
                Ok(n)
            }
            Err(e) => {
                self.faults += 1;
                Err(e)
            }
        }
    }
}

/// Bytes in memory, up to a capacity. A call fails where its number is in the list `fails`, and where
/// no room is left. It takes at most as many bytes as its entry in the list `most` says, where 0
/// counts as 1, and as there is room for. Calls past that list's end take as much as fits. Calls are
/// numbered from 1; one with an empty piece has no number. The numbers end at the last `u64`, and no
/// later call fails by the list.
#[derive(Drop)]
pub struct MemorySink {
    bytes: Vec<u8>,
    capacity: usize,
    script: Script,
    faults: u64,
}

impl Model for MemorySink {
    ghost use Rattle.std.specs.Prelude.{◌≤◌, ◌-◌, vec_len, vec_capacity};
    ghost use Rattle.bson_io.specs.Memory.{SinkInMemory};

    ghost Value = { SinkInMemory };

    ghost view = { λ s. record {
      written = s.bytes.items;
      room = s.capacity - vec_len s.bytes;
      fails = s.script.fails.items;
      most = s.script.most.items;
      calls = s.script.calls;
      faults = s.faults;
    } };

    ghost invariant = { λ s. (vec_len s.bytes ≤ s.capacity) × (s.capacity ≤ vec_capacity s.bytes) };
}

impl MemorySink {
    /// A sink with room for so many bytes, with nothing written and no calls so far. It takes all its
    /// memory here.
    ///
    /// # Errors
    ///
    /// Memory ran out.
    pub fn new(
        alloc: Global,
        room: usize,
        fails: Vec<u64>,
        most: Vec<usize>,
    ) -> Result<MemorySink, AllocError>
        ensures { IfOk result (λ s. s ≡ record {
          written = [];
          room = room;
          fails = fails.items;
          most = most.items;
          calls = 0;
          faults = 0;
        }) }
    {
        Ok(MemorySink {
            bytes: Vec::with_capacity(alloc, room)?,
            capacity: room,
            script: Script::new(fails, most),
            faults: 0,
        })
    }

    /// The bytes written so far.
    pub fn written(&self) -> &[u8]
        ensures { result.now ≡ self.now.written }
    {
        &self.bytes
    }
}

impl Sink for MemorySink {
    ghost written = { λ s. Some s.written };

    ghost faults = { λ s. s.faults };

    fn write(&mut self, piece: &[u8]) -> Result<usize, Failed>
        ensures bound { WritesAtMost result piece.now }
        ensures bytes { WriteAppends (Some self.old.written) (Some self.new.written) result piece.now }
        ensures progress { IfOk result (λ n. n ≡ 0 → piece.now ≡ []) }
        ensures cause { HasSinkCause self.old.faults self.new.faults result }
        ensures empty { piece.now ≡ [] →
            IsIdle (Some self.old.written) (Some self.new.written) self.old.faults self.new.faults result }

        // Which call fails, how many bytes the others move, and what is left behind.
        ensures unnumbered { piece.now ≡ [] → self.new ≡ self.old }
        ensures failed { 0 < length piece.now →
            (IsErr result ↔ (IsListed self.old.fails self.old.calls ⊎ (self.old.room ≡ 0))) }
        ensures moved { IfOk result (λ n.
            n ≡ moved_of self.old.most self.old.calls (min (length piece.now) self.old.room)) }
        ensures after { 0 < length piece.now →
            MatchResult result (WriteMoved self.old self.new piece.now) (λ _. WriteFailed self.old self.new) }
    {
        if piece.is_empty() {
            return Ok(0);
        }
        let room = self.capacity - self.bytes.len();
        match self.script.call(piece.len().min(room)) {
            Ok(n) if 0 < n => {
                self.bytes.extend_from_slice(&piece[..n]).unwrap();
                Ok(n)
            }
            _ => {
                self.faults = self.faults.saturating_add(1);
                Err(Failed)
            }
        }
    }
}
