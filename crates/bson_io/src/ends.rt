// A source and a sink, and what each call on them may do.
ghost use Rattle.std.specs.Prelude.{◌≡◌, ℕ, List, [], None, length, IfOk};
ghost use Rattle.std.specs.declared.option.Option.{Option};
ghost use Rattle.std.specs.Io.{ReadsAtMost, WritesAtMost};
ghost use Rattle.std.specs.Io.KnownBytes.{ReadConsumes, WriteAppends};
ghost use Rattle.bson_io.specs.Ends.{HasCause, HasSinkCause, IsIdle, UsesRoom};

/// A call on a source or a sink failed. Its count of faults shows it.
#[derive(Clone, Copy, Debug, PartialEq, Eq)]
pub struct Failed;

/// Where bytes come from.
pub trait Source {
    /// The bytes not yet read, where the source tells them.
    ghost left: { Self → Option (List ℕ) };

    /// How many calls failed so far.
    ghost faults: { Self → ℕ };

    /// Moves bytes from the front of what is left to the front of the buffer, and returns how many.
    /// With room in the buffer `Ok(0)` means that none are left.
    /// It fails only where the count of faults rises, and then nothing is taken; where it does not fail
    /// the count stays.
    /// On an empty buffer it returns `Ok(0)` and changes nothing.
    fn read(&mut self, buf: &mut [u8]) -> Result<usize, Failed>
        ensures bound { ReadsAtMost result buf.new }
        ensures bytes { ReadConsumes (left self.old) (left self.new) result buf.new }
        ensures cause { HasCause (faults self.old) (faults self.new) result }
        ensures empty { buf.old ≡ [] →
            IsIdle (left self.old) (left self.new) (faults self.old) (faults self.new) result };
}

/// Where bytes go.
pub trait Sink {
    /// The bytes written so far, where the sink tells them.
    ghost written: { Self → Option (List ℕ) };

    /// How many more bytes the sink takes without a fault, where it tells that.
    ghost room: { Self → Option ℕ } = { λ _. None };

    /// How many calls failed so far. The count may stop at the last value of a `u64`.
    ghost faults: { Self → ℕ };

    /// Appends some first bytes of the piece, at least one of a piece that is not empty, and returns
    /// how many. It fails only where the count of faults rises or is at its last value, and then
    /// nothing is written; where it does not fail the count stays. On an empty piece it returns `Ok(0)` and changes nothing.
    fn write(&mut self, piece: &[u8]) -> Result<usize, Failed>
        ensures bound { WritesAtMost result piece.now }
        ensures bytes { WriteAppends (written self.old) (written self.new) result piece.now }
        ensures room { UsesRoom (room self.old) (room self.new) result }
        ensures progress { IfOk result (λ n. n ≡ 0 → piece.now ≡ []) }
        ensures cause { HasSinkCause (faults self.old) (faults self.new) result }
        ensures empty { piece.now ≡ [] →
            IsIdle (written self.old) (written self.new) (faults self.old) (faults self.new) result };
}
