//! What a source and a sink promise, and writing a whole piece.
ghost use Rattle.std.specs.Prelude.{◌≡◌, ◌-◌, ◌^◌, ◌<◌, List, ℕ, length, OnOk, OnErr};
ghost use Rattle.std.specs.declared.option.Option.{Option};
ghost use Rattle.std.specs.Io.{ReadsAtMost, WritesAtMost};
ghost use Rattle.std.specs.Io.KnownBytes.{ReadConsumes, WriteAppends, Appends};
ghost use Rattle.pe_io.specs.Faults.{CountsFaults};
ghost use Rattle.pe_io.specs.Pieces.{TakesSome, WritesPrefix};

/// The outside failed, and the source or sink that answers it has counted the fault.
#[derive(Clone, Copy, Debug, PartialEq, Eq)]
pub struct Failed;

/// Gives bytes, in pieces as long as it likes.
pub trait Source {
    /// The bytes that reads give from here on, where they are told.
    ghost left: { Self → Option (List ℕ) };

    /// How many faults were counted, which stops at the greatest `u64`.
    ghost faults: { Self → ℕ };

    /// Puts the next bytes at the front of the room, and answers how many. `Ok(0)` is the end of
    /// the input.
    ///
    /// `Failed` comes only with a counted fault, and leaves what is left as it was.
    fn read(&mut self, room: &mut [u8]) -> Result<usize, Failed>
        requires { 0 < length room.old }
        ensures bound { ReadsAtMost result room.new }

        // `Ok` takes the bytes off the front, and takes none only where none is left.
        ensures bytes { ReadConsumes (left self.old) (left self.new) result room.new }
        ensures faults { CountsFaults (faults self.old) (faults self.new) result };
}

/// Takes bytes, in pieces as long as it likes.
pub trait Sink {
    /// The bytes that were written, where they are told.
    ghost written: { Self → Option (List ℕ) };

    /// How many faults were counted, which stops at the greatest `u64`.
    ghost faults: { Self → ℕ };

    /// Appends the front of the piece, and answers how many bytes of it.
    ///
    /// `Failed` comes only with a counted fault, and leaves what is written as it was.
    fn write(&mut self, piece: &[u8]) -> Result<usize, Failed>
        ensures bound { WritesAtMost result piece.now }
        ensures some { TakesSome result piece.now }
        ensures bytes { WriteAppends (written self.old) (written self.new) result piece.now }
        ensures faults { CountsFaults (faults self.old) (faults self.new) result };
}

/// Writes the whole piece, by as many writes as the sink needs.
///
/// On `Failed` a front of the piece is written, maybe nothing of it.
pub fn write_whole<K: Sink>(sink: &mut K, piece: &[u8]) -> Result<(), Failed>
    requires { K.faults sink.old < 2 ^ 64 - 1 }
    ensures ok { OnOk result (Appends (K.written sink.old) (K.written sink.new) piece.now) }
    ensures kept { OnOk result (K.faults sink.new ≡ K.faults sink.old) }
    ensures err { OnErr result
        (WritesPrefix (K.written sink.old) (K.written sink.new) piece.now) }
    ensures rose { OnErr result (K.faults sink.old < K.faults sink.new) }
{
    let mut rest = piece;
    while !rest.is_empty() {
        let count = sink.write(rest)?;
        rest = &rest[count..];
    }
    Ok(())
}
