//! The runtime's readers and writers as a source and a sink.
ghost use Rattle.std.specs.Prelude.{◌≡◌, ◌<◌, None, OnErr, length};
ghost use Rattle.std.specs.Io.{ReadsAtMost, WritesAtMost};
ghost use Rattle.std.specs.Io.KnownBytes.{ReadConsumes, WriteAppends};
ghost use Rattle.pe_io.specs.Faults.{CountsFaults, next_u64};
ghost use Rattle.pe_io.specs.Pieces.{TakesSome};

use crate::{Failed, Sink, Source};
use std::io::{ErrorKind, Read, Write};
use std::marker::Model;

/// How many times an interrupted call is tried again.
const RETRIES: u32 = 1000;

/// A source over a reader of the runtime. It counts the reader's failures, hands on what the reader
/// gives, and tries an interrupted read again at most 1,000 times. Contracts see it as what its
/// reader has left and its count of faults. As a source it tells nothing of the bytes, since the
/// runtime's standard input does not.
#[derive(Drop)]
pub struct StdSource<R: Read + Drop> {
    reader: R,
    faults: u64,
}

impl<R: Read + Drop> Model for StdSource<R> {
    ghost use Rattle.pe_io.specs.Standard.{StdReading};

    ghost Value = { StdReading };

    ghost view = { λ s. record { left = R.remaining s.reader; faults = s.faults } };
}

impl<R: Read + Drop> StdSource<R> {
    /// Reads from this reader, with no fault counted so far.
    pub fn new(reader: R) -> StdSource<R>
        ensures { result ≡ record { left = R.remaining reader; faults = 0 } }
    {
        StdSource { reader, faults: 0 }
    }
}

impl<R: Read + Drop> Source for StdSource<R> {
    ghost left = { λ _. None };

    ghost faults = { λ s. s.faults };

    fn read(&mut self, room: &mut [u8]) -> Result<usize, Failed>
        requires { 0 < length room.old }
        ensures bound { ReadsAtMost result room.new }
        ensures reader { ReadConsumes self.old.left self.new.left result room.new }
        ensures faults { CountsFaults self.old.faults self.new.faults result }
        ensures counted { OnErr result (self.new.faults ≡ next_u64 self.old.faults) }
    {
        for _ in 0..=RETRIES {
            match self.reader.read(room) {
                Ok(count) => return Ok(count),
                Err(error) if error.kind() == ErrorKind::Interrupted => {}
                Err(_) => break,
            }
        }
        self.faults = self.faults.saturating_add(1);
        Err(Failed)
    }
}

/// A sink over a writer of the runtime. It counts the writer's failures, hands the pieces on to the
/// writer, and tries an interrupted write again at most 1,000 times. A writer that takes nothing of
/// a piece has failed. Contracts see it as what its writer holds and its count of faults. As a sink
/// it tells nothing of the bytes, since the runtime's standard output does not.
#[derive(Drop)]
pub struct StdSink<W: Write + Drop> {
    writer: W,
    faults: u64,
}

impl<W: Write + Drop> Model for StdSink<W> {
    ghost use Rattle.pe_io.specs.Standard.{StdWriting};

    ghost Value = { StdWriting };

    ghost view = { λ s. record { held = W.contents s.writer; faults = s.faults } };
}

impl<W: Write + Drop> StdSink<W> {
    /// Writes to this writer, with no fault counted so far.
    pub fn new(writer: W) -> StdSink<W>
        ensures { result ≡ record { held = W.contents writer; faults = 0 } }
    {
        StdSink { writer, faults: 0 }
    }
}

impl<W: Write + Drop> Sink for StdSink<W> {
    ghost written = { λ _. None };

    ghost faults = { λ s. s.faults };

    fn write(&mut self, piece: &[u8]) -> Result<usize, Failed>
        ensures bound { WritesAtMost result piece.now }
        ensures some { TakesSome result piece.now }
        ensures writer { WriteAppends self.old.held self.new.held result piece.now }
        ensures faults { CountsFaults self.old.faults self.new.faults result }
        ensures counted { OnErr result (self.new.faults ≡ next_u64 self.old.faults) }
    {
        if piece.is_empty() {
            return Ok(0);
        }
        for _ in 0..=RETRIES {
            match self.writer.write(piece) {
                Ok(0) => break,
                Ok(count) => return Ok(count),
                Err(error) if error.kind() == ErrorKind::Interrupted => {}
                Err(_) => break,
            }
        }
        self.faults = self.faults.saturating_add(1);
        Err(Failed)
    }
}
