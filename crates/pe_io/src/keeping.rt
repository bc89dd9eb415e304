//! A sink that keeps what is written.
ghost use Rattle.std.specs.Prelude.{◌≡◌, [], length, IfOk, OnErr, Some};
ghost use Rattle.std.specs.Io.{WritesAtMost};
ghost use Rattle.std.specs.Io.KnownBytes.{WriteAppends};
ghost use Rattle.pe_io.specs.Faults.{CountsFaults, next_u64};
ghost use Rattle.pe_io.specs.Pieces.{TakesSome};

use crate::{Failed, Sink};
use std::alloc::Global;
use std::marker::Model;

/// A sink that keeps what is written, in memory that grows with it. It takes each piece whole, and
/// fails only where memory wants.
#[derive(Drop)]
pub struct TextSink {
    text: Vec<u8>,
    faults: u64,
}

impl Model for TextSink {
    ghost use Rattle.pe_io.specs.Memory.{Keeping};

    ghost Value = { Keeping };

    ghost view = { λ s. record { text = s.text.items; faults = s.faults } };
}

impl TextSink {
    /// Has kept nothing yet, and wants no memory before the first write.
    pub fn new(alloc: Global) -> TextSink
        ensures { result ≡ record { text = []; faults = 0 } }
    {
        TextSink {
            text: Vec::new(alloc),
            faults: 0,
        }
    }

    /// What was written.
    pub fn as_slice(&self) -> &[u8]
        ensures { result.now ≡ self.now.text }
    {
        self.text.as_slice()
    }
}

impl Sink for TextSink {
    ghost written = { λ s. Some s.text };

    ghost faults = { λ s. s.faults };

    fn write(&mut self, piece: &[u8]) -> Result<usize, Failed>
        ensures bound { WritesAtMost result piece.now }
        ensures some { TakesSome result piece.now }
        ensures bytes { WriteAppends (Some self.old.text) (Some self.new.text) result piece.now }
        ensures faults { CountsFaults self.old.faults self.new.faults result }

        ensures whole { IfOk result (λ n. n ≡ length piece.now) }
        ensures counted { OnErr result (self.new.faults ≡ next_u64 self.old.faults) }
    {
        match self.text.extend_from_slice(piece) {
            Ok(()) => Ok(piece.len()),
            Err(_) => {
                self.faults = self.faults.saturating_add(1);
                Err(Failed)
            }
        }
    }
}
