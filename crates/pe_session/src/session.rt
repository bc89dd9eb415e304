//! A session: the lines of what was taken so far are judged, and their text is written.
ghost use Rattle.std.specs.Prelude.{◌≡◌, ◌+◌, ◌-◌, ◌^◌, ◌<◌, ◌≤◌, ◌++◌, false, length, OnOk, IsErrOf};
ghost use Rattle.std.specs.Io.KnownBytes.{Appends};

use crate::judging::judge;
use pe_engine::Engine;
use pe_io::{Sink, write_whole};
use pe_lines::Cutter;
use std::alloc::{AllocError, Global};

/// Why a session stops.
#[derive(Clone, Copy, Debug, PartialEq, Eq)]
pub enum Stop {
    /// Memory was wanting.
    Memory,
    /// The sink failed.
    Write,
}

/// The lines of what was taken so far are judged, and their text is written.
#[derive(Drop)]
pub struct Session {
    alloc: Global,
    /// Holds what no line feed has ended yet.
    cutter: Cutter,
    /// What the accepted lines made.
    engine: Engine,
    /// The number of the next line.
    number: u64,
    /// Some line was refused.
    refused: bool,
    /// The text that is not written yet.
    out: Vec<u8>,
}

impl Session {
    ghost use Rattle.std.specs.Prelude.{ℕ, List, [], Option};
    ghost use Rattle.pe_lines.specs.Cutting.{Cuts};
    ghost use Rattle.pe_lines.specs.Lines.{ended_lines_or_too_long};
    ghost use Rattle.pe_rules.specs.History.{History};
    ghost use Rattle.pe_output.specs.OutputText.{refuses_some};
    ghost use Rattle.pe_session.specs.Judging.{Stands};
    ghost use Rattle.pe_session.specs.Session.{HasJudged, HasTaken, Adds, AddsLast};

    /// A session that has taken nothing, in which transient activation lasts for so many milliseconds.
    pub fn new(alloc: Global, duration: u32) -> Session
        requires low { 1 ≤ duration }
        requires high { duration ≤ 60000 }
        ensures { HasTaken duration result [] }
    {
        Session {
            alloc,
            cutter: Cutter::new(alloc),
            engine: Engine::new(alloc, duration),
            number: 1,
            refused: false,
            out: Vec::new(alloc),
        }
    }

    /// Whether some line was refused.
    pub fn has_refused(&self) -> bool
        ensures { result ≡ self.now.refused }
    {
        self.refused
    }

    /// Judges each whole line, and puts the texts behind one another.
    fn judge_lines(&mut self) -> Result<(), AllocError>
        requires open { self.old.cutter.finished ≡ false }
        requires room { self.old.number + length self.old.cutter.bytes < 2 ^ 64 - 1 }
        ensures open { self.new.cutter.finished ≡ false }
        ensures ok { OnOk result ((done : List (Option (List ℕ)))
            × Cuts self.old.cutter.bytes done self.new.cutter.bytes
            × (ended_lines_or_too_long self.new.cutter.bytes ≡ [])
            × (self.new.number ≡ self.old.number + length done)
            × ((duration : ℕ) (H : History) → Stands duration self.old.engine H
            → HasJudged duration self.new.engine self.old.number H self.old.out.items self.new.out.items self.old.refused self.new.refused done)) }
    {
        while let Some(line) = self.cutter.next_line() {
            let refused = judge(
                self.alloc,
                &mut self.engine,
                self.number,
                line,
                &mut self.out,
            )?;
            self.refused |= refused;
            self.number += 1;
        }
        Ok(())
    }

    /// Takes a piece of the input, and writes the text of the lines that it ended.
    pub fn take<K: Sink>(&mut self, sink: &mut K, piece: &[u8]) -> Result<(), Stop>
        requires open { self.old.cutter.finished ≡ false }
        requires room { self.old.number + length self.old.cutter.bytes + length piece.now < 2 ^ 64 - 1 }
        requires count { K.faults sink.old < 2 ^ 64 - 1 }
        ensures ok { OnOk result ((duration : ℕ) (taken : List ℕ) → HasTaken duration self.old taken → HasTaken duration self.new (taken ++ piece.now)
            × ((text : List ℕ) × Adds duration taken piece.now text × Appends (K.written sink.old) (K.written sink.new) text)) }
        ensures kept { OnOk result (K.faults sink.new ≡ K.faults sink.old) }
        ensures memory { IsErrOf result Stop.Memory → sink.new ≡ sink.old }
        ensures write { IsErrOf result Stop.Write → (K.faults sink.old < K.faults sink.new)
            × ((duration : ℕ) (taken : List ℕ) → HasTaken duration self.old taken → ((text : List ℕ) × (rest : List ℕ)
            × Adds duration taken piece.now (text ++ rest) × Appends (K.written sink.old) (K.written sink.new) text)) }
    {
        let Ok(()) = self.cutter.feed(piece) else {
            return Err(Stop::Memory);
        };
        let Ok(()) = self.judge_lines() else {
            return Err(Stop::Memory);
        };
        let Ok(()) = write_whole(sink, &self.out) else {
            return Err(Stop::Write);
        };
        self.out.clear();
        Ok(())
    }

    /// Says that the input ended, and judges a last line that no line feed ended.
    fn judge_last(&mut self) -> Result<(), AllocError>
        requires open { self.old.cutter.finished ≡ false }
        ensures ok { OnOk result ((duration : ℕ) (taken : List ℕ) → HasTaken duration self.old taken → AddsLast duration taken self.new.out.items
            × (self.new.refused ≡ refuses_some duration taken)) }
    {
        self.cutter.finish();
        match self.cutter.next_line() {
            Some(line) => {
                let refused = judge(
                    self.alloc,
                    &mut self.engine,
                    self.number,
                    line,
                    &mut self.out,
                )?;
                self.refused |= refused;
                Ok(())
            }
            None => Ok(()),
        }
    }

    /// Writes the text of a last line that no line feed ended.
    pub fn end<K: Sink>(&mut self, sink: &mut K) -> Result<(), Stop>
        requires open { self.old.cutter.finished ≡ false }
        requires count { K.faults sink.old < 2 ^ 64 - 1 }
        ensures ok { OnOk result ((duration : ℕ) (taken : List ℕ) → HasTaken duration self.old taken → (self.new.refused ≡ refuses_some duration taken)
            × ((text : List ℕ) × AddsLast duration taken text × Appends (K.written sink.old) (K.written sink.new) text)) }
        ensures kept { OnOk result (K.faults sink.new ≡ K.faults sink.old) }
        ensures memory { IsErrOf result Stop.Memory → sink.new ≡ sink.old }
        ensures write { IsErrOf result Stop.Write → (K.faults sink.old < K.faults sink.new)
            × ((duration : ℕ) (taken : List ℕ) → HasTaken duration self.old taken → ((text : List ℕ) × (rest : List ℕ)
            × AddsLast duration taken (text ++ rest) × Appends (K.written sink.old) (K.written sink.new) text)) }
    {
        let Ok(()) = self.judge_last() else {
            return Err(Stop::Memory);
        };
        let Ok(()) = write_whole(sink, &self.out) else {
            return Err(Stop::Write);
        };
        Ok(())
    }
}
