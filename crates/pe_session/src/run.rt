//! The whole run.
ghost use Rattle.std.specs.Prelude.{◌≡◌, ◌≢◌, ◌-◌, ◌^◌, ◌<◌, ◌≤◌, ◌⊎◌, List, ℕ, [], length, IfOk, IfSome};
ghost use Rattle.std.specs.Io.KnownBytes.{Appends, Consumes};
ghost use Rattle.pe_output.specs.OutputText.{output_text, refuses_some};
ghost use Rattle.pe_session.specs.Outcome.{
  Wrote,
  IsWholeStatus,
  IsCutStatus,
  says_refused,
  AppendsPrefix,
};
ghost use Rattle.pe_session.specs.Session.{HasTaken};

use crate::session::{Session, Stop};
use crate::status::Status;
use pe_io::{Sink, Source};
use pe_lines::ended_lines_stay;
use std::alloc::{AllocError, Global};

/// How many bytes a read is offered.
const ROOM: usize = 65_536;

/// A room of this many bytes.
fn make_room(alloc: Global, size: usize) -> Result<Vec<u8>, AllocError>
    ensures { IfOk result (λ room. length room.items ≡ size) }
{
    vec![in alloc; 0; size]
}

/// Runs a script: reads the source to its end, and writes the text of its lines to the sink, the text
/// of each whole line before the next read.
///
/// The duration of transient activation is in milliseconds. Of an input of more bytes than the limit
/// the first bytes up to the limit are judged. The first fault ends the run.
pub fn run_within<S: Source, K: Sink>(
    alloc: Global,
    duration: u32,
    limit: u64,
    source: &mut S,
    sink: &mut K,
) -> Status
    requires duration_low { 1 ≤ duration }
    requires duration_high { duration ≤ 60000 }
    requires limit { limit ≤ 1073741824 }
    requires source_count { S.faults source.old < 2 ^ 64 - 1 }
    requires sink_count { K.faults sink.old < 2 ^ 64 - 1 }

    // What is taken and what is written, by the status; also where the source or the sink tells nothing.
    ensures text { (taken : List ℕ) × (wrote : List ℕ)
        × Consumes (S.left source.old) (S.left source.new) taken
        × Appends (K.written sink.old) (K.written sink.new) wrote
        × Wrote duration result limit taken (S.left source.new) wrote }

    // The same by the script, where the source tells it.
    ensures whole { IsWholeStatus result → IfSome (S.left source.old) (λ script. (length script ≤ limit)
        × Appends (K.written sink.old) (K.written sink.new) (output_text duration script)
        × (refuses_some duration script ≡ says_refused result)) }
    ensures cut_short { IsCutStatus result → IfSome (S.left source.old) (λ script.
        AppendsPrefix (K.written sink.old) (K.written sink.new) (output_text duration script)) }
    ensures too_long { result ≡ Status.InputTooLong → IfSome (S.left source.old) (λ script. limit < length script) }

    // Where no count rose, only memory stops the run.
    ensures complete { S.faults source.new ≡ S.faults source.old → K.faults sink.new ≡ K.faults sink.old →
        IfSome (S.left source.old) (λ script. length script ≤ limit → IsWholeStatus result ⊎ (result ≡ Status.Memory)) }
    ensures complete_long { S.faults source.new ≡ S.faults source.old → K.faults sink.new ≡ K.faults sink.old →
        IfSome (S.left source.old) (λ script. limit < length script → (result ≡ Status.InputTooLong) ⊎ (result ≡ Status.Memory)) }

    ensures no_words { result ≢ Status.Words }
    ensures read_fault { result ≡ Status.ReadFault → S.faults source.old < S.faults source.new }
    ensures no_read_fault { result ≢ Status.ReadFault → S.faults source.new ≡ S.faults source.old }
    ensures write_fault { result ≡ Status.WriteFault → K.faults sink.old < K.faults sink.new }
    ensures no_write_fault { result ≢ Status.WriteFault → K.faults sink.new ≡ K.faults sink.old }
{
    ended_lines_stay();
    let Ok(mut room) = make_room(alloc, ROOM) else {
        return Status::Memory;
    };
    stream(
        limit,
        &mut Session::new(alloc, duration),
        &mut room,
        source,
        sink,
    )
}

/// Goes on to the end of the input, in a session that has taken nothing yet.
fn stream<S: Source, K: Sink>(
    limit: u64,
    session: &mut Session,
    room: &mut [u8],
    source: &mut S,
    sink: &mut K,
) -> Status
    requires starts { HasTaken session.old.engine.duration session.old [] }
    requires some { 0 < length room.old }
    requires few { length room.old ≤ 65536 }
    requires limit { limit ≤ 1073741824 }
    requires source_count { S.faults source.old < 2 ^ 64 - 1 }
    requires sink_count { K.faults sink.old < 2 ^ 64 - 1 }

    ensures text { (taken : List ℕ) × (wrote : List ℕ)
        × Consumes (S.left source.old) (S.left source.new) taken
        × Appends (K.written sink.old) (K.written sink.new) wrote
        × Wrote session.old.engine.duration result limit taken (S.left source.new) wrote }

    ensures read_fault { result ≡ Status.ReadFault → S.faults source.old < S.faults source.new }
    ensures no_read_fault { result ≢ Status.ReadFault → S.faults source.new ≡ S.faults source.old }
    ensures write_fault { result ≡ Status.WriteFault → K.faults sink.old < K.faults sink.new }
    ensures no_write_fault { result ≢ Status.WriteFault → K.faults sink.new ≡ K.faults sink.old }
{
    ended_lines_stay();
    let mut total = 0;
    loop {
        let Ok(count) = source.read(room) else {
            return Status::ReadFault;
        };
        if count == 0 {
            break;
        }
        let spare = (limit - total) as usize;
        if count > spare {
            return match session.take(sink, &room[..spare]) {
                Ok(()) => Status::InputTooLong,
                Err(Stop::Memory) => Status::Memory,
                Err(Stop::Write) => Status::WriteFault,
            };
        }
        match session.take(sink, &room[..count]) {
            Ok(()) => {}
            Err(Stop::Memory) => return Status::Memory,
            Err(Stop::Write) => return Status::WriteFault,
        }
        total += count as u64;
    }
    match session.end(sink) {
        Ok(()) => {
            if session.has_refused() {
                Status::Refusals
            } else {
                Status::Clean
            }
        }
        Err(Stop::Memory) => Status::Memory,
        Err(Stop::Write) => Status::WriteFault,
    }
}
