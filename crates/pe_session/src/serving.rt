//! The top call.
ghost use Rattle.std.specs.Prelude.{
  ◌≡◌,
  ◌≢◌,
  ◌-◌,
  ◌^◌,
  ◌<◌,
  ◌≤◌,
  ◌⊎◌,
  List,
  ℕ,
  length,
  map,
  Some,
  None,
  IfSome,
};
ghost use Rattle.std.specs.Io.KnownBytes.{Appends, Consumes};
ghost use Rattle.std.specs.String.{string_bytes};
ghost use Rattle.pe_output.specs.OutputText.{output_text, refuses_some};
ghost use Rattle.pe_session.specs.Outcome.{Wrote, IsWholeStatus, IsCutStatus, says_refused, AppendsPrefix, Summarises};
ghost use Rattle.pe_session.specs.Words.{duration_asked, duration_of, AreNoForm, Explains};
ghost use Rattle.pe_generator.specs.Generated.{generated};
ghost use Rattle.pe_generator.specs.Words.{AsksForScript};

use crate::generated::{DURATION, summarise};
use crate::run::run_within;
use crate::status::Status;
use pe_base::{DURATION_LIMIT, INPUT_LIMIT};
use pe_generator::script_asked;
use pe_io::{Sink, Source, write_whole};
use pe_script::positive;
use std::alloc::Global;

/// What is written where the words are none of the forms.
const USAGE: &[u8] = b"usage: permissions run [MS] | generate SEED COUNT | check\n";

/// The number of milliseconds that a word names.
fn duration_of(word: &str) -> Option<u32>
    ensures value { result ≡ duration_of word.now }
    ensures range { IfSome result (λ ms. (1 ≤ ms) × (ms ≤ 60000)) }
{
    let ms = positive(word.as_bytes(), 5)?;
    if ms < 1 || ms > u64::from(DURATION_LIMIT) {
        return None;
    }
    Some(ms as u32)
}

/// The duration that the words ask a run with.
#[tactic(auto, unfolding(crate::specs::Words::duration_asked))]
fn duration_asked(words: &[String]) -> Option<u32>
    ensures value { result ≡ duration_asked (map string_bytes words.now) }
    ensures range { IfSome result (λ ms. (1 ≤ ms) × (ms ≤ 60000)) }
{
    match words {
        [word] => {
            if word.as_str() == "run" {
                Some(DURATION)
            } else {
                None
            }
        }
        [word, ms] => {
            if word.as_str() == "run" {
                duration_of(ms.as_str())
            } else {
                None
            }
        }
        _ => None,
    }
}

/// Does what the words ask for: `run` and `run MS` read a script from the source and write its text to
/// the sink, with the duration 5000 or MS; `generate SEED COUNT` makes a script, runs it with the duration
/// 5000, and writes the summary of its text. Other words are answered with the usage line.
pub fn serve<S: Source, K: Sink>(
    alloc: Global,
    words: &[String],
    source: &mut S,
    sink: &mut K,
) -> Status
    requires source_count { S.faults source.old < 2 ^ 64 - 1 }
    requires sink_count { K.faults sink.old < 2 ^ 64 - 1 }

    // What is taken and what is written by a run, by the status; also where the source or the sink
    // tells nothing.
    ensures run { (duration : ℕ) → duration_asked (map string_bytes words.now) ≡ Some duration → (taken : List ℕ) × (wrote : List ℕ)
        × Consumes (S.left source.old) (S.left source.new) taken
        × Appends (K.written sink.old) (K.written sink.new) wrote
        × Wrote duration result 1073741824 taken (S.left source.new) wrote }

    // The same by the script, where the source tells it.
    ensures whole { (duration : ℕ) → duration_asked (map string_bytes words.now) ≡ Some duration → IsWholeStatus result →
        IfSome (S.left source.old) (λ script. (length script ≤ 1073741824)
        × Appends (K.written sink.old) (K.written sink.new) (output_text duration script)
        × (refuses_some duration script ≡ says_refused result)) }
    ensures cut_short { (duration : ℕ) → duration_asked (map string_bytes words.now) ≡ Some duration → IsCutStatus result →
        IfSome (S.left source.old) (λ script. AppendsPrefix (K.written sink.old) (K.written sink.new) (output_text duration script)) }
    ensures complete { (duration : ℕ) → duration_asked (map string_bytes words.now) ≡ Some duration →
        S.faults source.new ≡ S.faults source.old → K.faults sink.new ≡ K.faults sink.old →
        IfSome (S.left source.old) (λ script. length script ≤ 1073741824 → IsWholeStatus result ⊎ (result ≡ Status.Memory)) }
    ensures complete_long { (duration : ℕ) → duration_asked (map string_bytes words.now) ≡ Some duration →
        S.faults source.new ≡ S.faults source.old → K.faults sink.new ≡ K.faults sink.old →
        IfSome (S.left source.old) (λ script. 1073741824 < length script → (result ≡ Status.InputTooLong) ⊎ (result ≡ Status.Memory)) }

    // A generated script: the summary of its output text is written, and the source is untouched.
    ensures generate { (seed : ℕ) → (count : ℕ) → AsksForScript seed count (map string_bytes words.now) → (source.new ≡ source.old)
        × Summarises result count (output_text 5000 (generated seed count)) (K.written sink.old) (K.written sink.new) }

    // Words of no form leave the source untouched, and never want memory.
    ensures usage { AreNoForm (map string_bytes words.now) → (source.new ≡ source.old)
        × Explains result (K.written sink.old) (K.written sink.new) }

    ensures read_fault { result ≡ Status.ReadFault → S.faults source.old < S.faults source.new }
    ensures no_read_fault { result ≢ Status.ReadFault → S.faults source.new ≡ S.faults source.old }
    ensures write_fault { result ≡ Status.WriteFault → K.faults sink.old < K.faults sink.new }
    ensures no_write_fault { result ≢ Status.WriteFault → K.faults sink.new ≡ K.faults sink.old }
{
    match duration_asked(words) {
        Some(duration) => run_within(alloc, duration, INPUT_LIMIT, source, sink),
        None => match script_asked(words) {
            Some((seed, count)) => summarise(alloc, seed, count, sink),
            None => match write_whole(sink, USAGE) {
                Ok(()) => Status::Words,
                Err(_) => Status::WriteFault,
            },
        },
    }
}
