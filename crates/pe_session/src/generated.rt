//! The run of a generated script, of which the summary is written.
ghost use Rattle.std.specs.Prelude.{◌≡◌, ◌≢◌, ◌-◌, ◌^◌, ◌<◌, ◌≤◌, IfOk};
ghost use Rattle.pe_generator.specs.Generated.{generated};
ghost use Rattle.pe_output.specs.OutputText.{output_text};
ghost use Rattle.pe_session.specs.Outcome.{Summarises};

use crate::run::run_within;
use crate::status::Status;
use pe_base::INPUT_LIMIT;
use pe_generator::{count_answers, generate_script, summary_text};
use pe_io::{PlainSource, Sink, TextSink, write_whole};
use std::alloc::{AllocError, Global};

/// The duration of transient activation in milliseconds with which a generated script is run.
pub(crate) const DURATION: u32 = 5000;

/// The output text of the generated script. `AllocError` where memory wants.
fn generated_text(alloc: Global, seed: u64, count: u32) -> Result<TextSink, AllocError>
    requires low { 1 ≤ count }
    requires high { count ≤ 100000 }
    ensures { IfOk result (λ kept. kept.text ≡ output_text 5000 (generated seed count)) }
{
    let script = generate_script(alloc, seed, count)?;
    let mut source = PlainSource::new(script);
    let mut kept = TextSink::new(alloc);
    match run_within(alloc, DURATION, INPUT_LIMIT, &mut source, &mut kept) {
        Status::Clean | Status::Refusals => Ok(kept),
        Status::Memory | Status::WriteFault => Err(AllocError),
        Status::Words | Status::ReadFault | Status::InputTooLong => unreachable!(),
    }
}

/// Writes the summary of an output text of a script of so many lines.
fn write_summary<K: Sink>(alloc: Global, count: u32, text: &[u8], sink: &mut K) -> Status
    requires sink_count { K.faults sink.old < 2 ^ 64 - 1 }
    ensures summary { Summarises result count text.now (K.written sink.old) (K.written sink.new) }
    ensures write_fault { result ≡ Status.WriteFault → K.faults sink.old < K.faults sink.new }
    ensures no_write_fault { result ≢ Status.WriteFault → K.faults sink.new ≡ K.faults sink.old }
{
    let counts = count_answers(text);
    let Ok(summary) = summary_text(alloc, count, &counts, text.len()) else {
        return Status::Memory;
    };
    match write_whole(sink, &summary) {
        Ok(()) => {
            if counts.refused == 0 {
                Status::Clean
            } else {
                Status::Refusals
            }
        }
        Err(_) => Status::WriteFault,
    }
}

/// Runs the script of a seed and a count, with the duration 5000, and writes the summary of its output
/// text: whole, or a front of it before a fault of the sink, or nothing where memory wants.
pub(crate) fn summarise<K: Sink>(alloc: Global, seed: u64, count: u32, sink: &mut K) -> Status
    requires low { 1 ≤ count }
    requires high { count ≤ 100000 }
    requires sink_count { K.faults sink.old < 2 ^ 64 - 1 }
    ensures summary { Summarises result count (output_text 5000 (generated seed count)) (K.written sink.old) (K.written sink.new) }
    ensures write_fault { result ≡ Status.WriteFault → K.faults sink.old < K.faults sink.new }
    ensures no_write_fault { result ≢ Status.WriteFault → K.faults sink.new ≡ K.faults sink.old }
{
    match generated_text(alloc, seed, count) {
        Ok(kept) => write_summary(alloc, count, kept.as_slice(), sink),
        Err(AllocError) => Status::Memory,
    }
}
