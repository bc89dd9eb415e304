//! How a browser tells the engine what happens, and asks it on each call.
ghost use Rattle.std.specs.Prelude.{◌≡◌, ◌<◌, true, IsTrue, IfOk, IfSome, IfNone};
ghost use Rattle.pe_lines.specs.Words.{has_bad_byte};
ghost use Rattle.pe_events.specs.Fitting.{is_fitting, is_text};
ghost use Rattle.pe_rules.specs.History.{History};
ghost use Rattle.pe_rules.specs.Replies.{replied};
ghost use Rattle.pe_engine.specs.Replying.{timed};
ghost use Rattle.pe_engine.specs.StandsFor.{StandsFor};
ghost use Rattle.pe_engine.specs.Stepping.{IsReply};
ghost use Rattle.pe_engine.specs.Using.{verdict_in};

use pe_base::{FrameNo, Millis, Steps};
use pe_engine::{Engine, Replies};
use pe_events::{Event, Stamped, Verdict};
use pe_features::Call;
use pe_lines::{Text, has_bad_byte};
use std::alloc::AllocError;
use std::marker::Brand;
use std::sync::ledger::{Blank, Ledger};

/// A text as an event may hold it; None where a byte is neither a tab nor printable ASCII.
pub fn text(bytes: &[u8]) -> Option<Text<'_>>
    ensures fitting { IfSome result (λ t. IsTrue (is_text t)) }
    ensures same { IfSome result (λ t. t ≡ bytes.now) }
    ensures none { IfNone result (has_bad_byte bytes.now ≡ true) }
{
    if has_bad_byte(bytes) {
        return None;
    }
    Some(Text::lent(bytes))
}

/// Tells the engine what happens at a time, and hands on its reply. `AllocError` where memory wants.
pub fn tell(engine: &mut Engine, time: Millis, event: Event<'_>) -> Result<Replies, AllocError>
    requires fitting { IsTrue (is_fitting event) }
    ensures { (H : History) → StandsFor engine.old H → IfOk result (IsReply engine.old engine.new H (timed time event.entry)) }
{
    let time = time.get();
    step::<Brand>(engine, Stamped { time, event }, Blank::new(1))
}

/// What the engine replies, in steps that are counted in contracts alone.
fn step<L: Ledger>(
    engine: &mut Engine,
    stamped: Stamped<'_>,
    blank: Blank,
) -> Result<Replies, AllocError>
    requires name { blank.name ≡ L.name }
    requires parts { blank.parts ≡ L.parts }
    requires some { 0 < blank.parts }
    ensures { (H : History) → StandsFor engine.old H → IfOk result (IsReply engine.old engine.new H (timed stamped.entry.time stamped.entry.event)) }
{
    let mut steps: Steps<L> = Steps::start(blank);
    engine.step(&stamped, &mut steps)
}

/// Whether the document of a frame may make a call now; None where no live frame has the number.
pub fn may(engine: &Engine, frame: FrameNo, call: Call) -> Option<Verdict>
    ensures { (H : History) → StandsFor engine.now H → result ≡ verdict_in engine.now.duration (replied engine.now.duration H) frame call }
{
    decide::<Brand>(engine, frame, call, Blank::new(1))
}

/// What the engine decides, in steps that are counted in contracts alone.
fn decide<L: Ledger>(engine: &Engine, frame: FrameNo, call: Call, blank: Blank) -> Option<Verdict>
    requires name { blank.name ≡ L.name }
    requires parts { blank.parts ≡ L.parts }
    requires some { 0 < blank.parts }
    ensures { (H : History) → StandsFor engine.now H → result ≡ verdict_in engine.now.duration (replied engine.now.duration H) frame call }
{
    let mut steps: Steps<L> = Steps::start(blank);
    engine.decide(frame, call, &mut steps)
}
