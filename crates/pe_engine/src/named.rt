//! The causes of a refusal that every verb has: the number of events, the time, and the frame that is
//! named.
ghost use Rattle.std.specs.Prelude.{◌≡◌, ◌+◌, ◌<◌, ◌≤◌, Some, None, IfOk, IfErr, IfSome, IfNone, IsSome, length, ℕ, option_map};
ghost use Rattle.pe_base.specs.declared.limits.TheConstants.{EVENT_LIMIT};
ghost use Rattle.pe_frames.specs.Forest.{entry_of};
ghost use Rattle.pe_events.specs.declared.event.Event.{Event};
ghost use Rattle.pe_rules.specs.History.{History};
ghost use Rattle.pe_rules.specs.Causes.{cause_of};
ghost use Rattle.pe_rules.specs.Replies.{replied};
ghost use Rattle.pe_engine.specs.Causes.{time_cause, named_cause, other_cause, frame_named};
ghost use Rattle.pe_engine.specs.Objects.{handle_at};
ghost use Rattle.pe_engine.specs.Rows.{IsShown};
ghost use Rattle.pe_engine.specs.StandsFor.{StandsFor};

use crate::engine::Engine;
use crate::laws::engine_laws;
use crate::row::Row;
use pe_arena::Handle;
use pe_base::{EVENT_LIMIT, Millis, Steps};
use pe_events::Cause;
use std::sync::ledger::Ledger;

impl Engine {
    /// The position of the next event at this time; the error says that there are as many events as
    /// there may be, or that the time is before the clock.
    pub(crate) fn next(&self, now: Millis) -> Result<u32, Cause>
        ensures cause { (H : History) → StandsFor self.now H → IfErr result (λ why. time_cause (replied self.now.duration H) now ≡ Some why) }
        ensures none { (H : History) → StandsFor self.now H → IfOk result (λ number. time_cause (replied self.now.duration H) now ≡ None) }
        ensures number { IfOk result (λ number. number ≡ length self.now.made + 1) }
        ensures few { IfOk result (λ number. number ≤ EVENT_LIMIT) }
        ensures late { IfOk result (λ number. self.now.clock ≤ now) }
    {
        engine_laws();
        let count = self.made.len();
        if count >= EVENT_LIMIT as usize {
            return Err(Cause::LimitEvents);
        }
        if now.get() < self.clock.get() {
            return Err(Cause::TimeBack);
        }
        Ok(count as u32 + 1)
    }

    /// The handle of the live frame of this number; the error says that no event made it, or that it is
    /// no longer live.
    fn live(&self, frame: u32) -> Result<Handle, Cause>
        ensures cause { (H : History) (e : Event) → StandsFor self.now H → frame_named e ≡ Some frame → IfErr result (λ why. named_cause (replied self.now.duration H) e ≡ Some why) }
        ensures none { (H : History) (e : Event) → StandsFor self.now H → frame_named e ≡ Some frame → IfOk result (λ h. named_cause (replied self.now.duration H) e ≡ None) }
        ensures handle { IfOk result (λ h. handle_at self.now.made frame ≡ Some h) }
        ensures found { IfOk result (λ h. IsSome (entry_of self.now.frames.entries h)) }
    {
        engine_laws();
        let Some(h) = self.handle(frame) else {
            return Err(Cause::Unknown);
        };
        if self.frames.top(h).is_none() {
            return Err(Cause::Closed);
        }
        Ok(h)
    }

    /// The position of the next event at this time, and the handle of the live frame of this number; the
    /// error is the first of the causes of both.
    pub(crate) fn next_in(&self, now: Millis, frame: u32) -> Result<(u32, Handle), Cause>
        ensures cause { (H : History) (e : Event) → StandsFor self.now H → frame_named e ≡ Some frame → IfErr result (λ why. cause_of (replied self.now.duration H) now e ≡ Some why) }
        ensures rest { (H : History) (e : Event) → StandsFor self.now H → frame_named e ≡ Some frame → IfOk result (λ found. cause_of (replied self.now.duration H) now e ≡ other_cause (replied self.now.duration H) now e) }
        ensures number { IfOk result (λ found. found.0 ≡ length self.now.made + 1) }
        ensures few { IfOk result (λ found. found.0 ≤ EVENT_LIMIT) }
        ensures late { IfOk result (λ found. self.now.clock ≤ now) }
        ensures handle { IfOk result (λ found. handle_at self.now.made frame ≡ Some found.1) }
        ensures found { IfOk result (λ found. IsSome (entry_of self.now.frames.entries found.1)) }
    {
        let number = match self.next(now) {
            Ok(number) => number,
            Err(cause) => return Err(cause),
        };
        match self.live(frame) {
            Ok(h) => Ok((number, h)),
            Err(cause) => Err(cause),
        }
    }

    /// The row of the document that the live frame shows.
    pub(crate) fn row<'e, L: Ledger>(&'e self, h: Handle, steps: &mut Steps<L>) -> &'e Row
        requires live { IsSome (entry_of self.now.frames.entries h) }
        ensures entry { option_map (λ e. e.doc) (entry_of self.now.frames.entries h) ≡ Some result.now }
        ensures shown { (H : History) (f : ℕ) → StandsFor self.now H → handle_at self.now.made f ≡ Some h → IsShown (replied self.now.duration H) f result.now }
        ensures cost { steps.new ≡ steps.old + 1 }
    {
        self.frames.node(h, steps).unwrap().doc.get()
    }
}
