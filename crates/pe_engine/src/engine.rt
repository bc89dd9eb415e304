//! The engine.
ghost use Rattle.std.specs.Prelude.{◌≡◌, ◌+◌, ◌-◌, ◌^◌, ◌<◌, ◌≤◌, ◌++◌, ℕ, Some, None, IfOk, IfErr, IfSome, IfNone, IsSome, OnOk, OnErr, length};
ghost use Rattle.pe_base.specs.declared.limits.TheConstants.{EVENT_LIMIT};
ghost use Rattle.pe_engine.specs.Objects.{handle_at};

use crate::kept_row::KeptRow;
use crate::laws::engine_laws;
use pe_arena::Handle;
use pe_base::Millis;
use pe_delegation::Messages;
use pe_frames::Frames;
use pe_prompts::Prompts;
use pe_status::Statuses;
use pe_store::Store;
use std::alloc::{AllocError, Global};
use std::marker::Model;

/// What an event made.
#[derive(Clone, Copy, Debug, PartialEq, Eq)]
pub enum Made {
    /// Nothing that a later event can name.
    Nothing,
    /// A frame, with its first document.
    Frame(Handle),
    /// A document in a frame that was there.
    Doc,
    /// A permission status.
    Status,
    /// A prompt.
    Prompt,
    /// A message.
    Message,
}

/// The engine: what is kept of the accepted events, so that each further one can be answered.
#[derive(Drop)]
pub struct Engine {
    pub(crate) alloc: Global,
    pub(crate) duration: u32,
    pub(crate) clock: Millis,
    pub(crate) failed: bool,
    pub(crate) made: Vec<Made>,
    pub(crate) frames: Frames<KeptRow>,
    pub(crate) store: Store,
    pub(crate) statuses: Statuses,
    pub(crate) prompts: Prompts,
    pub(crate) messages: Messages,
}

impl Model for Engine {
    ghost use Rattle.std.specs.Prelude.{◌≡◌, ◌≤◌, ◌<◌, ◌+◌, ℕ, true, length};
    ghost use Rattle.pe_base.specs.declared.limits.TheConstants.{EVENT_LIMIT};
    ghost use Rattle.pe_status.specs.Registry.{AreBelow};
    ghost use Rattle.pe_delegation.specs.Posted.{was_given};
    ghost use Rattle.pe_requests.specs.PromptSteps as requests;
    ghost use Rattle.pe_engine.specs.StandsFor.{EngineValue};

    ghost Value = { EngineValue };

    ghost view = { λ e. record { duration = e.duration; clock = e.clock; failed = e.failed; made = e.made.items; frames = e.frames; store = e.store; statuses = e.statuses; prompts = e.prompts; messages = e.messages } };

    ghost invariant = { λ e. (length e.made.items ≤ EVENT_LIMIT) × (e.frames.made ≤ length e.made.items) × AreBelow (length e.made.items + 1) e.statuses.given × requests.AreBelow (length e.made.items + 1) e.prompts × ((k : ℕ) → was_given e.messages.given k ≡ true → k < length e.made.items + 1) };
}

impl Engine {
    ghost use Rattle.std.specs.Prelude.{[], ◌∷◌};
    ghost use Rattle.pe_rules.specs.History.{History};
    ghost use Rattle.pe_engine.specs.StandsFor.{StandsFor};

    /// An engine with no events. Transient activation (HTML Standard, "transient activation duration") and a
    /// delegated capability last `duration` milliseconds, 1 to 60,000 (`DURATION_LIMIT`). It takes no memory.
    pub fn new(alloc: Global, duration: u32) -> Engine
        requires low { 1 ≤ duration }
        requires high { duration ≤ 60000 }
        ensures duration { result.duration ≡ duration }
        ensures stands { StandsFor result [] }
    {
        engine_laws();
        Engine {
            alloc,
            duration,
            clock: Millis::of(0),
            failed: false,
            made: Vec::new(alloc),
            frames: Frames::new(alloc),
            store: Store::new(alloc),
            statuses: Statuses::new(alloc),
            prompts: Prompts::new(alloc),
            messages: Messages::new(alloc),
        }
    }

    /// Whether an earlier `step` wanted memory. Every later `step` then answers `AllocError`, and nothing is
    /// said of `decide`.
    pub fn failed(&self) -> bool
        ensures { result ≡ self.now.failed }
    {
        self.failed
    }

    /// The time of the last accepted event, in milliseconds; 0 before any.
    pub fn clock(&self) -> Millis
        ensures { result ≡ self.now.clock }
    {
        self.clock
    }

    /// The handle of the frame of this number, also where it is no longer live.
    pub(crate) fn handle(&self, frame: u32) -> Option<Handle>
        ensures { result ≡ handle_at self.now.made frame }
    {
        let place = (frame as usize).checked_sub(1)?;
        match self.made.get(place) {
            Some(Made::Frame(h)) => Some(*h),
            _ => None,
        }
    }

    /// Notes what the event at this time made, which is accepted.
    pub(crate) fn note(&mut self, now: Millis, made: Made) -> Result<(), AllocError>
        requires { length self.old.made < EVENT_LIMIT }
        ensures ok { OnOk result (self.new ≡ record self.old { clock = now; made = self.old.made ++ made ∷ [] }) }
    {
        self.made.push(made)?;
        self.clock = now;
        Ok(())
    }
}
