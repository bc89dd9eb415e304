//! Whether the document of a frame may make a call, at a time.
ghost use Rattle.std.specs.Prelude.{◌≡◌, ◌+◌, ◌≤◌, ◌↔◌, ℕ, false, Some, None, IsSome, option_and_then};
ghost use Rattle.pe_frames.specs.Forest.{entry_of};
ghost use Rattle.pe_store.specs.Entries as entries;
ghost use Rattle.pe_rules.specs.History.{RepliedHistory, History, clock};
ghost use Rattle.pe_rules.specs.Current.{document_in, is_live};
ghost use Rattle.pe_rules.specs.Replies.{replied};
ghost use Rattle.pe_rules.specs.Settings.{stored_state};
ghost use Rattle.pe_rules.specs.Verdicts.{verdict_of};
ghost use Rattle.pe_changes.specs.Parts.{IsStore};
ghost use Rattle.pe_engine.specs.Deciding.{IsStoredFor};
ghost use Rattle.pe_engine.specs.Objects.{handle_at};
ghost use Rattle.pe_engine.specs.Rows.{IsSettled};
ghost use Rattle.pe_engine.specs.StandsFor.{StandsFor};
ghost use Rattle.pe_engine.specs.Using.{state_at, verdict_in};

use crate::engine::Engine;
use crate::laws::engine_laws;
use crate::row::Row;
use crate::verdict::{key_for, verdict};
use pe_arena::Handle;
use pe_base::{FrameNo, Millis, State, Steps};
use pe_events::Verdict;
use pe_features::{Call, Feature, Gate};
use pe_store::{Entry, Key, Life, Store};
use std::sync::ledger::Ledger;

/// The state that an entry of the store gives at a time: its own, unless its life ended by then.
fn state_at(entry: &Entry, now: Millis) -> Option<State>
    ensures { result ≡ state_at now entry.now }
{
    if let Life::Until(end) = entry.life {
        if now.get() >= end {
            return None;
        }
    }
    Some(entry.state)
}

/// What is stored for a pair at a time. The store may be as it was before: entries whose life ended since
/// may stand there.
pub(crate) fn stored_at<L: Ledger>(
    store: &Store,
    feature: Feature,
    key: &Key,
    now: Millis,
    steps: &mut Steps<L>,
) -> Option<State>
    ensures entry { result ≡ option_and_then (state_at now) (entries.entry_of store.now.entries (feature, key.now)) }
    ensures stored { (T : RepliedHistory) (before : ℕ) → before ≤ now → IsStore T before store.now → result ≡ stored_state T now (feature, key.now) }
    ensures cost { steps.new ≡ steps.old + 1 }
{
    engine_laws();
    let entry = store.get(feature, key, steps)?;
    state_at(entry, now)
}

/// What is stored at a time for the document of this row and the feature of a call, where the call wants
/// its permission. The store is as it was at the clock, which is no later.
fn stored_for<L: Ledger>(
    store: &Store,
    gate: Gate,
    row: &Row,
    now: Millis,
    steps: &mut Steps<L>,
) -> Option<State>
    ensures stored { (T : RepliedHistory) → clock T ≤ now → IsStore T (clock T) store.now → IsSettled T row.now → IsStoredFor T now row.now.doc gate result }
    ensures cost { steps.new ≤ steps.old + 1 }
{
    if !gate.permission {
        return None;
    }
    let feature = gate.feature?;
    let key = key_for(row, feature)?;
    stored_at(store, feature, key, now, steps)
}

impl Engine {
    /// The verdict of a call in the document of the live frame of this handle, at a time that is not
    /// before the clock.
    pub(crate) fn judge<L: Ledger>(
        &self,
        h: Handle,
        call: Call,
        now: Millis,
        steps: &mut Steps<L>,
    ) -> Verdict
        requires live { IsSome (entry_of self.now.frames.entries h) }
        ensures verdict { (H : History) (f d : ℕ) → StandsFor self.now H → self.now.clock ≤ now → handle_at self.now.made f ≡ Some h → document_in (replied self.now.duration H) f ≡ Some d
            → result ≡ verdict_of self.now.duration (replied self.now.duration H) now d call }
        ensures cost { steps.new ≤ steps.old + 2 }
    {
        let gate = call.gate_of();
        let row = self.row(h, steps);
        let stored = stored_for(&self.store, gate, row, now, steps);
        verdict(gate, row, stored, now, self.duration)
    }

    /// The verdict of a call in the document that the frame of this number shows, at the clock: what a use
    /// of it would be answered now, were it an event. None where no live frame has the number. It costs at
    /// most two steps, whatever the size of the page, and changes nothing. Of an engine that failed
    /// nothing is said.
    pub fn decide<L: Ledger>(
        &self,
        frame: FrameNo,
        call: Call,
        steps: &mut Steps<L>,
    ) -> Option<Verdict>
        ensures verdict { (H : History) → StandsFor self.now H → result ≡ verdict_in self.now.duration (replied self.now.duration H) frame call }
        ensures none { (H : History) → StandsFor self.now H → (result ≡ None) ↔ (is_live (replied self.now.duration H) frame ≡ false) }
        ensures cost { steps.new ≤ steps.old + 2 }
    {
        engine_laws();
        let h = self.handle(frame.get())?;
        self.frames.top(h)?;
        Some(self.judge(h, call, self.clock, steps))
    }
}
