//! The changes that a setting brings.
ghost use Rattle.std.specs.Prelude.{◌≡◌, ◌≤◌, ◌+◌, ◌∷◌, None, Some, IsTrue, IfOk, OnOk, length, unwrap_or};
ghost use Rattle.pe_base.specs.declared.state.State.TheVariants as state;
ghost use Rattle.pe_status.specs.Registry.{later_under};
ghost use Rattle.pe_rules.specs.History.{Step, RepliedHistory};
ghost use Rattle.pe_rules.specs.Settings.{Setting, setting_by, holds};
ghost use Rattle.pe_rules.specs.Changes.{changes_after};
ghost use Rattle.pe_changes.specs.Parts.{IsStore, IsStatuses, AreGoverned};
ghost use Rattle.pe_changes.specs.Gathered.{state_in};

use crate::governed::Governed;
use crate::walking::append_changes;
use pe_base::{Millis, State, Steps};
use pe_events::Change;
use pe_features::Feature;
use pe_frames::Frames;
use pe_laws::history_laws;
use pe_status::Statuses;
use pe_store::{Key, Store, same_pairs_are_one};
use std::alloc::{AllocError, Global};
use std::sync::ledger::Ledger;

// What is stored for a pair, or prompt. One tick.
fn stored_or_prompt<L: Ledger>(
    store: &Store,
    feature: Feature,
    key: &Key,
    steps: &mut Steps<L>,
) -> State
    ensures value { result ≡ unwrap_or (state_in store.now.entries (feature, key.now)) state.Prompt }
    ensures cost { steps.new ≡ steps.old + 1 }
{
    match store.get(feature, key, steps) {
        Some(entry) => entry.state,
        None => State::Prompt,
    }
}

/// The changes that an event brings by itself that sets what is stored for a pair to this state, by name
/// or as an embargo: by the number of the status. The store is as it stands before the setting.
/// `AllocError` where memory wants.
/// It costs two ticks, and one for each live status of the pair.
pub fn changes_of_setting<D: Governed, L: Ledger>(
    alloc: Global,
    store: &Store,
    statuses: &Statuses,
    frames: &Frames<D>,
    feature: Feature,
    key: &Key,
    after: State,
    now: Millis,
    steps: &mut Steps<L>,
) -> Result<Vec<Change>, AllocError>
    ensures changes { (T : RepliedHistory) (s : Step) (x : Setting) → setting_by s.time s.event T ≡ Some x → x.pair ≡ (feature, key.now) → x.state ≡ after → IsTrue (holds (s ∷ T) now x.life) → IsStore T now store.now → IsStatuses T statuses.now → AreGoverned T D.doc_no D.blocks_feature frames.now.entries statuses.now.live → IfOk result (λ changes. changes.items ≡ changes_after T (s ∷ T) now) }
    ensures cost { OnOk result (steps.new ≤ steps.old + 2 + length (later_under (feature, key.now) None statuses.now.live)) }
{
    history_laws();
    same_pairs_are_one();
    let before = stored_or_prompt(store, feature, key, steps);
    let mut changes = Vec::new(alloc);
    append_changes(
        &mut changes,
        statuses,
        frames,
        feature,
        key,
        now,
        before,
        after,
        steps,
    )?;
    Ok(changes)
}
