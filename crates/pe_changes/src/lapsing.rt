//! The changes that the passing of time brings.
ghost use Rattle.std.specs.Prelude.{◌≡◌, ◌⊎◌, ◌<◌, ◌≤◌, ◌+◌, ◌++◌, IfOk, OnOk, flat_map, length, None};
ghost use Rattle.pe_base.specs.declared.state.State.TheVariants as state;
ghost use Rattle.pe_store.specs.Entries as store;
ghost use Rattle.pe_status.specs.Registry.{later_under};
ghost use Rattle.pe_rules.specs.History.{RepliedHistory, clock};
ghost use Rattle.pe_rules.specs.Changes.{changes_before};
ghost use Rattle.pe_changes.specs.Parts.{is_silent, IsStore, IsStatuses, AreGoverned};
ghost use Rattle.pe_changes.specs.Gathered.{change_from, NoneEnds, AreLapses};
ghost use Rattle.pe_changes.specs.StoreSteps.{IsLapsed};

use crate::governed::Governed;
use crate::walking::append_changes;
use pe_base::{Millis, State, Steps};
use pe_events::Change;
use pe_frames::Frames;
use pe_laws::history_laws;
use pe_status::Statuses;
use pe_store::{Entry, Store, same_pairs_are_one};
use std::alloc::{AllocError, Global};
use std::sync::ledger::Ledger;

// Puts the changes behind the others that the end of this entry brings, which is let go.
fn append_ended<D: Governed, L: Ledger>(
    changes: &mut Vec<Change>,
    statuses: &Statuses,
    frames: &Frames<D>,
    moment: Millis,
    entry: Entry,
    steps: &mut Steps<L>,
) -> Result<(), AllocError>
    ensures list { OnOk result (changes.new.items ≡ changes.old.items ++ flat_map (change_from (is_silent D.doc_no D.blocks_feature frames.now.entries) moment entry.state state.Prompt) (later_under (store.pair_of entry) None statuses.now.live)) }
    ensures cost { OnOk result (steps.new ≤ steps.old + 1 + length (later_under (store.pair_of entry) None statuses.now.live)) }
{
    append_changes(
        changes,
        statuses,
        frames,
        entry.feature,
        &entry.key,
        moment,
        entry.state,
        State::Prompt,
        steps,
    )
}

// Takes the entries out that end by a time, and gives the changes that this brings, by entry.
fn gather_lapses<D: Governed, L: Ledger>(
    alloc: Global,
    store: &mut Store,
    statuses: &Statuses,
    frames: &Frames<D>,
    to: Millis,
    steps: &mut Steps<L>,
) -> Result<Vec<Change>, AllocError>
    ensures list { IfOk result (λ changes. AreLapses to (is_silent D.doc_no D.blocks_feature frames.now.entries) statuses.now.live store.old.entries store.new.entries changes.items) }
    ensures dismissals { OnOk result (store.new.dismissals ≡ store.old.dismissals) }
    ensures fewer { OnOk result ((store.new ≡ store.old) ⊎ (length store.new.entries < length store.old.entries)) }
    ensures idle { NoneEnds to store.old.entries → steps.new ≡ steps.old }
    ensures cost { OnOk result (steps.new + length store.new.entries ≤ steps.old + length store.old.entries + length statuses.now.live) }
{
    same_pairs_are_one();
    let mut changes = Vec::new(alloc);
    while let Some((moment, entry)) = store.take_due(to.get()) {
        append_ended(
            &mut changes,
            statuses,
            frames,
            Millis::of(moment),
            entry,
            steps,
        )?;
    }
    Ok(changes)
}

/// Takes the entries out of the store that end by a time, and gives the changes at each millisecond after
/// the clock up to that time, by millisecond and by the number of the status. How often pairs were
/// dismissed stays.
/// `AllocError` where memory wants; entries may then be gone without their changes.
/// It costs a logarithm of the entries and one tick for each entry that ends, at most one tick for each live
/// status, and one sort of the changes. Of a store that stands for steps at that time already it costs no tick.
pub fn lapse<D: Governed, L: Ledger>(
    alloc: Global,
    store: &mut Store,
    statuses: &Statuses,
    frames: &Frames<D>,
    to: Millis,
    steps: &mut Steps<L>,
) -> Result<Vec<Change>, AllocError>
    ensures changes { (T : RepliedHistory) → clock T ≤ to → IsStore T (clock T) store.old → IsStatuses T statuses.now → AreGoverned T D.doc_no D.blocks_feature frames.now.entries statuses.now.live → IfOk result (λ changes. changes.items ≡ changes_before T to) }
    ensures stands { (T : RepliedHistory) → clock T ≤ to → IsStore T (clock T) store.old → OnOk result (IsStore T to store.new) }
    ensures lapsed { OnOk result (IsLapsed to store.old store.new) }
    ensures idle { (T : RepliedHistory) → IsStore T to store.old → steps.new ≡ steps.old }
    ensures cost { OnOk result (steps.new + length store.new.entries ≤ steps.old + length store.old.entries + length statuses.now.live) }
{
    history_laws();
    same_pairs_are_one();
    let mut changes = gather_lapses(alloc, store, statuses, frames, to, steps)?;
    changes.sort_unstable_by_key(|change| (change.time, change.status));
    Ok(changes)
}
