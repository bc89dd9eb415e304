//! The changes that the end of a top document brings.
ghost use Rattle.std.specs.Prelude.{◌≡◌, ◌≤◌, ◌+◌, ◌∷◌, [], ℕ, Some, IsTrue, IfOk, OnOk, length};
ghost use Rattle.pe_base.specs.declared.state.State.TheVariants as state;
ghost use Rattle.pe_store.specs.Entries as store;
ghost use Rattle.pe_store.specs.Entries.{StoreValue};
ghost use Rattle.pe_store.specs.Pages.{is_listed, AreApart};
ghost use Rattle.pe_store.specs.Pairs.{Pair};
ghost use Rattle.pe_store.specs.Places.{has_life, is_page_of};
ghost use Rattle.pe_rules.specs.History.{Step, History};
ghost use Rattle.pe_rules.specs.Current.{ends, document_in};
ghost use Rattle.pe_rules.specs.Changes.{changes_after};
ghost use Rattle.pe_rules.specs.Replies.{replied, is_regular};
ghost use Rattle.pe_changes.specs.Parts.{is_silent, IsStore, IsStatuses, AreGoverned};
ghost use Rattle.pe_changes.specs.Gathered.{changes_under, statuses_under};

use crate::governed::Governed;
use crate::walking::append_walked;
use pe_base::{Millis, State, Steps};
use pe_events::Change;
use pe_features::Feature;
use pe_frames::Frames;
use pe_laws::history_laws;
use pe_status::Statuses;
use pe_store::{Key, same_pairs_are_one};
use std::alloc::{AllocError, Global};
use std::sync::ledger::Ledger;

// The changes to prompt of the statuses of these pairs, by pair.
fn gather_ended<D: Governed, L: Ledger>(
    alloc: Global,
    ended: &[(Feature, Key)],
    statuses: &Statuses,
    frames: &Frames<D>,
    now: Millis,
    steps: &mut Steps<L>,
) -> Result<Vec<Change>, AllocError>
    ensures list { IfOk result (λ changes. changes.items ≡ changes_under (is_silent D.doc_no D.blocks_feature frames.now.entries) now state.Prompt statuses.now.live ended.now) }
    ensures cost { OnOk result (steps.new ≡ steps.old + length ended.now + length (statuses_under statuses.now.live ended.now)) }
{
    let mut changes = Vec::new(alloc);
    for (feature, key) in ended {
        let walk = statuses.walk(*feature, key, None, steps);
        append_walked(&mut changes, walk, frames, now, State::Prompt, steps)?;
    }
    Ok(changes)
}

/// The changes that the end of a top document brings, by the number of the status: of the statuses that
/// are live after it, by the pairs whose entries ended with it.
/// `AllocError` where memory wants.
/// It costs a tick for each pair, at most one for each live status, and one sort of the changes.
pub fn changes_of_end<D: Governed, L: Ledger>(
    alloc: Global,
    ended: &[(Feature, Key)],
    statuses: &Statuses,
    frames: &Frames<D>,
    now: Millis,
    steps: &mut Steps<L>,
) -> Result<Vec<Change>, AllocError>
    ensures changes { (duration : ℕ) (H : History) (s : Step) (f doc : ℕ) (old : StoreValue) → IsTrue (is_regular duration H) → IsTrue (ends (f ∷ []) s.event) → document_in (replied duration H) f ≡ Some doc → IsStore (replied duration H) now old → IsStatuses (s ∷ replied duration H) statuses.now → AreGoverned (s ∷ replied duration H) D.doc_no D.blocks_feature frames.now.entries statuses.now.live → AreApart ended.now → ((pair : Pair) → is_listed pair ended.now ≡ has_life is_page_of doc (store.entry_of old.entries pair)) → IfOk result (λ changes. changes.items ≡ changes_after (replied duration H) (s ∷ replied duration H) now) }
    ensures cost { AreApart ended.now → OnOk result (steps.new ≤ steps.old + length ended.now + length statuses.now.live) }
{
    history_laws();
    same_pairs_are_one();
    let mut changes = gather_ended(alloc, ended, statuses, frames, now, steps)?;
    changes.sort_unstable_by_key(|change| (change.time, change.status));
    Ok(changes)
}
