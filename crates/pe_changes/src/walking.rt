//! The changes of the statuses of one pair.
ghost use Rattle.std.specs.Prelude.{◌≡◌, ◌+◌, ◌≤◌, ◌++◌, OnOk, None, flat_map, length};
ghost use Rattle.pe_status.specs.Registry.{later_under};
ghost use Rattle.pe_rules.specs.Changes.{is_same_state};
ghost use Rattle.pe_changes.specs.Parts.{is_silent};
ghost use Rattle.pe_changes.specs.Gathered.{change_to, change_from};

use crate::governed::Governed;
use pe_base::{Millis, State, Steps};
use pe_events::Change;
use pe_features::Feature;
use pe_frames::Frames;
use pe_status::{Registered, Statuses, Walk};
use pe_store::Key;
use std::alloc::AllocError;
use std::sync::ledger::Ledger;

// Whether no stored state changes the status: its document is denied the feature, or is not there.
fn is_silent<D: Governed, L: Ledger>(
    status: &Registered,
    frames: &Frames<D>,
    steps: &mut Steps<L>,
) -> bool
    ensures value { result ≡ is_silent D.doc_no D.blocks_feature frames.now.entries status.now }
    ensures cost { steps.new ≡ steps.old + 1 }
{
    match frames.doc(status.doc, steps) {
        Some(doc) => doc.is_blocked(status.feature),
        None => true,
    }
}

// Puts a change of the status to this state behind the others, unless no stored state changes it.
fn append_change<D: Governed, L: Ledger>(
    changes: &mut Vec<Change>,
    status: &Registered,
    frames: &Frames<D>,
    time: Millis,
    after: State,
    steps: &mut Steps<L>,
) -> Result<(), AllocError>
    ensures list { OnOk result (changes.new.items ≡ changes.old.items ++ change_to (is_silent D.doc_no D.blocks_feature frames.now.entries) time after status.now) }
    ensures cost { steps.new ≡ steps.old + 1 }
{
    if is_silent(status, frames, steps) {
        return Ok(());
    }
    changes.push(Change {
        time,
        status: status.no,
        state: after,
    })?;
    Ok(())
}

/// Puts a change to this state behind the others for each status of the walk that it changes. One tick for
/// each status.
pub(crate) fn append_walked<D: Governed, L: Ledger>(
    changes: &mut Vec<Change>,
    walk: Walk<'_>,
    frames: &Frames<D>,
    time: Millis,
    after: State,
    steps: &mut Steps<L>,
) -> Result<(), AllocError>
    ensures list { OnOk result (changes.new.items ≡ changes.old.items ++ flat_map (change_to (is_silent D.doc_no D.blocks_feature frames.now.entries) time after) walk.entry) }
    ensures cost { OnOk result (steps.new ≡ steps.old + length walk.entry) }
{
    let mut rest = walk;
    while let Some(status) = rest.next() {
        append_change(changes, status, frames, time, after, steps)?;
    }
    Ok(())
}

// Whether the two states are one.
fn is_same(before: State, after: State) -> bool
    ensures { result ≡ is_same_state before after }
{
    before == after
}

/// Puts the changes of the live statuses of the pair behind the others, by number, that come with what is
/// stored for it at a time: none where the state is as before. One tick for the walk, and one for each
/// status of the pair.
pub(crate) fn append_changes<D: Governed, L: Ledger>(
    changes: &mut Vec<Change>,
    statuses: &Statuses,
    frames: &Frames<D>,
    feature: Feature,
    key: &Key,
    time: Millis,
    before: State,
    after: State,
    steps: &mut Steps<L>,
) -> Result<(), AllocError>
    ensures list { OnOk result (changes.new.items ≡ changes.old.items ++ flat_map (change_from (is_silent D.doc_no D.blocks_feature frames.now.entries) time before after) (later_under (feature, key.now) None statuses.now.live)) }
    ensures cost { OnOk result (steps.new ≤ steps.old + 1 + length (later_under (feature, key.now) None statuses.now.live)) }
{
    if is_same(before, after) {
        return Ok(());
    }
    let walk = statuses.walk(feature, key, None, steps);
    append_walked(changes, walk, frames, time, after, steps)?;
    Ok(())
}
