//! Notifying of activation.
ghost use Rattle.std.specs.Prelude.{◌≡◌, ◌↔◌, ◌+◌, ◌*◌, ◌≤◌, ◌&&◌, IsSome, IfSome, IfOk, OnErr, IsErr, None, map, filter, length, if◌then◌else◌};
ghost use Rattle.pe_frames.specs.Forest.{entry_of, has_handle, is_under, path_of, with_doc};
ghost use Rattle.pe_frames.specs.Order.{handles_under};
ghost use Rattle.pe_frames.specs.Walk.{changed_where, changed_under};
ghost use Rattle.pe_activation.specs.Notifying.{activated, activated_where, is_notified, is_related, is_same_as, notified};

use crate::activatable::Activatable;
use crate::consumption::Stale;
use pe_arena::Handle;
use pe_base::{DEPTH_LIMIT, FRAME_LIMIT, Millis, Stamp, Steps};
use pe_frames::Frames;
use std::sync::ledger::Ledger;

/// Activates the document of the frame and those of all frames above it, and of the frames below it those
/// whose document is same origin with its own (HTML Standard, "activation notification"). Answers how many
/// documents that are. The error says that the frame is not live; nothing changed then.
pub fn notify<D: Activatable, L: Ledger>(
    frames: &mut Frames<D>,
    h: Handle,
    now: Millis,
    steps: &mut Steps<L>,
) -> Result<u32, Stale>
    ensures entries { IfSome (entry_of frames.old.entries h) (λ e. frames.new.entries ≡ notified D.is_same_origin D.with_stamp now h e frames.old.entries) }
    ensures marks { frames.new.marks ≡ frames.old.marks }
    ensures made { frames.new.made ≡ frames.old.made }
    ensures count { IfOk result (λ n. IfSome (entry_of frames.old.entries h) (λ e. n ≡ length (filter (is_notified D.is_same_origin h e) frames.old.entries))) }
    ensures cost { IfSome (entry_of frames.old.entries h) (λ e. steps.new ≤ steps.old + 3 * length (filter (is_related h e) frames.old.entries)) }
    ensures stale { IsErr result ↔ (entry_of frames.old.entries h ≡ None) }
    ensures err { OnErr result ((frames.new ≡ frames.old) × (steps.new ≡ steps.old)) }
{
    frames.is_a_tree();
    frames.is_counted_in_tree_order();
    frames.is_climbed_by_parents();
    if frames.top(h).is_none() {
        return Err(Stale);
    }
    let upward = activate_upward(frames, h, now, steps);
    let below = activate_below(frames, h, now, steps);
    Ok(upward + below)
}

// Activates the document of the frame and of each above it, and answers how many.
fn activate_upward<D: Activatable, L: Ledger>(
    frames: &mut Frames<D>,
    h: Handle,
    now: Millis,
    steps: &mut Steps<L>,
) -> u32
    requires live { IsSome (entry_of frames.old.entries h) }
    ensures entries { frames.new.entries ≡ map (changed_where (λ x. has_handle x.handle (path_of frames.old.entries h)) (activated D.with_stamp now)) frames.old.entries }
    ensures marks { frames.new.marks ≡ frames.old.marks }
    ensures made { frames.new.made ≡ frames.old.made }
    ensures count { result ≡ length (path_of frames.old.entries h) }
    ensures within { result ≤ DEPTH_LIMIT }
    ensures cost { steps.new ≡ steps.old + length (path_of frames.old.entries h) }
{
    frames.is_a_tree();
    frames.is_climbed_by_parents();
    frames.is_changed_in_tree_order();
    let mut at = h;
    activate_at(frames, at, now, steps);
    let mut count = 1u32;
    while let Some(parent) = frames.parent(at) {
        activate_at(frames, parent, now, steps);
        count += 1;
        at = parent;
    }
    count
}

// Activates the documents below the frame that are same origin with its own, which was activated before,
// and answers how many. What follows a frame is looked up before the frame is written: the look-ups of its
// row then stand side by side, and the compiler makes one of them.
fn activate_below<D: Activatable, L: Ledger>(
    frames: &mut Frames<D>,
    root: Handle,
    now: Millis,
    steps: &mut Steps<L>,
) -> u32
    requires live { IsSome (entry_of frames.old.entries root) }
    requires before { IfSome (entry_of frames.old.entries root) (λ e. activated D.with_stamp now e ≡ e.doc) }
    ensures entries { frames.new.entries ≡ changed_under (activated_where (is_same_as D.is_same_origin (entry_of frames.old.entries root)) D.with_stamp now) frames.old.entries root }
    ensures marks { frames.new.marks ≡ frames.old.marks }
    ensures made { frames.new.made ≡ frames.old.made }
    ensures count { result + 1 ≡ length (filter (λ x. is_under root x && is_same_as D.is_same_origin (entry_of frames.old.entries root) x.doc) frames.old.entries) }
    ensures within { result + 1 ≤ FRAME_LIMIT }
    ensures cost { steps.new + 3 ≤ steps.old + 3 * length (handles_under frames.old.entries root) }
{
    frames.is_a_tree();
    frames.is_counted_in_tree_order();
    frames.is_visited_in_tree_order();
    frames.is_changed_in_tree_order();
    let mut count = 0u32;
    let mut following = frames.preorder_following(root, root);
    while let Some(next) = following {
        following = frames.preorder_following(root, next);
        count += activate_where_same(frames, root, next, now, steps);
    }
    count
}

// Activates the document of the second frame where it is same origin with that of the first, and answers
// how many that are.
fn activate_where_same<D: Activatable, L: Ledger>(
    frames: &mut Frames<D>,
    first: Handle,
    second: Handle,
    now: Millis,
    steps: &mut Steps<L>,
) -> u32
    requires first { IsSome (entry_of frames.old.entries first) }
    requires second { IsSome (entry_of frames.old.entries second) }
    ensures written { IfSome (entry_of frames.old.entries second) (λ x. frames.new ≡ (if is_same_as D.is_same_origin (entry_of frames.old.entries first) x.doc then with_doc frames.old second (activated D.with_stamp now x) else frames.old)) }
    ensures count { IfSome (entry_of frames.old.entries second) (λ x. result ≡ (if is_same_as D.is_same_origin (entry_of frames.old.entries first) x.doc then 1 else 0)) }
    ensures within { result ≤ 1 }
    ensures cost { steps.new ≤ steps.old + 3 }
{
    if !are_same_origin(frames, first, second, steps) {
        return 0;
    }
    activate_at(frames, second, now, steps);
    1
}

// Whether the document of the second frame is same origin with that of the first.
fn are_same_origin<D: Activatable, L: Ledger>(
    frames: &Frames<D>,
    first: Handle,
    second: Handle,
    steps: &mut Steps<L>,
) -> bool
    requires first { IsSome (entry_of frames.now.entries first) }
    requires second { IsSome (entry_of frames.now.entries second) }
    ensures value { IfSome (entry_of frames.now.entries second) (λ x. result ≡ is_same_as D.is_same_origin (entry_of frames.now.entries first) x.doc) }
    ensures cost { steps.new ≤ steps.old + 2 }
{
    let one = frames.node(first, steps).unwrap();
    let other = frames.node(second, steps).unwrap();
    one.doc.same_origin(&other.doc)
}

fn activate_at<D: Activatable, L: Ledger>(
    frames: &mut Frames<D>,
    h: Handle,
    now: Millis,
    steps: &mut Steps<L>,
)
    requires { IsSome (entry_of frames.old.entries h) }
    ensures written { IfSome (entry_of frames.old.entries h) (λ e. frames.new ≡ with_doc frames.old h (activated D.with_stamp now e)) }
    ensures cost { steps.new ≡ steps.old + 1 }
{
    let doc = frames.doc_mut(h, steps).unwrap();
    doc.set_stamp(Stamp::At(now));
}
