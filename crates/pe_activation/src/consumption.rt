//! Consuming of activation.
ghost use Rattle.std.specs.Prelude.{◌≡◌, ◌≢◌, ◌↔◌, ◌+◌, ◌*◌, ◌≤◌, IsSome, IsTrue, IfSome, OnErr, IsErr, None, Ok, length};
ghost use Rattle.pe_frames.specs.Forest.{entry_of, top_of, page_size, with_doc};
ghost use Rattle.pe_frames.specs.Order.{handles_under};
ghost use Rattle.pe_frames.specs.Walk.{changed_under, changed_page};
ghost use Rattle.pe_activation.specs.Stamps.{consumed, history_consumed};
ghost use Rattle.pe_activation.specs.Consuming.{leaves, leaving};

use crate::activatable::Activatable;
use crate::stamp::sticky;
use pe_arena::Handle;
use pe_base::{Stamp, Steps};
use pe_frames::Frames;
use std::sync::ledger::Ledger;

/// The handle names no live frame.
#[derive(Clone, Copy, Debug, PartialEq, Eq)]
pub struct Stale;

// What is consumed.
#[derive(Clone, Copy)]
pub(crate) enum Consuming {
    Activation,
    HistoryAction,
}

/// Consumes the activation of each document of the frame's page (HTML Standard, "consume user
/// activation"). The error says that the frame is not live; nothing changed then.
pub fn consume<D: Activatable, L: Ledger>(
    frames: &mut Frames<D>,
    h: Handle,
    steps: &mut Steps<L>,
) -> Result<(), Stale>
    ensures entries { IfSome (entry_of frames.old.entries h) (λ e. frames.new.entries ≡ changed_page (consumed D.stamp_of D.with_stamp) frames.old.entries (top_of e)) }
    ensures marks { frames.new.marks ≡ frames.old.marks }
    ensures made { frames.new.made ≡ frames.old.made }
    ensures cost { IfSome (entry_of frames.old.entries h) (λ e. steps.new ≤ steps.old + 2 * page_size frames.old.entries (top_of e)) }
    ensures stale { IsErr result ↔ (entry_of frames.old.entries h ≡ None) }
    ensures err { OnErr result ((frames.new ≡ frames.old) × (steps.new ≡ steps.old)) }
{
    consume_page(frames, h, Consuming::Activation, steps)
}

/// Consumes the history-action activation of each document of the frame's page (HTML Standard, "consume
/// history-action user activation"). The error says that the frame is not live; nothing changed then.
pub fn consume_history<D: Activatable, L: Ledger>(
    frames: &mut Frames<D>,
    h: Handle,
    steps: &mut Steps<L>,
) -> Result<(), Stale>
    ensures entries { IfSome (entry_of frames.old.entries h) (λ e. frames.new.entries ≡ changed_page (history_consumed D.stamp_of D.with_second) frames.old.entries (top_of e)) }
    ensures marks { frames.new.marks ≡ frames.old.marks }
    ensures made { frames.new.made ≡ frames.old.made }
    ensures cost { IfSome (entry_of frames.old.entries h) (λ e. steps.new ≤ steps.old + 2 * page_size frames.old.entries (top_of e)) }
    ensures stale { IsErr result ↔ (entry_of frames.old.entries h ≡ None) }
    ensures err { OnErr result ((frames.new ≡ frames.old) × (steps.new ≡ steps.old)) }
{
    consume_page(frames, h, Consuming::HistoryAction, steps)
}

// Consumes so in each document of the page.
fn consume_page<D: Activatable, L: Ledger>(
    frames: &mut Frames<D>,
    h: Handle,
    what: Consuming,
    steps: &mut Steps<L>,
) -> Result<(), Stale>
    ensures entries { IfSome (entry_of frames.old.entries h) (λ e. frames.new.entries ≡ changed_page (leaves D.stamp_of D.with_stamp D.with_second what) frames.old.entries (top_of e)) }
    ensures marks { frames.new.marks ≡ frames.old.marks }
    ensures made { frames.new.made ≡ frames.old.made }
    ensures cost { IfSome (entry_of frames.old.entries h) (λ e. steps.new ≡ steps.old + page_size frames.old.entries (top_of e)) }
    ensures stale { IsErr result ↔ (entry_of frames.old.entries h ≡ None) }
    ensures err { OnErr result ((frames.new ≡ frames.old) × (steps.new ≡ steps.old)) }
{
    frames.is_counted_in_tree_order();
    frames.is_changed_in_tree_order();
    let Some(top) = frames.top(h) else {
        return Err(Stale);
    };
    consume_under(frames, top, what, steps);
    Ok(())
}

// Consumes so in each document at and below the frame. What follows a frame is looked up before the frame is
// written: the two look-ups of its row then stand side by side, and the compiler makes one of them.
fn consume_under<D: Activatable, L: Ledger>(
    frames: &mut Frames<D>,
    root: Handle,
    what: Consuming,
    steps: &mut Steps<L>,
)
    requires live { IsSome (entry_of frames.old.entries root) }
    ensures entries { frames.new.entries ≡ changed_under (leaves D.stamp_of D.with_stamp D.with_second what) frames.old.entries root }
    ensures marks { frames.new.marks ≡ frames.old.marks }
    ensures made { frames.new.made ≡ frames.old.made }
    ensures cost { steps.new ≡ steps.old + length (handles_under frames.old.entries root) }
{
    frames.is_a_tree();
    frames.is_visited_in_tree_order();
    frames.is_changed_in_tree_order();
    let mut following = frames.preorder_following(root, root);
    consume_at(frames, root, what, steps);
    while let Some(next) = following {
        following = frames.preorder_following(root, next);
        consume_at(frames, next, what, steps);
    }
}

fn consume_at<D: Activatable, L: Ledger>(
    frames: &mut Frames<D>,
    h: Handle,
    what: Consuming,
    steps: &mut Steps<L>,
)
    requires { IsSome (entry_of frames.old.entries h) }
    ensures written { IfSome (entry_of frames.old.entries h) (λ e. frames.new ≡ with_doc frames.old h (leaving D.stamp_of D.with_stamp D.with_second what e.doc)) }
    ensures cost { steps.new ≡ steps.old + 1 }
{
    let doc = frames.doc_mut(h, steps).unwrap();
    consume_in(doc, what);
}

fn consume_in<D: Activatable>(doc: &mut D, what: Consuming)
    ensures { doc.new ≡ leaving D.stamp_of D.with_stamp D.with_second what doc.old }
{
    let stamp = doc.stamp();
    match what {
        Consuming::Activation => {
            if sticky(stamp) {
                doc.set_stamp(Stamp::Consumed);
            }
        }
        Consuming::HistoryAction => doc.set_second(stamp),
    }
}
