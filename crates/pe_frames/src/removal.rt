//! Removal of rows.
ghost use Rattle.std.specs.Prelude.{◌≡◌, Some, ◌+◌, ◌<◌, ◌≤◌, ◌↔◌, ◌++◌, [], ◌∷◌, IsSome, IfSome, IsTrue, length, vec_len, vec_capacity};
ghost use Rattle.pe_arena.specs.Slots.{live, with_value, Updates};
ghost use Rattle.pe_frames.specs.Neighbours.{Rewrites, Removes, changed_at, docs_at, unlinked, with_fewer_frames, renewed};
ghost use Rattle.pe_frames.specs.Order.{AreOnce};
ghost use Rattle.pe_frames.specs.Kept.{kept, IsSwept, Sweeps};

use crate::row::{Neighbours, Row, set_earlier, set_first, set_last, set_later, unless};
use pe_arena::{Arena, Handle};
use std::mem;

// Takes the row of the handle out, if it is live, and puts its document behind the others.
pub(crate) fn take_one<D: Drop>(rows: &mut Arena<Row<D>>, h: Handle, docs: &mut Vec<D>)
    requires { vec_len docs.old < vec_capacity docs.old }
    ensures rows { Removes rows.old rows.new (h ∷ []) }
    ensures docs { docs.new.items ≡ docs.old.items ++ docs_at rows.old (h ∷ []) }
    ensures capacity { vec_capacity docs.new ≡ vec_capacity docs.old }
{
    if let Some(row) = rows.remove(h) {
        docs.push_reserved(row.node.doc);
    }
}

// Takes the rows of the handles out, none of which is named twice, and puts their documents behind
// the others in this order.
pub(crate) fn take_all<D: Drop>(rows: &mut Arena<Row<D>>, handles: &[Handle], docs: &mut Vec<D>)
    requires room { vec_len docs.old + length handles.now ≤ vec_capacity docs.old }
    requires once { AreOnce handles.now }
    ensures rows { Removes rows.old rows.new handles.now }
    ensures docs { docs.new.items ≡ docs.old.items ++ docs_at rows.old handles.now }
{
    for h in handles {
        take_one(rows, *h, docs);
    }
}

// Gives the frame this document and no child. Its old document is given back.
pub(crate) fn renew<D>(rows: &mut Arena<Row<D>>, h: Handle, doc: D) -> D
    requires { IsSome (live rows.old h) }
    ensures rows { IfSome (live rows.old h) (λ r. rows.new ≡ with_value rows.old h.slot (renewed doc r)) }
    ensures alone { (r : Row D) → Updates rows.old (with_value rows.old h.slot r) h (Some r) }
    ensures old { IfSome (live rows.old h) (λ r. result ≡ r.node.doc) }
{
    let row = rows.get_mut(h).unwrap();
    row.links = row.links.childless();
    mem::replace(&mut row.node.doc, doc)
}

fn shrink_at<D>(rows: &mut Arena<Row<D>>, top: Handle, count: u32)
    requires live { IsSome (live rows.old top) }
    requires size { IfSome (live rows.old top) (λ r. count ≤ r.size) }
    ensures written { IfSome (live rows.old top) (λ r. rows.new ≡ with_value rows.old top.slot (with_fewer_frames count r)) }
    ensures alone { (r : Row D) → Updates rows.old (with_value rows.old top.slot r) top (Some r) }
{
    let row = rows.get_mut(top).unwrap();
    row.size -= count;
}

// Counts so many frames of the page less, in the row of its top frame, if one is named.
pub(crate) fn shrink_page<D>(rows: &mut Arena<Row<D>>, top: Option<Handle>, count: u32)
    requires live { IfSome top (λ k. IsSome (live rows.old k)) }
    requires size { IfSome top (λ k. IfSome (live rows.old k) (λ r. count ≤ r.size)) }
    ensures { Rewrites rows.old rows.new (changed_at top (with_fewer_frames count)) }
{
    if let Some(top) = top {
        shrink_at(rows, top, count);
    }
}

// Mends what the siblings and the parent of a removed frame say of their neighbours.
pub(crate) fn unlink<D>(rows: &mut Arena<Row<D>>, links: Neighbours, parent: Option<Handle>)
    requires earlier { IfSome links.earlier (λ k. IsSome (live rows.old k)) }
    requires later { IfSome links.later (λ k. IsSome (live rows.old k)) }
    requires parent { IfSome parent (λ k. IsSome (live rows.old k)) }
    ensures { Rewrites rows.old rows.new (unlinked links parent) }
{
    set_later(rows, links.earlier, links.later);
    set_earlier(rows, links.later, links.earlier);
    set_first(rows, unless(links.earlier, parent), links.later);
    set_last(rows, unless(links.later, parent), links.earlier);
}

fn is_live<D>(rows: &Arena<Row<D>>, h: Handle) -> bool
    ensures { IsTrue result ↔ IsSome (live rows.now h) }
{
    rows.get(h).is_some()
}

// Counts so many more dead handles of the list, and drops all dead ones once they are more than half
// of it.
pub(crate) fn sweep<D>(rows: &Arena<Row<D>>, order: &mut Vec<Handle>, dead: &mut usize, more: usize)
    requires { length order.old.items ≡ length (kept rows.now order.old.items []) + (dead.old + more) }
    ensures sweeps { Sweeps rows.now order.old.items order.new.items }
    ensures swept { IsSwept rows.now order.new.items dead.new }
{
    *dead += more;
    if *dead > order.len() / 2 {
        order.retain(|h| is_live(rows, *h));
        *dead = 0;
    }
}
