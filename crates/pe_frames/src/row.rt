//! The rows of frames.
ghost use Rattle.std.specs.Prelude.{◌≡◌, ◌↔◌, ◌+◌, ◌-◌, ◌<◌, ◌≤◌, ◌^◌, IsSome, IsTrue, IfSome, length, IfOk, OnErr, Some, None, if◌then◌else◌, is_none};
ghost use Rattle.pe_arena.specs.Slots.{live, mark, holding, with_value, IsGiven, Updates};
ghost use Rattle.pe_frames.specs.Neighbours.{Rewrites, changed_at, with_first, with_last, with_earlier, with_later, linked};

use crate::node::Node;
use pe_arena::{Arena, Handle, Insert};
use std::alloc::AllocError;

// The neighbours of a frame: its first and its last child, and the siblings before and behind it.
#[derive(Clone, Copy)]
pub(crate) struct Neighbours {
    pub(crate) first: Option<Handle>,
    pub(crate) last: Option<Handle>,
    pub(crate) earlier: Option<Handle>,
    pub(crate) later: Option<Handle>,
}

impl Neighbours {
    // A frame with no child, behind this sibling.
    pub(crate) fn behind(earlier: Option<Handle>) -> Neighbours
        ensures { result ≡ record { first = None; last = None; earlier = earlier; later = None } }
    {
        Neighbours {
            first: None,
            last: None,
            earlier,
            later: None,
        }
    }

    // The same siblings, and no child.
    pub(crate) fn childless(self) -> Neighbours
        ensures { result ≡ record { first = None; last = None; earlier = self.earlier; later = self.later } }
    {
        Neighbours {
            first: None,
            last: None,
            earlier: self.earlier,
            later: self.later,
        }
    }
}

// Where a frame stands: its parent, the top frame of its page, its depth and its neighbours.
#[derive(Clone, Copy)]
pub(crate) struct FramePosition {
    pub(crate) parent: Option<Handle>,
    pub(crate) top: Handle,
    pub(crate) depth: u32,
    pub(crate) links: Neighbours,
}

impl FramePosition {
    // The top frame of the page that is left, once the frame is removed: a top frame leaves none.
    pub(crate) fn page(self) -> Option<Handle>
        ensures { result ≡ (if is_none self.parent then None else Some self.top) }
    {
        if self.parent.is_none() {
            None
        } else {
            Some(self.top)
        }
    }

    // How many pages go, once the frame is removed.
    pub(crate) fn pages(self) -> u32
        ensures { result ≡ (if is_none self.parent then 1 else 0) }
    {
        if self.parent.is_none() { 1 } else { 0 }
    }
}

// What is kept of a frame: its node, where it is a top frame how many frames its page has, and its
// neighbours.
#[derive(Drop)]
pub(crate) struct Row<D> {
    pub(crate) node: Node<D>,
    pub(crate) size: u32,
    pub(crate) links: Neighbours,
}

// Takes a row in. Fewer slots were made than the arena may make, so it is never full.
pub(crate) fn put_row<D: Drop>(rows: &mut Arena<Row<D>>, row: Row<D>) -> Result<Handle, AllocError>
    requires made { rows.old.made < 2 ^ 32 - 1 }
    requires slots { length rows.old.slots ≤ rows.old.made }
    requires limit { rows.old.limit ≡ 2 ^ 32 - 1 }
    ensures new { IfOk result (λ h. live rows.old h ≡ None) }
    ensures given { IfOk result (λ h. IsGiven rows.old rows.new h) }
    ensures generation { IfOk result (λ h. h.generation ≡ mark rows.old h.slot) }
    ensures slots { IfOk result (λ h. rows.new ≡ holding rows.old h.slot row) }
    ensures updates { IfOk result (λ h. Updates rows.old rows.new h (Some row)) }
    ensures err { OnErr result (rows.new ≡ rows.old) }
{
    match rows.insert(row) {
        Ok(h) => Ok(h),
        Err(Insert::Memory(_)) => Err(AllocError),
        Err(Insert::Full(_)) => unreachable!(),
    }
}

// Says of the frame that it is the top frame of its page.
pub(crate) fn name_top<D>(rows: &mut Arena<Row<D>>, h: Handle)
    requires { IsSome (live rows.old h) }
    ensures written { IfSome (live rows.old h) (λ r. rows.new ≡ with_value rows.old h.slot (record r { node = record r.node { top = h } })) }
    ensures alone { (r : Row D) → Updates rows.old (with_value rows.old h.slot r) h (Some r) }
{
    let row = rows.get_mut(h).unwrap();
    row.node.top = h;
}

// Counts one more frame of the page, in the row of its top frame.
pub(crate) fn grow_page<D>(rows: &mut Arena<Row<D>>, top: Handle)
    requires live { IsSome (live rows.old top) }
    requires room { IfSome (live rows.old top) (λ r. r.size ≤ 255) }
    ensures written { IfSome (live rows.old top) (λ r. rows.new ≡ with_value rows.old top.slot (record r { size = r.size + 1 })) }
    ensures alone { (r : Row D) → Updates rows.old (with_value rows.old top.slot r) top (Some r) }
{
    let row = rows.get_mut(top).unwrap();
    row.size += 1;
}

fn first_at<D>(rows: &mut Arena<Row<D>>, h: Handle, first: Option<Handle>)
    requires { IsSome (live rows.old h) }
    ensures written { IfSome (live rows.old h) (λ r. rows.new ≡ with_value rows.old h.slot (with_first first r)) }
    ensures alone { (r : Row D) → Updates rows.old (with_value rows.old h.slot r) h (Some r) }
{
    let row = rows.get_mut(h).unwrap();
    row.links.first = first;
}

fn last_at<D>(rows: &mut Arena<Row<D>>, h: Handle, last: Option<Handle>)
    requires { IsSome (live rows.old h) }
    ensures written { IfSome (live rows.old h) (λ r. rows.new ≡ with_value rows.old h.slot (with_last last r)) }
    ensures alone { (r : Row D) → Updates rows.old (with_value rows.old h.slot r) h (Some r) }
{
    let row = rows.get_mut(h).unwrap();
    row.links.last = last;
}

fn earlier_at<D>(rows: &mut Arena<Row<D>>, h: Handle, earlier: Option<Handle>)
    requires { IsSome (live rows.old h) }
    ensures written { IfSome (live rows.old h) (λ r. rows.new ≡ with_value rows.old h.slot (with_earlier earlier r)) }
    ensures alone { (r : Row D) → Updates rows.old (with_value rows.old h.slot r) h (Some r) }
{
    let row = rows.get_mut(h).unwrap();
    row.links.earlier = earlier;
}

fn later_at<D>(rows: &mut Arena<Row<D>>, h: Handle, later: Option<Handle>)
    requires { IsSome (live rows.old h) }
    ensures written { IfSome (live rows.old h) (λ r. rows.new ≡ with_value rows.old h.slot (with_later later r)) }
    ensures alone { (r : Row D) → Updates rows.old (with_value rows.old h.slot r) h (Some r) }
{
    let row = rows.get_mut(h).unwrap();
    row.links.later = later;
}

// Writes the first child of the frame, if one is named.
pub(crate) fn set_first<D>(rows: &mut Arena<Row<D>>, h: Option<Handle>, first: Option<Handle>)
    requires { IfSome h (λ k. IsSome (live rows.old k)) }
    ensures { Rewrites rows.old rows.new (changed_at h (with_first first)) }
{
    if let Some(h) = h {
        first_at(rows, h, first);
    }
}

// Writes the last child of the frame, if one is named.
pub(crate) fn set_last<D>(rows: &mut Arena<Row<D>>, h: Option<Handle>, last: Option<Handle>)
    requires { IfSome h (λ k. IsSome (live rows.old k)) }
    ensures { Rewrites rows.old rows.new (changed_at h (with_last last)) }
{
    if let Some(h) = h {
        last_at(rows, h, last);
    }
}

// Writes the sibling before the frame, if one is named.
pub(crate) fn set_earlier<D>(rows: &mut Arena<Row<D>>, h: Option<Handle>, earlier: Option<Handle>)
    requires { IfSome h (λ k. IsSome (live rows.old k)) }
    ensures { Rewrites rows.old rows.new (changed_at h (with_earlier earlier)) }
{
    if let Some(h) = h {
        earlier_at(rows, h, earlier);
    }
}

// Writes the sibling behind the frame, if one is named.
pub(crate) fn set_later<D>(rows: &mut Arena<Row<D>>, h: Option<Handle>, later: Option<Handle>)
    requires { IfSome h (λ k. IsSome (live rows.old k)) }
    ensures { Rewrites rows.old rows.new (changed_at h (with_later later)) }
{
    if let Some(h) = h {
        later_at(rows, h, later);
    }
}

// Whether this is the handle.
pub(crate) fn names(named: Option<Handle>, h: Handle) -> bool
    ensures { IsTrue result ↔ (named ≡ Some h) }
{
    named == Some(h)
}

// The handle, where there is no sibling.
pub(crate) fn unless(sibling: Option<Handle>, h: Option<Handle>) -> Option<Handle>
    ensures { result ≡ (if is_none sibling then h else None) }
{
    if sibling.is_none() { h } else { None }
}

// Puts the frame behind the last child of the parent, if there is one: it is the last child then.
pub(crate) fn link<D>(rows: &mut Arena<Row<D>>, parent: Handle, last: Option<Handle>, h: Handle)
    requires parent { IsSome (live rows.old parent) }
    requires last { IfSome last (λ k. IsSome (live rows.old k)) }
    ensures { Rewrites rows.old rows.new (linked parent last h) }
{
    set_later(rows, last, Some(h));
    set_first(rows, unless(last, Some(parent)), Some(h));
    set_last(rows, Some(parent), Some(h));
}
