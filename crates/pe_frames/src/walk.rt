//! The walk over the tree.
ghost use Rattle.std.specs.Prelude.{◌≡◌, ◌↔◌, ◌∷◌, Some, None, IsSome, IsSomeAnd, IsTrue, IfSome, IfOk, unwrap_or, false};
ghost use Rattle.std.specs.Option.{option_map};
ghost use Rattle.pe_frames.specs.Forest.{entry_of, has_handle, is_under, last_of};
ghost use Rattle.pe_frames.specs.Order.{after, child_handles, next_child_of, handles_under};
ghost use Rattle.pe_frames.specs.Kept.{position_of, standing_in};

use crate::frames::Frames;
use crate::node::Numbered;
use crate::row::{Row, names};
use pe_arena::Handle;
use std::alloc::AllocError;

impl<D: Numbered> Frames<D> {
    /// The first child of the parent, or the child behind the named one, in the order of their
    /// making. None where there is none, where the parent is not live, and where the named one is no
    /// live child of it.
    pub fn next_child(&self, parent: Handle, after: Option<Handle>) -> Option<Handle>
        ensures value { result ≡ next_child_of self.now.entries parent after }
        ensures stale { entry_of self.now.entries parent ≡ None → result ≡ None }
    {
        let _ = &self.order;
        let here = self.standing(parent)?;
        match after {
            None => here.links.first,
            Some(child) => self.child_behind(parent, child),
        }
    }

    // The child of the parent behind this one.
    fn child_behind(&self, parent: Handle, child: Handle) -> Option<Handle>
        ensures { result ≡ after child (child_handles self.now.entries parent) }
    {
        let _ = &self.order;
        let here = self.standing(child)?;
        if !names(here.parent, parent) {
            return None;
        }
        here.links.later
    }

    /// What stands behind the frame in tree order, among the root and those below it. None where
    /// nothing does, where the frame is not live, and where it is neither the root nor below it.
    pub fn preorder_next(&self, root: Handle, at: Handle) -> Option<Handle>
        ensures value { result ≡ after at (handles_under self.now.entries root) }
        ensures stale { entry_of self.now.entries at ≡ None → result ≡ None }
        ensures outside { IfSome (entry_of self.now.entries at) (λ e. is_under root e ≡ false → result ≡ None) }
    {
        let _ = &self.order;
        if !self.is_within(root, at) {
            return None;
        }
        self.preorder_following(root, at)
    }

    // Whether the frame is live and is the root or below it.
    fn is_within(&self, root: Handle, at: Handle) -> bool
        ensures { IsTrue result ↔ IsSomeAnd (entry_of self.now.entries at) (λ e. IsTrue (is_under root e)) }
    {
        let _ = &self.order;
        let Some(top) = self.top(at) else {
            return false;
        };
        if top == root {
            return true;
        }
        self.climbs_to(root, at)
    }

    // Whether the way up from the frame comes to the root.
    fn climbs_to(&self, root: Handle, at: Handle) -> bool
        requires { IsSome (entry_of self.now.entries at) }
        ensures { IsTrue result ↔ IsSomeAnd (entry_of self.now.entries at) (λ e. IsTrue (is_under root e)) }
    {
        let _ = &self.order;
        let mut up = at;
        while up != root {
            let Some(parent) = self.parent(up) else {
                return false;
            };
            up = parent;
        }
        true
    }

    /// What `preorder_next` gives for a frame that is the root or below it, without the way up to the
    /// root that would show that. A walk down by this call comes back over each frame once, as it leaves
    /// the last of its children.
    pub fn preorder_following(&self, root: Handle, at: Handle) -> Option<Handle>
        requires under { IsTrue (has_handle at (handles_under self.now.entries root)) }
        ensures value { result ≡ after at (handles_under self.now.entries root) }
    {
        let _ = &self.order;
        let row = self.row(at);
        if row.links.first.is_some() {
            return row.links.first;
        }
        self.past(root, at, row)
    }

    // What stands behind a frame, which has this row, and all below it: the later sibling of the nearest
    // frame on the way up to the root that has one.
    fn past(&self, root: Handle, at: Handle, row: &Row<D>) -> Option<Handle>
        requires under { IsSomeAnd (entry_of self.now.entries at) (λ e. IsTrue (is_under root e)) }
        requires row { option_map (standing_in self.now.entries at) (entry_of self.now.entries at) ≡ Some (position_of row.now) }
        ensures { result ≡ after (unwrap_or (last_of (handles_under self.now.entries at)) at) (handles_under self.now.entries root) }
    {
        let _ = &self.order;
        let mut up = at;
        let mut here = row;
        while up != root {
            if here.links.later.is_some() {
                return here.links.later;
            }
            up = here.node.parent.unwrap();
            here = self.row(up);
        }
        None
    }

    // The handles of the frames below the named one, in tree order.
    pub(crate) fn handles_below(&self, h: Handle) -> Result<Vec<Handle>, AllocError>
        requires { IsSome (entry_of self.now.entries h) }
        ensures { IfOk result (λ v. h ∷ v.items ≡ handles_under self.now.entries h) }
    {
        let mut below = Vec::new(*self.order.allocator());
        let mut at = h;
        while let Some(next) = self.preorder_following(h, at) {
            below.reserve(1)?;
            below.push_reserved(next);
            at = next;
        }
        Ok(below)
    }
}
