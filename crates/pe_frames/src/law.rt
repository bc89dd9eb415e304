//! What is so of every tree of frames, for proofs of callers.
ghost use Rattle.std.specs.Prelude.{◌≡◌, ◌+◌, ◌≤◌, ◌↔◌, ◌&&◌, ◌||◌, IsTrue, IsSome, IsSomeAnd, IfSome, Some, None, Bool, false, [], ◌∷◌, ◌++◌, map, filter, length};
ghost use Rattle.std.specs.Option.{option_map, option_and_then};
ghost use Rattle.pe_frames.specs.Forest.{Entry, entry_of, same_handle, has_handle, is_under, parent_of, path_of, top_of, depth_of, page_count, page_size, with_document, AreFrames, AreGiven};
ghost use Rattle.pe_frames.specs.Order.{after, in_tree_order, handles_under, docs_under, AreOnce};
ghost use Rattle.pe_frames.specs.Walk.{visited, is_of_page, changed_where, changed_to, changed_under, changed_page};

use crate::frames::Frames;
use crate::node::Numbered;
use pe_arena::Handle;
use pe_base::{DEPTH_LIMIT, FRAME_LIMIT, PAGE_LIMIT};

impl<D: Numbered> Frames<D> {
    /// The frames are a tree; the call does nothing. No two live frames have one handle, each that is
    /// no top frame is embedded by an older live one, none is too deep, and no handle that is live will
    /// be given again. There are no more pages, and no more frames in a page, than there may be. Tree
    /// order from a frame lists the live frames at or below it, each once, their handles and their
    /// documents in the same order, whatever the documents are.
    pub fn is_a_tree(&self)
        ensures frames { AreFrames self.now.entries }
        ensures given { AreGiven self.now }
        ensures pages { page_count self.now.entries ≤ PAGE_LIMIT }
        ensures sizes { (h : Handle) → IfSome (entry_of self.now.entries h) (λ e. page_size self.now.entries (top_of e) ≤ FRAME_LIMIT) }
        ensures under { (root : Handle) → (k : Handle) → IsTrue (has_handle k (handles_under self.now.entries root)) ↔ IsSomeAnd (entry_of self.now.entries k) (λ e. IsTrue (is_under root e)) }
        ensures documents { (root : Handle) → map (λ d. Some d) (docs_under self.now.entries root) ≡ map (λ k. option_map (λ e. e.doc) (entry_of self.now.entries k)) (handles_under self.now.entries root) }
        ensures once { (root : Handle) → AreOnce (handles_under self.now.entries root) }
        ensures written { (passes : Entry D → Bool) → (change : Entry D → D) → (root : Handle) → handles_under (map (changed_where passes change) self.now.entries) root ≡ handles_under self.now.entries root }
        ensures found { (passes : Entry D → Bool) → (change : Entry D → D) → (k : Handle) → entry_of (map (changed_where passes change) self.now.entries) k ≡ option_map (changed_where passes change) (entry_of self.now.entries k) }
    {
        let _ = &self.order;
    }

    /// The way up by `parent` from a live frame goes along its path to the top frame of its page, by
    /// live frames of that page, as many as its depth says, of which it alone is at or below itself; the
    /// call does nothing.
    pub fn is_climbed_by_parents(&self)
        ensures live { (h : Handle) → (p : Handle) → option_and_then parent_of (entry_of self.now.entries h) ≡ Some p → IsSome (entry_of self.now.entries p) }
        ensures path { (h : Handle) → (p : Handle) → option_and_then parent_of (entry_of self.now.entries h) ≡ Some p → path_of self.now.entries h ≡ path_of self.now.entries p ++ h ∷ [] }
        ensures page { (h : Handle) → (p : Handle) → option_and_then parent_of (entry_of self.now.entries h) ≡ Some p → option_map top_of (entry_of self.now.entries p) ≡ option_map top_of (entry_of self.now.entries h) }
        ensures top { (h : Handle) → IfSome (entry_of self.now.entries h) (λ e. parent_of e ≡ None → top_of e ≡ h) }
        ensures related { (h : Handle) → (keep : Entry D → Bool) → IfSome (entry_of self.now.entries h) (λ e. IsTrue (keep e) → length (filter (λ x. is_under x.handle e || (is_under h x && keep x)) self.now.entries) + 1 ≡ depth_of e + length (filter (λ x. is_under h x && keep x) self.now.entries)) }
        ensures depth { (h : Handle) → IfSome (entry_of self.now.entries h) (λ e. depth_of e ≤ DEPTH_LIMIT) }
    {
        let _ = &self.order;
    }

    /// Tree order from a frame counts what is at or below it, and from the top frame of a page what is
    /// of the page, under any test; the call does nothing. The top frame of a live frame is live, and
    /// the frames at or below it are those whose top frame it is.
    pub fn is_counted_in_tree_order(&self)
        ensures counted { (root : Handle) → (keep : Entry D → Bool) → length (filter keep (in_tree_order self.now.entries root)) ≡ length (filter (λ e. is_under root e && keep e) self.now.entries) }
        ensures all { (root : Handle) → length (handles_under self.now.entries root) ≡ length (filter (is_under root) self.now.entries) }
        ensures few { (root : Handle) → length (handles_under self.now.entries root) ≤ FRAME_LIMIT }
        ensures top { (h : Handle) → IfSome (entry_of self.now.entries h) (λ e. IsSomeAnd (entry_of self.now.entries (top_of e)) (λ t. top_of t ≡ top_of e)) }
        ensures page { (h : Handle) → (k : Handle) → IfSome (entry_of self.now.entries h) (λ e. IfSome (entry_of self.now.entries k) (λ x. is_under (top_of e) x ≡ is_of_page (top_of e) x)) }
        ensures paged { (h : Handle) → (keep : Entry D → Bool) → IfSome (entry_of self.now.entries h) (λ e. length (filter keep (in_tree_order self.now.entries (top_of e))) ≡ length (filter (λ x. is_of_page (top_of e) x && keep x) self.now.entries)) }
        ensures size { (h : Handle) → IfSome (entry_of self.now.entries h) (λ e. length (handles_under self.now.entries (top_of e)) ≡ page_size self.now.entries (top_of e)) }
    {
        let _ = &self.order;
    }

    /// A walk by `preorder_next` from a live root visits the root first, then with each step one frame
    /// that it did not visit before, and at its end each that is at or below the root; the call does
    /// nothing.
    pub fn is_visited_in_tree_order(&self)
        ensures first { (root : Handle) → IsSome (entry_of self.now.entries root) → visited root (handles_under self.now.entries root) ≡ root ∷ [] }
        ensures root { (root : Handle) → IsSome (entry_of self.now.entries root) → IsTrue (has_handle root (handles_under self.now.entries root)) }
        ensures next { (root : Handle) → (h : Handle) → (next : Handle) → after h (handles_under self.now.entries root) ≡ Some next → visited next (handles_under self.now.entries root) ≡ visited h (handles_under self.now.entries root) ++ next ∷ [] }
        ensures listed { (root : Handle) → (h : Handle) → (next : Handle) → after h (handles_under self.now.entries root) ≡ Some next → IsTrue (has_handle next (handles_under self.now.entries root)) }
        ensures new { (root : Handle) → (h : Handle) → (next : Handle) → after h (handles_under self.now.entries root) ≡ Some next → has_handle next (visited h (handles_under self.now.entries root)) ≡ false }
        ensures last { (root : Handle) → (h : Handle) → IsTrue (has_handle h (handles_under self.now.entries root)) → after h (handles_under self.now.entries root) ≡ None → visited h (handles_under self.now.entries root) ≡ handles_under self.now.entries root }
        ensures within { (root : Handle) → (h : Handle) → length (visited h (handles_under self.now.entries root)) ≤ length (handles_under self.now.entries root) }
    {
        let _ = &self.order;
    }

    /// A walk by `preorder_next` that writes by `doc_mut`, where it comes, what the change makes of each
    /// frame, leaves at its end the change of the root and each frame below it, or of the page where the
    /// root is its top frame, and of no other; the call does nothing. Where the change leaves a document
    /// as it is, it need not be written. Whatever frames are changed, a write adds one to them.
    pub fn is_changed_in_tree_order(&self)
        ensures first { (change : Entry D → D) → (root : Handle) → IfSome (entry_of self.now.entries root) (λ e. map (with_document root (change e)) self.now.entries ≡ changed_to change self.now.entries root root) }
        ensures unvisited { (change : Entry D → D) → (root : Handle) → (h : Handle) → (next : Handle) → after h (handles_under self.now.entries root) ≡ Some next → entry_of (changed_to change self.now.entries root h) next ≡ entry_of self.now.entries next }
        ensures next { (change : Entry D → D) → (root : Handle) → (h : Handle) → (next : Handle) → after h (handles_under self.now.entries root) ≡ Some next → IfSome (entry_of self.now.entries next) (λ e. map (with_document next (change e)) (changed_to change self.now.entries root h) ≡ changed_to change self.now.entries root next) }
        ensures skipped { (change : Entry D → D) → (root : Handle) → (h : Handle) → (next : Handle) → after h (handles_under self.now.entries root) ≡ Some next → IfSome (entry_of self.now.entries next) (λ e. change e ≡ e.doc → changed_to change self.now.entries root h ≡ changed_to change self.now.entries root next) }
        ensures last { (change : Entry D → D) → (root : Handle) → (h : Handle) → IsTrue (has_handle h (handles_under self.now.entries root)) → after h (handles_under self.now.entries root) ≡ None → changed_to change self.now.entries root h ≡ changed_under change self.now.entries root }
        ensures page { (change : Entry D → D) → (h : Handle) → IfSome (entry_of self.now.entries h) (λ e. changed_under change self.now.entries (top_of e) ≡ changed_page change self.now.entries (top_of e)) }
        ensures one { (passes : Entry D → Bool) → (change : Entry D → D) → (k : Handle) → IfSome (entry_of self.now.entries k) (λ e. map (with_document k (change e)) (map (changed_where passes change) self.now.entries) ≡ map (changed_where (λ x. same_handle k x.handle || passes x) change) self.now.entries) }
    {
        let _ = &self.order;
    }
}
