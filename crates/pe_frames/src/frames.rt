//! The tree of frames.
ghost use Rattle.std.specs.Prelude.{◌≡◌, ◌≢◌, ◌⊎◌, ◌↔◌, ◌+◌, ◌<◌, ◌≤◌, ◌-◌, ◌^◌, IsSome, IsTrue, IfSome, IsSomeAnd, [], ◌∷◌, IfOk, IfErr, OnOk, OnErr, None, Err, option_copied, vec_len, vec_capacity};
ghost use Rattle.std.specs.Option.{option_map, option_and_then, option_copied_mut};
ghost use Rattle.std.specs.Borrow.{sem};
ghost use Rattle.pe_frames.specs.Forest.{entry_of, node_of, doc_of, parent_of, top_of, page_count, page_size, mark_of, path_of, depth_of, refusal, embed_fault, opened, IsDead, Gives, StayDead};
ghost use Rattle.pe_frames.specs.Order.{head_of, closed, navigated, handles_under, docs_under};
ghost use Rattle.pe_frames.specs.Neighbours.{children_newest_first};
ghost use Rattle.pe_frames.specs.Kept.{position_of, standing_in};

use crate::node::{NewPosition, Node, Numbered};
use crate::removal::{renew, shrink_page, sweep, take_all, take_one, unlink};
use crate::row::{FramePosition, Neighbours, Row, grow_page, link, name_top, put_row};
use pe_arena::{Arena, DocRef, Handle};
use pe_base::{DEPTH_LIMIT, FRAME_LIMIT, FrameNo, PAGE_LIMIT, Steps};
use std::alloc::{AllocError, Global};
use std::marker::Model;
use std::sync::ledger::Ledger;

/// Why a call of the tree is refused. The tree is then as before, and the given document is dropped.
#[derive(Clone, Copy, Debug, PartialEq, Eq)]
pub enum TreeFault {
    /// The handle names no live frame.
    Stale,
    /// The frame that is to embed another has the greatest depth.
    TooDeep,
    /// The page has as many frames as it may.
    TooMany,
    /// There are as many pages as there may be.
    TooManyPages,
    /// Memory wants.
    Memory,
}

/// The frames of all pages. Contracts see them as a list, newest first, in which each frame stands
/// with the handles of the frames above it.
#[derive(Drop)]
pub struct Frames<D: Numbered> {
    pub(crate) rows: Arena<Row<D>>,
    pub(crate) order: Vec<Handle>,
    dead: usize,
    pages: u32,
}

impl<D: Numbered> Model for Frames<D> {
    ghost use Rattle.pe_frames.specs.Forest.{Forest, forest_code};

    ghost Value = { Forest D };

    ghost coded = { forest_code D.code };

    ghost use Rattle.pe_frames.specs.Kept.{forest_in, IsKept};

    ghost view = { λ f. forest_in f.rows f.order.items };

    ghost invariant = { λ f. IsKept f.rows f.order.items f.pages f.dead };
}

impl<D: Numbered> Frames<D> {
    ghost use Rattle.pe_frames.specs.Lends.{lends_doc, lends_live};

    /// No frame.
    pub fn new(alloc: Global) -> Frames<D>
        ensures { result ≡ record { entries = []; marks = []; made = 0 } }
    {
        Frames {
            rows: Arena::new(alloc, u32::MAX, 0),
            order: Vec::new(alloc),
            dead: 0,
            pages: 0,
        }
    }

    /// Makes a page, whose top frame shows the document.
    pub fn open_page(&mut self, frame: FrameNo, doc: D) -> Result<Handle, TreeFault>
        requires { self.old.made < 2 ^ 32 - 1 }
        ensures entries { IfOk result (λ h. self.new.entries ≡ opened h [] frame doc self.old.entries) }
        ensures made { OnOk result (self.new.made ≡ self.old.made + 1) }
        ensures new { IfOk result (λ h. entry_of self.old.entries h ≡ None) }
        ensures fresh { IfOk result (λ h. h.generation ≡ mark_of self.old h.slot) }
        ensures marks { IfOk result (λ h. Gives self.old self.new h) }
        ensures dead { StayDead self.old self.new }
        ensures too_many_pages { (result ≡ Err TreeFault.TooManyPages) ↔ (page_count self.old.entries ≡ PAGE_LIMIT) }
        ensures only { IfErr result (λ e. (e ≡ TreeFault.TooManyPages) ⊎ (e ≡ TreeFault.Memory)) }
        ensures err { OnErr result (self.new ≡ self.old) }
    {
        if self.pages == PAGE_LIMIT {
            return Err(TreeFault::TooManyPages);
        }
        if self.order.reserve(1).is_err() {
            return Err(TreeFault::Memory);
        }
        let h = match put_row(
            &mut self.rows,
            Row {
                node: Node::top(frame, doc),
                size: 1,
                links: Neighbours::behind(None),
            },
        ) {
            Ok(h) => h,
            Err(_) => return Err(TreeFault::Memory),
        };
        name_top(&mut self.rows, h);
        self.order.push_reserved(h);
        self.pages += 1;
        Ok(h)
    }

    /// Makes a frame below the parent, which embeds it as its last child. The refusals in order:
    /// `Stale`, `TooDeep`, `TooMany`.
    pub fn embed(&mut self, parent: Handle, frame: FrameNo, doc: D) -> Result<Handle, TreeFault>
        requires { self.old.made < 2 ^ 32 - 1 }
        ensures entries { IfOk result (λ h. self.new.entries ≡ opened h (path_of self.old.entries parent) frame doc self.old.entries) }
        ensures made { OnOk result (self.new.made ≡ self.old.made + 1) }
        ensures new { IfOk result (λ h. entry_of self.old.entries h ≡ None) }
        ensures fresh { IfOk result (λ h. h.generation ≡ mark_of self.old h.slot) }
        ensures marks { IfOk result (λ h. Gives self.old self.new h) }
        ensures dead { StayDead self.old self.new }
        ensures fault { refusal result ≡ embed_fault self.old.entries parent }
        ensures err { OnErr result (self.new ≡ self.old) }
    {
        let place = self.place_below(parent)?;
        if self.order.reserve(1).is_err() {
            return Err(TreeFault::Memory);
        }
        let node = Node::below(parent, place, frame, doc);
        let links = Neighbours::behind(place.last);
        let h = match put_row(
            &mut self.rows,
            Row {
                node,
                size: 0,
                links,
            },
        ) {
            Ok(h) => h,
            Err(_) => return Err(TreeFault::Memory),
        };
        grow_page(&mut self.rows, place.top);
        link(&mut self.rows, parent, place.last, h);
        self.order.push_reserved(h);
        Ok(h)
    }

    // The place of a frame that is to be embedded in the parent.
    fn place_below(&self, parent: Handle) -> Result<NewPosition, TreeFault>
        ensures fault { refusal result ≡ embed_fault self.now.entries parent }
        ensures memory { result ≢ Err TreeFault.Memory }
        ensures depth { IfOk result (λ p. p.depth ≤ 64) }
        ensures room { IfOk result (λ p. page_size self.now.entries p.top ≢ FRAME_LIMIT) }
        ensures place { IfOk result (λ p. IsSomeAnd (entry_of self.now.entries parent) (λ e. p ≡ record { top = top_of e; depth = depth_of e + 1; last = head_of (children_newest_first self.now.entries parent) })) }
    {
        let here = match self.standing(parent) {
            Some(here) => here,
            None => return Err(TreeFault::Stale),
        };
        if here.depth == DEPTH_LIMIT {
            return Err(TreeFault::TooDeep);
        }
        if self.page_size(parent) == Some(FRAME_LIMIT) {
            return Err(TreeFault::TooMany);
        }
        Ok(NewPosition {
            top: here.top,
            depth: here.depth + 1,
            last: here.links.last,
        })
    }

    // Where the frame of the handle stands.
    pub(crate) fn standing(&self, h: Handle) -> Option<FramePosition>
        ensures value { result ≡ option_map (standing_in self.now.entries h) (entry_of self.now.entries h) }
        ensures depth { IfSome result (λ p. p.depth ≤ 64) }
    {
        let row = self.rows.get(h)?;
        Some(FramePosition {
            parent: row.node.parent,
            top: row.node.top,
            depth: row.node.depth,
            links: row.links,
        })
    }

    // The row of the frame.
    pub(crate) fn row(&self, h: Handle) -> &Row<D>
        requires { IsSome (entry_of self.now.entries h) }
        ensures { option_map (standing_in self.now.entries h) (entry_of self.now.entries h) ≡ Some (position_of result.now) }
    {
        self.rows.get(h).unwrap()
    }

    /// Gives the frame another document and removes all frames below it, whose handles are dead then.
    /// The documents that were there are given back in tree order, that of the frame first.
    pub fn navigate(&mut self, h: Handle, doc: D) -> Result<Vec<D>, TreeFault>
        ensures entries { OnOk result (self.new.entries ≡ navigated h doc self.old.entries) }
        ensures documents { IfOk result (λ docs. docs.items ≡ docs_under self.old.entries h) }
        ensures made { self.new.made ≡ self.old.made }
        ensures marks { self.new.marks ≡ self.old.marks }
        ensures dead { StayDead self.old self.new }
        ensures gone { OnOk result ((k : Handle) → IsSome (entry_of self.old.entries k) → entry_of self.new.entries k ≡ None → IsDead self.new k) }
        ensures stale { (result ≡ Err TreeFault.Stale) ↔ (entry_of self.old.entries h ≡ None) }
        ensures only { IfErr result (λ e. (e ≡ TreeFault.Stale) ⊎ (e ≡ TreeFault.Memory)) }
        ensures err { OnErr result (self.new ≡ self.old) }
    {
        let here = match self.standing(h) {
            Some(here) => here,
            None => return Err(TreeFault::Stale),
        };
        let (removed, mut docs) = match self.leaving(h) {
            Ok(leaving) => leaving,
            Err(_) => return Err(TreeFault::Memory),
        };
        docs.push_reserved(renew(&mut self.rows, h, doc));
        take_all(&mut self.rows, &removed, &mut docs);
        shrink_page(&mut self.rows, Some(here.top), removed.len() as u32);
        sweep(&self.rows, &mut self.order, &mut self.dead, removed.len());
        Ok(docs)
    }

    /// Removes the frame and all below it, whose handles are dead then. Their documents are given back
    /// in tree order, that of the frame first.
    pub fn close(&mut self, h: Handle) -> Result<Vec<D>, TreeFault>
        ensures entries { OnOk result (self.new.entries ≡ closed h self.old.entries) }
        ensures documents { IfOk result (λ docs. docs.items ≡ docs_under self.old.entries h) }
        ensures made { self.new.made ≡ self.old.made }
        ensures marks { self.new.marks ≡ self.old.marks }
        ensures dead { StayDead self.old self.new }
        ensures gone { OnOk result ((k : Handle) → IsSome (entry_of self.old.entries k) → entry_of self.new.entries k ≡ None → IsDead self.new k) }
        ensures stale { (result ≡ Err TreeFault.Stale) ↔ (entry_of self.old.entries h ≡ None) }
        ensures only { IfErr result (λ e. (e ≡ TreeFault.Stale) ⊎ (e ≡ TreeFault.Memory)) }
        ensures err { OnErr result (self.new ≡ self.old) }
    {
        let here = match self.standing(h) {
            Some(here) => here,
            None => return Err(TreeFault::Stale),
        };
        let (below, mut docs) = match self.leaving(h) {
            Ok(leaving) => leaving,
            Err(_) => return Err(TreeFault::Memory),
        };
        take_one(&mut self.rows, h, &mut docs);
        take_all(&mut self.rows, &below, &mut docs);
        unlink(&mut self.rows, here.links, here.parent);
        shrink_page(&mut self.rows, here.page(), below.len() as u32 + 1);
        self.pages -= here.pages();
        sweep(&self.rows, &mut self.order, &mut self.dead, below.len() + 1);
        Ok(docs)
    }

    // The handles of the frames below the named one, in tree order, and room for the documents of all.
    fn leaving(&self, h: Handle) -> Result<(Vec<Handle>, Vec<D>), AllocError>
        requires { IsSome (entry_of self.now.entries h) }
        ensures handles { IfOk result (λ p. h ∷ p.0.items ≡ handles_under self.now.entries h) }
        ensures documents { IfOk result (λ p. p.1.items ≡ []) }
        ensures room { IfOk result (λ p. vec_len p.0 + 1 ≤ vec_capacity p.1) }
    {
        let below = self.handles_below(h)?;
        let mut docs = Vec::new(*self.order.allocator());
        docs.reserve(below.len() + 1)?;
        Ok((below, docs))
    }

    /// How many frames were ever made.
    pub fn made(&self) -> u64
        ensures { result ≡ self.now.made }
    {
        self.rows.made()
    }

    /// How many pages there are: the live top frames.
    pub fn pages(&self) -> u32
        ensures value { result ≡ page_count self.now.entries }
        ensures within { result ≤ PAGE_LIMIT }
    {
        self.pages
    }

    // The frame of the handle.
    fn find(&self, h: Handle) -> Option<&Node<D>>
        ensures value { option_copied result ≡ node_of self.now.entries h }
        ensures depth { IfSome result (λ n. n.now.depth ≤ 64) }
    {
        let row = self.rows.get(h)?;
        Some(&row.node)
    }

    /// The frame of the handle; None where it is not live.
    pub fn node<'f, L: Ledger>(&'f self, h: Handle, steps: &mut Steps<L>) -> Option<&'f Node<D>>
        ensures value { option_copied result ≡ node_of self.now.entries h }
        ensures cost { steps.new ≡ steps.old + 1 }
    {
        steps.tick();
        self.find(h)
    }

    /// The document of this number that the frame shows; None where the frame is not live or shows
    /// another document.
    pub fn doc<'f, L: Ledger>(&'f self, r: DocRef, steps: &mut Steps<L>) -> Option<&'f D>
        ensures value { option_copied result ≡ doc_of D.doc_no self.now.entries r }
        ensures cost { steps.new ≡ steps.old + 1 }
    {
        let node = self.node(r.at, steps)?;
        if node.doc.number() != r.doc {
            return None;
        }
        Some(&node.doc)
    }

    /// The document that the frame shows, to write; None where the frame is not live.
    pub fn doc_mut<'f, L: Ledger>(
        &'f mut self,
        h: Handle,
        steps: &mut Steps<L>,
    ) -> Option<&'f mut D>
        ensures* lends { sem 𝓛 (lends_doc D.row D.Numbered self.entry h result) }
        ensures value { option_copied_mut result ≡ option_map (λ e. e.doc) (entry_of self.old.entries h) }
        ensures cost { steps.new ≡ steps.old + 1 }
    {
        steps.tick();
        if self.is_live(h) {
            Some(self.live_doc(h))
        } else {
            None
        }
    }

    fn is_live(&self, h: Handle) -> bool
        ensures { IsTrue result ↔ IsSome (entry_of self.now.entries h) }
    {
        self.find(h).is_some()
    }

    fn live_doc(&mut self, h: Handle) -> &mut D
        requires { IsSome (entry_of self.old.entries h) }
        ensures* lends { sem 𝓛 (lends_live D.row D.Numbered self.entry h result) }
        ensures value { option_map (λ e. e.doc) (entry_of self.old.entries h) ≡ Some result.now }
    {
        let row = self.rows.get_mut(h).unwrap();
        &mut row.node.doc
    }

    /// The frame that embeds the named one; None where that is not live or is a top frame.
    pub fn parent(&self, h: Handle) -> Option<Handle>
        ensures { result ≡ option_and_then parent_of (entry_of self.now.entries h) }
    {
        self.find(h)?.parent
    }

    /// The top frame of the named frame's page; None where that is not live.
    pub fn top(&self, h: Handle) -> Option<Handle>
        ensures { result ≡ option_map top_of (entry_of self.now.entries h) }
    {
        Some(self.find(h)?.top)
    }

    /// How many frames the page of the named frame has; None where that is not live.
    pub fn page_size(&self, h: Handle) -> Option<u32>
        ensures value { result ≡ option_map (λ e. page_size self.now.entries (top_of e)) (entry_of self.now.entries h) }
        ensures within { IfSome result (λ n. n ≤ FRAME_LIMIT) }
    {
        let top = self.top(h)?;
        Some(self.rows.get(top)?.size)
    }
}
