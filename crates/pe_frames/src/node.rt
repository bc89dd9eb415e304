//! Frames of the tree.
ghost use Rattle.std.specs.Prelude.{◌≡◌, ℕ, Some, None};

use pe_arena::Handle;
use pe_base::{DocNo, FrameNo};

/// What a frame shows: a document, which has a number.
pub trait Numbered: Drop {
    ghost doc_no: { Self → ℕ };

    /// The number of the document.
    fn number(&self) -> DocNo
        ensures { result ≡ doc_no self.now };
}

/// A frame (HTML Standard, "navigable"), with the document that it shows.
#[derive(Drop)]
pub struct Node<D> {
    /// The number of the frame.
    pub frame: FrameNo,
    /// The frame that embeds it; None for the top frame of a page.
    pub parent: Option<Handle>,
    /// The top frame of its page.
    pub top: Handle,
    /// How many frames stand on the way from the top frame to it, both counted.
    pub depth: u32,
    /// The document that it shows.
    pub doc: D,
}

// The place of a new frame: the top frame of its page, its depth, and the last child before it.
#[derive(Clone, Copy)]
pub(crate) struct NewPosition {
    pub(crate) top: Handle,
    pub(crate) depth: u32,
    pub(crate) last: Option<Handle>,
}

impl<D> Node<D> {
    // A frame that the parent embeds.
    pub(crate) fn below(parent: Handle, place: NewPosition, frame: FrameNo, doc: D) -> Node<D>
        ensures { result ≡ record { frame = frame; parent = Some parent; top = place.top; depth = place.depth; doc = doc } }
    {
        Node {
            frame,
            parent: Some(parent),
            top: place.top,
            depth: place.depth,
            doc,
        }
    }

    // A top frame, before its handle is known: `top` is no handle of its own yet.
    pub(crate) fn top(frame: FrameNo, doc: D) -> Node<D>
        ensures { result ≡ record { frame = frame; parent = None; top = record { slot = 0; generation = 0 }; depth = 1; doc = doc } }
    {
        Node {
            frame,
            parent: None,
            top: Handle {
                slot: 0,
                generation: 0,
            },
            depth: 1,
            doc,
        }
    }
}
