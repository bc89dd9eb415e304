//! Handles.
use pe_base::DocNo;

/// The name of a value in an arena. A handle whose value was removed never names a value again.
#[derive(Clone, Copy, Debug, PartialEq, Eq, PartialOrd, Ord, Hash)]
pub struct Handle {
    /// The number of the slot that holds the value.
    pub slot: u32,
    /// Which of the slot's values it is: each of them has a greater generation than those before it.
    pub generation: u64,
}

/// The name of a document: the frame that shows it, and the document's number. A frame shows other
/// documents later, so the handle alone does not name the document.
#[derive(Clone, Copy, Debug, PartialEq, Eq, PartialOrd, Ord, Hash)]
pub struct DocRef {
    /// The frame.
    pub at: Handle,
    /// The document.
    pub doc: DocNo,
}
