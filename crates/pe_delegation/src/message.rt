//! A delegating message, and why one is not posted or not found.
use pe_arena::DocRef;
use pe_base::FrameNo;
use pe_features::Capability;
use pe_origin::Origin;
use thiserror::Error;

/// A delegating message that waits for its delivery (HTML Standard, "window post message steps";
/// Capability Delegation).
#[derive(Debug, Drop)]
pub struct Message {
    /// The page in which it was posted: the top frame.
    pub page: FrameNo,
    /// The document to which it was posted.
    pub target: DocRef,
    /// The origin that it names: a document of another one does not receive it.
    pub origin: Origin,
    /// The capability that it delegates.
    pub capability: Capability,
}

/// Why a message is not posted. The messages are then as before.
#[derive(Clone, Copy, Debug, PartialEq, Eq, Error)]
pub enum PostFault {
    /// As many messages of the page wait as may.
    #[error("too many messages of the page wait")]
    TooMany,
    /// Memory wants.
    #[error("out of memory")]
    Memory,
}

/// Why a message is not delivered. The messages are then as before.
#[derive(Clone, Copy, Debug, PartialEq, Eq, Error)]
pub enum DeliverFault {
    /// No message of this number was posted.
    #[error("no such message was posted")]
    Unknown,
    /// It was delivered, or dropped since its document was gone or of another origin.
    #[error("the message was delivered or dropped")]
    Settled,
}
