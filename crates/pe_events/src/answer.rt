//! Answers and changes.
use crate::cause::Cause;
use crate::reason::Reason;
use pe_base::{DocNo, FrameNo, MessageNo, Millis, PromptNo, State, StatusNo};
use pe_origin::Origin;

/// What a line is answered.
#[derive(Debug, Drop, PartialEq, Eq)]
pub enum Answer {
    /// A frame and its first document were made.
    FrameMade {
        frame: FrameNo,
        doc: DocNo,
        origin: Origin,
    },
    /// A frame got a new document.
    DocMade {
        doc: DocNo,
        origin: Origin,
    },
    /// It is done.
    Done,
    /// An input activated so many documents.
    Activated {
        count: u32,
    },
    /// An input of this kind activates nothing.
    Ignored,
    /// Whether the document has sticky and transient activation.
    Activity {
        sticky: bool,
        transient: bool,
    },
    /// It is allowed.
    Allowed,
    /// It is denied.
    Denied {
        reason: Reason,
    },
    /// For each feature, in the order of the table, whether it is policy-controlled and allowed.
    Names {
        allowed: [bool; 16],
    },
    /// A permission status was made, and shows this state.
    StatusMade {
        status: StatusNo,
        state: State,
    },
    /// A request found this state, granted or denied.
    Stated {
        state: State,
    },
    /// A request made a prompt.
    PromptMade {
        prompt: PromptNo,
    },
    /// A request joined a prompt.
    PromptJoined {
        prompt: PromptNo,
    },
    /// A prompt was settled, with so many requests of current documents. The state is what the user chose:
    /// granted, denied, or prompt for a dismissal, also for the third, after which it is denied.
    Settled {
        count: u32,
        state: State,
    },
    /// A message was posted.
    MessageMade {
        message: MessageNo,
    },
    /// A message was delivered.
    Delivered,
    /// Its target document is not current.
    DroppedGone,
    /// Its target document is of another origin than the message names.
    DroppedOther,
    /// The line is refused.
    Refused {
        cause: Cause,
    },
}

/// A permission status has another state from this time on.
#[derive(Clone, Copy, Debug, PartialEq, Eq)]
pub struct Change {
    /// When.
    pub time: Millis,
    /// Which.
    pub status: StatusNo,
    /// The new state.
    pub state: State,
}
