//! What requests and answers are told.
use pe_base::PromptNo;

/// What a request is told.
#[derive(Clone, Copy, Debug, PartialEq, Eq)]
pub enum Asked {
    /// It made this prompt.
    New(PromptNo),
    /// It joined this pending prompt.
    Joined(PromptNo),
}

/// Why a request is refused.
#[derive(Clone, Copy, Debug, PartialEq, Eq)]
pub enum PromptFault {
    /// As many prompts are pending in the page as there may be, and none of them is of the pair.
    TooMany,
    /// Memory wants.
    Memory,
}

/// Why a prompt is not shown, or not answered. Where several hold, the first of them is told.
#[derive(Clone, Copy, Debug, PartialEq, Eq)]
pub enum AnswerFault {
    /// No request made a prompt of this number.
    Unknown,
    /// It was answered.
    Settled,
    /// No request waits for it.
    Closed,
    /// An older prompt of its page is pending.
    NotShown,
    /// Memory wants.
    Memory,
}
