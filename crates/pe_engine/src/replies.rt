//! What an event is replied.
use pe_events::{Answer, Change};

/// What an event is replied.
#[derive(Debug, Drop)]
pub struct Replies {
    /// The changes that the time up to the event brought, by moment and then by status number.
    pub before: Vec<Change>,
    /// The answer.
    pub answer: Answer,
    /// The changes that the event brought by itself, by status number.
    pub after: Vec<Change>,
}
