//! Worked rows that are too long to be computed in one theorem: each is the contract of a function without
//! code of its own.
#![tactic(auto)]

mod embargo;
mod most_frames;
mod most_messages;
mod most_statuses;

pub use embargo::embargo_ends;
pub use most_frames::row_most_frames;
pub use most_messages::row_most_messages;
pub use most_statuses::row_most_statuses;
