//! What every layer speaks of: numbers of objects, times, states, denials, inputs and stamps of
//! activation, limits, bytes and counted steps.
#![tactic(auto)]

mod bytes;
mod decimal;
mod denial;
mod input;
mod limits;
mod numbers;
mod state;
mod steps;
mod time;

pub use bytes::Bytes;
pub use decimal::put_number;
pub use denial::{Denial, LinkRule};
pub use input::{InputKind, Stamp};
pub use limits::{
    DEPTH_LIMIT, DURATION_LIMIT, EMBARGO_DISMISSALS, EMBARGO_SPAN, EVENT_LIMIT, FRAME_LIMIT,
    INPUT_LIMIT, LINE_LIMIT, MESSAGE_LIMIT, NAME_LIMIT, PAGE_LIMIT, PENDING_LIMIT, STATUS_LIMIT,
    STORE_LIMIT, TIME_LIMIT,
};
pub use numbers::{DocNo, FrameNo, MessageNo, PromptNo, StatusNo};
pub use state::State;
pub use steps::Steps;
pub use time::Millis;

#[cfg(test)]
mod tests;
