//! User activation over the tree of frames (HTML Standard, "Tracking user activation").
#![tactic(auto)]

mod activatable;
mod consumption;
mod notification;
mod stamp;

pub use activatable::Activatable;
pub use consumption::{Stale, consume, consume_history};
pub use notification::notify;
pub use pe_base::{InputKind, Stamp};
pub use stamp::{history_active, sticky, transient, triggers};

#[cfg(test)]
mod tests;
