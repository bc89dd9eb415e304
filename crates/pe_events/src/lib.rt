//! Events of a script, their answers and the changes that they bring, with the texts of both.
#![tactic(auto)]

mod answer;
mod cause;
mod event;
mod reason;
mod stamped;
mod text;

pub use answer::{Answer, Change};
pub use cause::Cause;
pub use event::{AttrName, Event, EventLife, Outcome};
pub use reason::{Reason, Verdict, Via};
pub use stamped::Stamped;
pub use text::{answer_text, change_text, put_answer, put_change};

#[cfg(test)]
mod tests;
