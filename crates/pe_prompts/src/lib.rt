//! Prompts: the requests that wait for each, which are pending, which one is shown, and which are settled.
#![tactic(auto)]

mod fault;
mod given;
mod lists;
mod place;
mod prompts;
mod queue;
mod waiting;

pub use fault::{AnswerFault, Asked, PromptFault};
pub use prompts::Prompts;
pub use queue::Prompt;
pub use waiting::Waiting;

#[cfg(test)]
mod tests;
