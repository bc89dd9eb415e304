//! The engine: what each event is answered after those before it.
#![tactic(auto)]

mod attribute;
mod decision;
mod engine;
mod kept_row;
mod laws;
mod leaving;
mod making;
mod named;
mod passing;
mod refusal;
mod replies;
mod row;
mod step;
mod verbs;
mod verdict;

pub use engine::Engine;
pub use replies::Replies;

#[cfg(test)]
mod tests;
