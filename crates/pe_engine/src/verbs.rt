//! The verbs: a file for each, or for a few that are akin.
mod attr;
mod close;
mod history;
mod input;
mod message;
mod navigate;
mod open;
pub(crate) mod policy;
mod prompt;
mod query;
mod set;
mod state;
mod use_call;
