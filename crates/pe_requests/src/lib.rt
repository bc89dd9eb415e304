//! What prompts stand for in a list of accepted events (Permissions, "request permission to use"), and how
//! that goes on after each kind of event.
#![tactic(auto)]

mod steps;

pub use steps::prompt_steps;
