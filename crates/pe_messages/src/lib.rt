//! What delegating messages stand for in the list of accepted events, as laws (HTML Standard, "window post
//! message steps"; Capability Delegation).
#![tactic(auto)]

mod steps;

pub use steps::message_steps;
