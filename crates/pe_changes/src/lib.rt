//! The change events of permission statuses (Permissions, "PermissionStatus update steps"): those that the
//! passing of time brings, and those of an event itself.
#![tactic(auto)]

mod ending;
mod governed;
mod lapsing;
mod setting;
mod steps;
mod walking;

pub use ending::changes_of_end;
pub use governed::Governed;
pub use lapsing::lapse;
pub use setting::changes_of_setting;
pub use steps::{status_steps, store_steps};

#[cfg(test)]
mod tests;
