//! Permission statuses: those that are live, by their numbers, by the pair of feature and permission
//! key that they show, and by their documents.
#![tactic(auto)]

mod giving;
mod index;
mod place;
mod registered;
mod statuses;
mod walk;

pub use registered::{Registered, ReleaseFault, StatusFault};
pub use statuses::Statuses;
pub use walk::Walk;

#[cfg(test)]
mod tests;
