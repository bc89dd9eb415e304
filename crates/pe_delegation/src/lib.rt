//! Delegating messages: those that wait for a delivery, and what a delivery brings.
#![tactic(auto)]

mod addressed;
mod delivery;
mod given;
mod message;
mod messages;
mod slot;

pub use addressed::Addressed;
pub use delivery::{Delivery, active};
pub use message::{DeliverFault, Message, PostFault};
pub use messages::Messages;

#[cfg(test)]
mod tests;
