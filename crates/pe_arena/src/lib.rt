//! Values under handles that no two inserts share.
#![tactic(auto)]

mod arena;
mod handle;

pub use arena::{Arena, Insert};
pub use handle::{DocRef, Handle};

#[cfg(test)]
mod tests;
