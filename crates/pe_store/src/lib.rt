//! The permission store: the keys under which settings are kept, and how long they hold.
#![tactic(auto)]

mod entry;
mod key;
mod law;
mod numbers;
mod place;
mod rows;
mod store;

pub use entry::{Entry, StoreFault};
pub use key::{Key, Life};
pub use law::same_pairs_are_one;
pub use numbers::PairNumbers;
pub use store::Store;

#[cfg(test)]
mod tests;
