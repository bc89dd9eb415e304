//! How many things each page has.
#![tactic(auto, unfolding(crate::specs::Counts::count_of))]

mod counts;

pub use counts::PageCounts;

#[cfg(test)]
mod tests;
