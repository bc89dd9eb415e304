//! Allowlists, and the maps from features to allowlists that an `allow` attribute and a header make.
#![tactic(auto)]

mod allowlist;
mod container;
mod declared;
mod expression;
mod lists;
mod matching;
mod pairs;
mod reading;
mod words;

pub use allowlist::{Allowlist, Expression, Expressions};
pub use container::{Container, DeclaredOrigin};
pub use declared::Declared;
pub use expression::read_expression;
pub use lists::{DeclaredList, DeclaredLists};
pub use reading::read_allow;
pub use words::is_whitespace;

#[cfg(test)]
mod tests;
