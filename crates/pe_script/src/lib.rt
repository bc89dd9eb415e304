//! Reading the lines of a script.
#![tactic(auto)]

mod names;
mod numerals;
mod options;
mod reading;
mod verbs;
mod words;

pub use numerals::positive;
pub use reading::{LineFault, read_event};

#[cfg(test)]
mod tests;
