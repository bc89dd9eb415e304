//! The lines of a script, and the words of a line.
#![tactic(auto)]

mod cutter;
mod laws;
mod span;
mod text;

pub use cutter::{Cut, Cutter};
pub use laws::{cuts_go_on, ended_lines_stay, words_are_by_grammar};
pub use span::{WordReader, WordSpan, has_bad_byte};
pub use text::{OptionalText, Text};

#[cfg(test)]
mod tests;
