//! A long script made of a seed and a count, and the words of the command line that ask for it.
#![tactic(auto)]

mod generating;
mod lines;
mod summary;
mod words;

pub use generating::generate_script;
pub use summary::{Counts, count_answers, summary_text};
pub use words::{read_count, read_seed, script_asked};

#[cfg(test)]
mod tests;
