//! A session: reads a script in pieces, answers each line, and writes the text as the lines come.
#![tactic(auto)]

mod generated;
mod judging;
mod run;
mod serving;
mod session;
mod status;

pub use run::run_within;
pub use serving::serve;
pub use status::Status;

#[cfg(test)]
mod tests;
