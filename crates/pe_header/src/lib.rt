//! Declared policies: what a `Permissions-Policy` header declares for its own document.
#![tactic(auto)]

mod header;
mod reading;

pub use header::read_header;

#[cfg(test)]
mod tests;
