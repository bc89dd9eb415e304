//! That pages are isolated: no use, input or message of another page changes what a page is told.
#![tactic(auto)]

mod laws;

pub use laws::isolation_laws;
