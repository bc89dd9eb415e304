//! Dictionaries of structured fields (RFC 8941).
#![tactic(auto)]

mod class;
mod dictionary;
mod fault;
mod laws;
mod lent;
mod number;
mod reading;
mod text;
mod value;

pub use dictionary::{Dictionary, parse_dictionary};
pub use laws::{one_reading, reading_is_the_grammar};
pub use lent::{Lent, Text};
pub use value::{Bare, Item, Items, Member, Param, Params, Value};

#[cfg(test)]
mod tests;
