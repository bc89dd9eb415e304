//! Why a feature is denied in a document, for every feature, made once with the document.
#![tactic(auto)]

mod law;
mod link;
mod policy;
mod row;

pub use law::denials_are_by_value;
pub use link::{first_link, own_link};
pub use policy::Policy;
pub use row::Links;

#[cfg(test)]
mod tests;
