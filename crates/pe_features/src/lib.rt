//! The tables of policy-controlled and powerful features, of the calls that they gate, and of the
//! capabilities that a message may delegate.
#![tactic(auto)]

mod call;
mod capability;
mod feature;
mod law;
mod named;

pub use call::{Call, Gate, Need};
pub use capability::Capability;
pub use feature::{DefaultList, Feature, KeyKind};
pub use law::same_features_are_one;
