//! Laws that hold of the definitions over the history: for each part one record of statements, which is
//! the contract of a function without a body.
#![tactic(auto)]

mod activation;
mod all;
mod documents;
mod objects;
mod permissions;
mod positions;

pub use activation::{activation_laws, history_activation_laws};
pub use all::history_laws;
pub use documents::{
    attributes_laws, current_laws, denials_laws, embedders_laws, making_laws, origins_laws,
    tree_laws,
};
pub use objects::{delegation_laws, statuses_laws};
pub use permissions::{
    changes_laws, entries_laws, permission_state_laws, prompts_laws, settings_laws,
};
pub use positions::{causes_laws, effects_laws, numbering_laws, step_laws};
