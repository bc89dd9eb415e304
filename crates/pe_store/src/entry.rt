//! Entries of the permission store.
use crate::key::{Key, Life};
use pe_base::State;
use pe_features::Feature;
use thiserror::Error;

/// What is stored for a pair of a feature and a key (W3C Permissions, "permission store entry").
#[derive(Debug, Drop, PartialEq, Eq)]
pub struct Entry {
    /// The feature.
    pub feature: Feature,
    /// The key.
    pub key: Key,
    /// The state that is stored.
    pub state: State,
    /// How long it holds.
    pub life: Life,
}

/// Why a setting is refused.
#[derive(Clone, Copy, Debug, PartialEq, Eq, Error)]
pub enum StoreFault {
    /// The store has as many entries as it may, and none of the pair.
    #[error("the permission store is full")]
    Full,
    /// Memory wants.
    #[error("out of memory")]
    Memory,
}
