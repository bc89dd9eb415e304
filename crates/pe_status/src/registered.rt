//! A permission status, and why one is not registered or not found.
use pe_arena::DocRef;
use pe_base::{FrameNo, StatusNo};
use pe_features::Feature;
use pe_store::Key;

/// A permission status that is live (W3C Permissions, the interface PermissionStatus).
#[derive(Debug, Drop)]
pub struct Registered {
    /// Its number.
    pub no: StatusNo,
    /// The page of its document: the top frame.
    pub page: FrameNo,
    /// Its document.
    pub doc: DocRef,
    /// Its feature.
    pub feature: Feature,
    /// The permission key under which the feature's permission is kept for the document.
    pub key: Key,
}

/// Why a status is not registered. The statuses are then as before.
#[derive(Clone, Copy, Debug, PartialEq, Eq)]
pub enum StatusFault {
    /// The page has as many live statuses as it may.
    TooMany,
    /// Memory wants.
    Memory,
}

/// Why a status is not found. The statuses are then as before.
#[derive(Clone, Copy, Debug, PartialEq, Eq)]
pub enum ReleaseFault {
    /// No status of this number was registered.
    Unknown,
    /// It was released, or its document is gone.
    Closed,
}
