//! Permission states.

/// The state of a permission (W3C Permissions, "permission state").
#[derive(Clone, Copy, Debug, PartialEq, Eq, PartialOrd, Ord, Hash)]
pub enum State {
    /// The feature may be used.
    Granted,
    /// It may not.
    Denied,
    /// The user is asked.
    Prompt,
}
