//! Why something is denied, and how a use is allowed.
use pe_base::Denial;

/// Why a use, a post, a history action or a question on the policy is denied.
#[derive(Clone, Copy, Debug, PartialEq, Eq)]
pub enum Reason {
    /// The document is in no secure context (W3C Secure Contexts).
    Insecure,
    /// A test of Permissions Policy failed.
    Policy(Denial),
    /// The permission's state is denied (W3C Permissions).
    PermissionDenied,
    /// The permission's state is prompt.
    PermissionPrompt,
    /// The document has no sticky activation (HTML Standard, "sticky activation").
    NoSticky,
    /// It has no transient activation, and no delegated capability takes its place.
    NoTransient,
    /// A delegating message names no origin.
    TargetAny,
    /// It has no history-action activation (HTML Standard, "history-action activation").
    NoHistory,
}

/// What an allowed use was met by.
#[derive(Clone, Copy, Debug, PartialEq, Eq)]
pub enum Via {
    /// It needs no transient activation.
    Free,
    /// Transient activation.
    Transient,
    /// A delegated capability.
    Delegated,
}

/// The judgement of a use.
#[derive(Clone, Copy, Debug, PartialEq, Eq)]
pub enum Verdict {
    /// It is allowed.
    Allowed(Via),
    /// It is denied.
    Denied(Reason),
}
