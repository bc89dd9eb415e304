//! Why a policy-controlled feature is denied.
use crate::numbers::DocNo;

/// A test of Permissions Policy between an embedder and the document below it, or of a document's own
/// header (Permissions Policy, "define an inherited policy for feature in container at origin").
#[derive(Clone, Copy, Debug, PartialEq, Eq, PartialOrd, Ord, Hash)]
pub enum LinkRule {
    /// The embedder's declared policy has the feature and does not match the embedder's own origin.
    EmbedderSelf,
    /// The embedder's declared policy has the feature and does not match the child's origin.
    EmbedderHeader,
    /// The container policy has the feature and does not match the child's origin.
    Allow,
    /// The container policy lacks the feature, whose default allowlist does not reach the child.
    Default,
    /// The document's own declared policy has the feature and does not match its origin.
    OwnHeader,
}

/// A test that failed, and the document that it names: the embedder for `EmbedderSelf` and
/// `EmbedderHeader`, the child for `Allow` and `Default`, the document itself for `OwnHeader`.
#[derive(Clone, Copy, Debug, PartialEq, Eq, PartialOrd, Ord, Hash)]
pub struct Denial {
    /// The test.
    pub rule: LinkRule,
    /// The document that it names.
    pub at: DocNo,
}
