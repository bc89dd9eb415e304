//! The row of a document, and the attributes of its frame.
ghost use Rattle.std.specs.Prelude.{◌≡◌};
ghost use Rattle.pe_engine.specs.Rows.{no_kept_attributes, blocks, no_deliveries, delivery_time, with_delivery};

use pe_base::{Bytes, DocNo, Millis, Stamp};
use pe_features::{Capability, Feature};
use pe_origin::{Origin, Place};
use pe_policy::Policy;
use pe_store::Key;

/// The attributes of a frame that are in force (HTML Standard, "the iframe element"): they act on the
/// next document that is made in the frame.
#[derive(Drop)]
pub struct Attributes {
    /// What the URL in `src` names.
    pub src: Option<Place>,
    /// Whether `srcdoc` stands.
    pub srcdoc: bool,
    /// The value of `allow`.
    pub allow: Option<Bytes>,
    /// The value of `sandbox`.
    pub sandbox: Option<Bytes>,
    /// Whether `allowfullscreen` stands.
    pub fullscreen: bool,
}

/// When each capability was last delivered to a document; None where it never was, or where a use has
/// spent it since (Capability Delegation, "delegated capability").
#[derive(Clone, Copy, Debug, PartialEq, Eq)]
pub struct Delivered {
    /// `payment`.
    pub payment: Option<Millis>,
    /// `fullscreen`.
    pub fullscreen: Option<Millis>,
    /// `display-capture`.
    pub display_capture: Option<Millis>,
}

/// What is kept of a document. All but the stamps, the deliveries and the attributes is settled when it
/// is made.
#[derive(Drop)]
pub struct Row {
    /// The last activation.
    pub stamp: Stamp,
    /// Its copy that the last history action took.
    pub second: Stamp,
    /// The number of the document.
    pub doc: DocNo,
    /// Whether the sandbox gives it an opaque origin (HTML Standard, "sandboxed origin browsing context
    /// flag").
    pub sandboxed: bool,
    /// Whether it is in a secure context (Secure Contexts, "secure context").
    pub secure: bool,
    /// The capabilities that it was delivered.
    pub delivered: Delivered,
    /// The origin.
    pub origin: Origin,
    /// Under what the permissions are kept that are for the page's top document alone (Permissions,
    /// "permission key").
    pub single: Key,
    /// Under what those are kept that are for the document and the page's top document.
    pub pair: Key,
    /// The attributes of its frame.
    pub attributes: Attributes,
    /// The policy.
    pub policy: Policy,
}

impl Attributes {
    /// No attributes.
    pub fn none() -> Attributes
        ensures { result ≡ no_kept_attributes }
    {
        Attributes {
            src: None,
            srcdoc: false,
            allow: None,
            sandbox: None,
            fullscreen: false,
        }
    }
}

impl Delivered {
    /// No deliveries.
    pub fn none() -> Delivered
        ensures { result ≡ no_deliveries }
    {
        Delivered {
            payment: None,
            fullscreen: None,
            display_capture: None,
        }
    }

    /// The time of the last delivery of the capability that was not spent since.
    pub fn time(&self, capability: Capability) -> Option<Millis>
        ensures { result ≡ delivery_time self.now capability }
    {
        match capability {
            Capability::Payment => self.payment,
            Capability::Fullscreen => self.fullscreen,
            Capability::DisplayCapture => self.display_capture,
        }
    }

    /// Notes that the capability was delivered at this time, or, with None, that it was spent.
    pub fn note(&mut self, capability: Capability, time: Option<Millis>)
        ensures { self.new ≡ with_delivery capability time self.old }
    {
        match capability {
            Capability::Payment => self.payment = time,
            Capability::Fullscreen => self.fullscreen = time,
            Capability::DisplayCapture => self.display_capture = time,
        }
    }
}

impl Row {
    /// Whether its document is denied the feature whatever is stored: it is in no secure context, or its
    /// policy denies the feature.
    pub(crate) fn is_blocked(&self, feature: Feature) -> bool
        ensures { result ≡ blocks self.now feature }
    {
        !self.secure || self.policy.why(feature).is_some()
    }
}
