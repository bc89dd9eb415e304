//! Capabilities.
ghost use Rattle.std.specs.Prelude.{◌≡◌, ◌≢◌, ◌↔◌};
ghost use Rattle.pe_features.specs.Capabilities.{capability_name, capability_named, feature_of};
ghost use Rattle.pe_features.specs.declared.capability.Capability.{Capability};

use crate::feature::Feature;
use crate::named::{Named, row_named};

/// A capability that a message may delegate to a document (Capability Delegation, "delegatable
/// capability"), in the order of the table.
#[derive(Clone, Copy, Debug, PartialEq, Eq, PartialOrd, Ord, Hash)]
pub enum Capability {
    /// `payment`.
    Payment,
    /// `fullscreen`.
    Fullscreen,
    /// `display-capture`.
    DisplayCapture,
}

impl Capability {
    // Every capability, in the order of the table.
    const ALL: [Capability; 3] = [
        Capability::Payment,
        Capability::Fullscreen,
        Capability::DisplayCapture,
    ];

    /// The capability of this name, compared byte for byte.
    pub fn by_name(text: &[u8]) -> Option<Capability>
        ensures table { result ≡ capability_named text.now }
        ensures found { (c : Capability) → (result ≡ Some c) ↔ (text.now ≡ capability_name c) }
        ensures unknown { (result ≡ None) ↔ ((c : Capability) → text.now ≢ capability_name c) }
    {
        row_named(&Capability::ALL, text)
    }

    /// The capability's name, as scripts write it: lower-case letters and dashes.
    pub fn name(self) -> &'static str
        ensures name { result.now ≡ capability_name self }
        ensures distinct { (c : Capability) → result.now ≡ capability_name c → c ≡ self }
    {
        match self {
            Capability::Payment => "payment",
            Capability::Fullscreen => "fullscreen",
            Capability::DisplayCapture => "display-capture",
        }
    }

    /// The policy-controlled feature that the capability is for.
    pub fn feature_of(self) -> Feature
        ensures { result ≡ feature_of self }
    {
        match self {
            Capability::Payment => Feature::Payment,
            Capability::Fullscreen => Feature::Fullscreen,
            Capability::DisplayCapture => Feature::DisplayCapture,
        }
    }
}

impl Named for Capability {
    ghost name_of = { capability_name };

    fn name(self) -> &'static str {
        self.name()
    }
}
