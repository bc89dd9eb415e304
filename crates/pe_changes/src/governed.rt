//! Documents that may be denied a feature.
ghost use Rattle.std.specs.Prelude.{◌≡◌, Bool};
ghost use Rattle.pe_features.specs.declared.feature.Feature.{Feature};

use pe_features::Feature;
use pe_frames::Numbered;

/// A document that may be denied a feature whatever is stored for it: it is in no secure context, or its
/// policy denies the feature.
pub trait Governed: Numbered {
    ghost blocks_feature: { Self → Feature → Bool };

    /// Whether the document is denied the feature, whatever is stored.
    fn is_blocked(&self, feature: Feature) -> bool
        ensures { result ≡ blocks_feature self.now feature };
}
