//! What the test of two features decides.
ghost use Rattle.std.specs.Prelude.{◌≡◌};
ghost use Rattle.std.specs.Bool.{Decides};
ghost use Rattle.pe_features.specs.declared.feature.Feature.{Feature};
ghost use Rattle.pe_features.specs.Features.{same_feature};

/// Two features have one number exactly where they are one.
pub fn same_features_are_one()
    ensures { (f g : Feature) → Decides (same_feature f g) (f ≡ g) }
{}
