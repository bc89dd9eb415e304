//! What the test of same origin decides.
ghost use Rattle.std.specs.Prelude.{◌≡◌};
ghost use Rattle.std.specs.Bool.{Decides};
ghost use Rattle.pe_origin.specs.declared.origin.Origin.{Origin};
ghost use Rattle.pe_origin.specs.Origins.{is_same_origin};

/// Two origins are same origin exactly where they are one.
pub fn same_origins_are_one()
    ensures { (a b : Origin) → Decides (is_same_origin a b) (a ≡ b) }
{}
