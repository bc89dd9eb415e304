//! What the test of two pairs decides.
ghost use Rattle.std.specs.Prelude.{◌≡◌};
ghost use Rattle.std.specs.Bool.{Decides};
ghost use Rattle.pe_store.specs.Pairs.{Pair, is_same_pair};

use pe_features::same_features_are_one;
use pe_origin::same_origins_are_one;

/// Two pairs of a feature and a key pass their test exactly where they are one.
pub fn same_pairs_are_one()
    ensures { (p q : Pair) → Decides (is_same_pair p q) (p ≡ q) }
{
    same_features_are_one();
    same_origins_are_one();
}
