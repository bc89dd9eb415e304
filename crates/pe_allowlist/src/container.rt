//! Container policies: what an `allow` attribute gives the document below.
ghost use Rattle.std.specs.Prelude.{◌≡◌};
ghost use Rattle.std.specs.Option.{option_copied};
ghost use Rattle.pe_features.specs.declared.feature.Feature.{Feature};
ghost use Rattle.pe_allowlist.specs.Lists.{lists_of, no_lists, NoFeatureTwice};

use crate::allowlist::Allowlist;
use crate::pairs::find_list;
use pe_features::Feature;
use pe_origin::Origin;
use std::alloc::Global;
use std::marker::Model;

/// The declared origin of a browsing context container (Permissions Policy, "declared origin").
#[derive(Debug, Drop, PartialEq, Eq)]
pub enum DeclaredOrigin {
    /// An origin that is known. An opaque one counts as `Opaque` does.
    Known(Origin),
    /// An opaque origin of a document that is not made yet.
    Opaque,
}

/// A container policy, a map from features to allowlists (Permissions Policy, "container policy").
#[derive(Debug, Drop)]
pub struct Container {
    rows: Vec<(Feature, Allowlist)>,
}

impl Model for Container {
    ghost use Rattle.std.specs.Prelude.{List};
    ghost use Rattle.pe_features.specs.declared.feature.Feature.{Feature};
    ghost use Rattle.pe_allowlist.specs.declared.allowlist.Allowlist.{Allowlist};
    ghost use Rattle.pe_allowlist.specs.Lists.{NoFeatureTwice};

    ghost Value = { List (Feature × Allowlist) };

    ghost view = { λ c. c.rows.items };

    ghost invariant = { λ c. NoFeatureTwice c.rows.items };
}

impl Container {
    /// The empty map, as of an element without an `allow` attribute. It takes no memory.
    #[tactic(auto, unfolding(crate::specs::Lists::lists_of))]
    pub fn empty(alloc: Global) -> Container
        ensures { (f : Feature) → lists_of result f ≡ no_lists f }
    {
        Container {
            rows: Vec::new(alloc),
        }
    }

    /// The map of these pairs.
    pub(crate) fn of(rows: Vec<(Feature, Allowlist)>) -> Container
        requires { NoFeatureTwice rows.items }
        ensures { result ≡ rows.items }
    {
        Container { rows }
    }

    /// The allowlist of the feature; None where the map lacks it.
    pub fn get(&self, feature: Feature) -> Option<&Allowlist>
        ensures { option_copied result ≡ lists_of self.now feature }
    {
        find_list(&self.rows, feature)
    }
}
