//! Declared policies: what a header declares for its own document.
ghost use Rattle.std.specs.Prelude.{◌≡◌, IfOk, option_map};
ghost use Rattle.pe_features.specs.declared.feature.Feature.{Feature};
ghost use Rattle.pe_allowlist.specs.Lists.{lists_of, no_lists};
ghost use Rattle.pe_allowlist.specs.Allowlists as spec;
ghost use Rattle.pe_allowlist.specs.DeclaredLists.{allowlist_of, list_at};

use crate::lists::DeclaredLists;
use pe_features::Feature;
use pe_origin::Origin;
use std::alloc::{AllocError, Global};
use std::marker::Model;

/// The lists of a header, and the origin of its document, which `self` stands for in each of them.
#[derive(Debug, Drop)]
pub(crate) struct OwnLists {
    own: Origin,
    lists: DeclaredLists,
}

/// A declared policy, a map from features to allowlists (Permissions Policy, "declared policy").
#[derive(Debug, Drop)]
pub struct Declared {
    lists: Option<Box<OwnLists>>,
}

impl Model for Declared {
    ghost use Rattle.std.specs.Prelude.{List, option_map};
    ghost use Rattle.std.specs.Box.{box_value};
    ghost use Rattle.pe_features.specs.declared.feature.Feature.{Feature};
    ghost use Rattle.pe_allowlist.specs.declared.allowlist.Allowlist.{Allowlist};
    ghost use Rattle.pe_allowlist.specs.Lists.{NoFeatureTwice};
    ghost use Rattle.pe_allowlist.specs.DeclaredLists.{directive_of, pairs_of};

    ghost Value = { List (Feature × Allowlist) };

    ghost view = { λ d. pairs_of (directive_of (option_map box_value d.lists)) };

    ghost invariant = { λ d. NoFeatureTwice (pairs_of (directive_of (option_map box_value d.lists))) };
}

impl Declared {
    /// The empty map. It takes no memory.
    #[tactic(auto, using(crate::proofs::DeclaredLaws::lists_of_pairs, crate::proofs::DeclaredLaws::pairs_once))]
    pub fn empty() -> Declared
        ensures { (f : Feature) → lists_of result f ≡ no_lists f }
    {
        Declared { lists: None }
    }

    /// The map of these lists for a document of the own origin. `AllocError` where memory wants.
    #[tactic(auto, using(crate::proofs::DeclaredLaws::lists_of_pairs, crate::proofs::DeclaredLaws::pairs_once))]
    pub fn of(alloc: Global, own: &Origin, lists: DeclaredLists) -> Result<Declared, AllocError>
        ensures { IfOk result (λ declared. (f : Feature)
            → lists_of declared f ≡ option_map (allowlist_of own.now) (list_at lists f)) }
    {
        let own = own.copy()?;
        let lists = Box::new(alloc, OwnLists { own, lists })?;
        Ok(Declared { lists: Some(lists) })
    }

    /// Whether the allowlist of the feature matches the origin; None where the map lacks the feature.
    #[tactic(auto, using(crate::proofs::DeclaredLaws::lists_of_pairs))]
    pub fn matches(&self, feature: Feature, origin: &Origin) -> Option<bool>
        ensures { result ≡ option_map (λ list. spec.matches list origin.now) (lists_of self.now feature) }
    {
        match &self.lists {
            Some(all) => all.lists.matches(&all.own, feature, origin),
            None => None,
        }
    }
}
