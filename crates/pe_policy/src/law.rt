//! The two ways to the decision on a feature agree.
ghost use Rattle.std.specs.Prelude.{◌≡◌, ◌↔◌, IsTrue, List, ◌∷◌, true, None};
ghost use Rattle.pe_features.specs.declared.feature.Feature.{Feature};
ghost use Rattle.pe_allowlist.specs.Lists.{is_policy_controlled};
ghost use Rattle.pe_policy.specs.Links.{ChainDocument, end_of_chain};
ghost use Rattle.pe_policy.specs.Denials.{denial};
ghost use Rattle.pe_policy.specs.InheritedPolicy.{value_for};

/// For a policy-controlled feature no test fails along a list of documents, each the embedder of the
/// next, exactly where the feature's value in the last document for its own origin is Enabled.
pub fn denials_are_by_value()
    ensures { (feature : Feature) (top : ChainDocument) (rest : List ChainDocument)
        → IsTrue (is_policy_controlled feature)
        → (denial feature (top ∷ rest) ≡ None)
        ↔ (value_for feature (top ∷ rest) (end_of_chain top rest).origin ≡ true) }
{}
