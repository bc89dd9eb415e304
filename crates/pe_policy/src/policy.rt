//! The policy of a document.
ghost use Rattle.std.specs.Prelude.{◌≡◌, ◌↔◌, IsTrue, IsFalse, List, [], ◌∷◌, ◌++◌, true, None, slice_index_or};
ghost use Rattle.pe_features.specs.declared.feature.Feature.{Feature};
ghost use Rattle.pe_features.specs.Features.{feature_number};
ghost use Rattle.pe_allowlist.specs.Lists.{is_policy_controlled};
ghost use Rattle.pe_policy.specs.Links.{ChainDocument, end_of_chain};
ghost use Rattle.pe_policy.specs.Denials.{denial};
ghost use Rattle.pe_policy.specs.InheritedPolicy.{value_for};
ghost use Rattle.pe_policy.specs.PolicyValue.{row_of, top_row, child_row, allowed_row, no_links};
ghost use Rattle.pe_policy.specs.PolicyValue.{failing_at_top, failing_at_child, failing_at, link_of};
ghost use Rattle.pe_policy.specs.PolicyValue.{IsDocument, IsContained, IsPolicyOf};

use crate::link::{failing_at_child, failing_at_top};
use crate::row::{Links, Row};
use pe_allowlist::{Container, Declared};
use pe_base::{Denial, DocNo};
use pe_features::Feature;
use pe_origin::{Origin, same_origin};
use std::marker::Model;

/// The policy of a document: for each feature why it is denied there, if it is, and which tests fail at
/// the document; and what the document's header declares. It is made once, with the document, and its
/// size does not depend on the document's depth.
#[derive(Debug, Drop)]
pub struct Policy {
    doc: DocNo,
    rows: [Row; 16],
    declared: Declared,
}

impl Model for Policy {
    ghost use Rattle.pe_policy.specs.PolicyValue.{PolicyValue};

    ghost Value = { PolicyValue };

    ghost use Rattle.std.specs.Prelude.{◌≡◌, IsFalse, slice_index_or};
    ghost use Rattle.pe_features.specs.declared.feature.Feature.{Feature};
    ghost use Rattle.pe_features.specs.Features.{feature_number};
    ghost use Rattle.pe_allowlist.specs.Lists.{is_policy_controlled};
    ghost use Rattle.pe_policy.specs.PolicyValue.{allowed_row};

    ghost view = { λ p. record { document = p.doc; rows = p.rows; declared = p.declared } };

    ghost invariant = { λ p. (f : Feature)
        → IsFalse (is_policy_controlled f)
        → slice_index_or p.rows (feature_number f) allowed_row ≡ allowed_row };
}

/// The rows of a top document.
fn top_rows(declared: &Declared, origin: &Origin, doc: DocNo) -> [Row; 16]
    ensures { (f : Feature)
        → slice_index_or result (feature_number f) allowed_row
        ≡ top_row (failing_at_top f (link_of 0 origin.now declared.now [])) doc }
{
    let mut rows = [Row::allowed(); 16];
    for i in 0..16 {
        rows[i] = Row::at_top(failing_at_top(declared, origin, Feature::ALL[i]), doc);
    }
    rows
}

/// The rows of a child.
fn child_rows(
    parent: &Policy,
    parent_origin: &Origin,
    container: &Container,
    origin: &Origin,
    declared: &Declared,
    doc: DocNo,
) -> [Row; 16]
    ensures rows { (f : Feature)
        → slice_index_or result (feature_number f) allowed_row
        ≡ child_row (row_of parent.now f).denial
        (failing_at_child f (link_of 0 parent_origin.now parent.now.declared []) (link_of 0 origin.now declared.now container.now))
        parent.now.document doc }
    ensures uncontrolled { (f : Feature)
        → IsFalse (is_policy_controlled f)
        → slice_index_or result (feature_number f) allowed_row ≡ allowed_row }
{
    let is_same = same_origin(origin, parent_origin);
    let mut rows = [Row::allowed(); 16];
    for i in 0..16 {
        let feature = Feature::ALL[i];
        let links = failing_at_child(
            &parent.declared,
            is_same,
            container,
            origin,
            declared,
            feature,
        );
        rows[i] = Row::at_child(parent.why(feature), links, parent.doc, doc);
    }
    rows
}

impl Policy {
    /// The policy of a top document, from what its header declares.
    pub fn make_top(declared: Declared, origin: &Origin, doc: DocNo) -> Policy
        ensures document { result.document ≡ doc }
        ensures declares { result.declared ≡ declared }
        ensures rows { (f : Feature)
            → row_of result f ≡ top_row (failing_at_top f (link_of 0 origin.now declared [])) doc }
        ensures stands { (top : ChainDocument) → IsDocument top doc origin.now declared → IsPolicyOf result top [] }
    {
        let rows = top_rows(&declared, origin, doc);
        Policy {
            doc,
            rows,
            declared,
        }
    }

    /// The policy of a child: from the policy and the origin of its embedder, from the container policy that
    /// the element of its frame gives, and from its own origin, what its header declares, and its number.
    pub fn make_child(
        parent: &Policy,
        parent_origin: &Origin,
        container: &Container,
        origin: &Origin,
        declared: Declared,
        doc: DocNo,
    ) -> Policy
        ensures document { result.document ≡ doc }
        ensures declares { result.declared ≡ declared }
        ensures rows { (f : Feature)
            → row_of result f
            ≡ child_row (row_of parent.now f).denial
            (failing_at_child f (link_of 0 parent_origin.now parent.now.declared []) (link_of 0 origin.now declared container.now))
            parent.now.document doc }
        ensures stands { (top : ChainDocument) (rest : List ChainDocument) (child : ChainDocument)
            → IsPolicyOf parent.now top rest
            → (end_of_chain top rest).origin ≡ parent_origin.now
            → IsDocument child doc origin.now declared
            → IsContained child container.now
            → IsPolicyOf result top (rest ++ child ∷ []) }
    {
        let rows = child_rows(parent, parent_origin, container, origin, &declared, doc);
        Policy {
            doc,
            rows,
            declared,
        }
    }

    /// The row of the feature.
    #[tactic(auto, using(std::proofs::lemmas::List::get_or_default), unfolding(crate::specs::PolicyValue::row_of))]
    fn row(&self, feature: Feature) -> Row
        ensures row { result ≡ row_of self.now feature }
        ensures uncontrolled { IsFalse (is_policy_controlled feature) → result ≡ allowed_row }
    {
        self.rows[feature.index()]
    }

    /// Why the feature is denied in the document: the first test that fails along the documents from the
    /// top one down. None exactly where no test fails; always None for a feature that is not
    /// policy-controlled.
    pub fn why(&self, feature: Feature) -> Option<Denial>
        ensures row { result ≡ (row_of self.now feature).denial }
        ensures uncontrolled { IsFalse (is_policy_controlled feature) → result ≡ None }
        ensures first { (top : ChainDocument) (rest : List ChainDocument)
            → IsPolicyOf self.now top rest
            → result ≡ denial feature (top ∷ rest) }
        ensures value { (top : ChainDocument) (rest : List ChainDocument)
            → IsPolicyOf self.now top rest
            → IsTrue (is_policy_controlled feature)
            → (result ≡ None) ↔ (value_for feature (top ∷ rest) (end_of_chain top rest).origin ≡ true) }
    {
        self.row(feature).denial()
    }

    /// Which tests fail at the document itself.
    pub fn links(&self, feature: Feature) -> Links
        ensures row { result ≡ (row_of self.now feature).links }
        ensures uncontrolled { IsFalse (is_policy_controlled feature) → result ≡ no_links }
        ensures exact { (top : ChainDocument) (rest : List ChainDocument)
            → IsPolicyOf self.now top rest
            → result ≡ failing_at feature (top ∷ rest) }
    {
        self.row(feature).links()
    }
}
