//! Allowlists as a header declares them, for a document that is not named yet.
ghost use Rattle.std.specs.Prelude.{◌≡◌, ℕ, Some, None, OnOk, OnErr, [], if◌then◌else◌, option_map, slice_index_or, ◌==◌};
ghost use Rattle.std.specs.List.{list_any};
ghost use Rattle.pe_features.specs.declared.feature.Feature.{Feature};
ghost use Rattle.pe_features.specs.Features.{same_feature, feature_number};
ghost use Rattle.pe_origin.specs.declared.origin.Origin.{Origin as OriginOf};
ghost use Rattle.pe_allowlist.specs.Expressions as expression;
ghost use Rattle.pe_allowlist.specs.Allowlists as spec;
ghost use Rattle.pe_allowlist.specs.DeclaredLists.{allowlist_of, keywords_of, list_at, expressions_at};

use crate::allowlist::{Expression, Expressions};
use crate::matching::is_any_matching;
use pe_features::Feature;
use pe_origin::{Origin, same_origin};
use std::alloc::{AllocError, Global};

/// An allowlist as a header declares it.
#[derive(Debug, Drop)]
pub struct DeclaredList {
    /// `*` stands in it: every origin is matched.
    pub any: bool,
    /// `self` stands in it: the document's own origin is matched.
    pub own: bool,
    /// The expressions that stand in it.
    pub expressions: Expressions,
}

/// Whether a feature has a list, and the keywords in it.
#[derive(Clone, Copy, Debug)]
pub(crate) enum Keywords {
    /// There is no list.
    NoList,
    /// A list without keywords.
    Neither,
    /// A list with `*`.
    Any,
    /// A list with `self`.
    Own,
    /// A list with `*` and `self`.
    Both,
}

/// The allowlists that a header declares. Each takes a byte, beside its expressions.
#[derive(Debug, Drop)]
pub struct DeclaredLists {
    /// The keywords of each feature, in the order of the table.
    keywords: [Keywords; 16],
    /// The expressions of the features, in the order of the table, up to the last that has some.
    expressions: Vec<Expressions>,
}

impl DeclaredList {
    /// The list that matches nothing. It takes no memory.
    pub fn empty(alloc: Global) -> DeclaredList
        ensures { (own : OriginOf) → allowlist_of own result ≡ spec.empty_list }
    {
        DeclaredList {
            any: false,
            own: false,
            expressions: Expressions::of(Vec::new(alloc)),
        }
    }
}

impl Keywords {
    /// The keywords of a list.
    fn of(any: bool, own: bool) -> Keywords
        ensures { keywords_of result ≡ Some (any, own) }
    {
        match (any, own) {
            (false, false) => Keywords::Neither,
            (true, false) => Keywords::Any,
            (false, true) => Keywords::Own,
            (true, true) => Keywords::Both,
        }
    }

    /// Whether `*` stands in the list, and whether `self` does; None where there is no list.
    fn get(self) -> Option<(bool, bool)>
        ensures { result ≡ keywords_of self }
    {
        match self {
            Keywords::NoList => None,
            Keywords::Neither => Some((false, false)),
            Keywords::Any => Some((true, false)),
            Keywords::Own => Some((false, true)),
            Keywords::Both => Some((true, true)),
        }
    }
}

/// Puts expressions in the place of this number. Where memory wants, all places have what they had.
#[tactic(auto, using(crate::proofs::PlaceLaws::padded, crate::proofs::PlaceLaws::pushed, crate::proofs::PlaceLaws::placed, crate::proofs::PlaceLaws::left))]
fn put_expressions(
    rows: &mut Vec<Expressions>,
    place: usize,
    expressions: Expressions,
) -> Result<(), AllocError>
    ensures put { OnOk result ((k : ℕ)
        → expressions_at rows.new.items k ≡ (if place == k then expressions else expressions_at rows.old.items k)) }
    ensures wanting { OnErr result ((k : ℕ) → expressions_at rows.new.items k ≡ expressions_at rows.old.items k) }
{
    if place < rows.len() {
        rows[place] = expressions;
        return Ok(());
    }
    if expressions.as_slice().is_empty() {
        return Ok(());
    }
    let alloc = *rows.allocator();
    for _ in rows.len()..place {
        rows.push(Expressions::of(Vec::new(alloc)))?;
    }
    rows.push(expressions)?;
    Ok(())
}

/// Whether the keywords or the expressions match the origin, in a document of the own origin.
#[tactic(auto, unfolding(crate::specs::Allowlists::matches))]
fn matches(
    has_any: bool,
    has_own: bool,
    expressions: &[Expression],
    own: &Origin,
    origin: &Origin,
) -> bool
    ensures { result
        ≡ spec.matches (allowlist_of own.now (record { any = has_any; own = has_own; expressions = expressions.now })) origin.now }
{
    has_any || (has_own && same_origin(own, origin)) || is_any_matching(expressions, origin)
}

impl DeclaredLists {
    /// No lists. They take no memory.
    pub fn empty(alloc: Global) -> DeclaredLists
        ensures { (f : Feature) → list_at result f ≡ None }
    {
        DeclaredLists {
            keywords: [Keywords::NoList; 16],
            expressions: Vec::new(alloc),
        }
    }

    /// Gives the feature this list, in place of an earlier one. `AllocError` where memory wants; each
    /// feature then has the list that it had.
    pub fn put(&mut self, feature: Feature, list: DeclaredList) -> Result<(), AllocError>
        ensures put { OnOk result ((f : Feature)
            → list_at self.new f ≡ (if same_feature feature f then Some list else list_at self.old f)) }
        ensures wanting { OnErr result ((f : Feature) → list_at self.new f ≡ list_at self.old f) }
    {
        let mut expressions = list.expressions;
        expressions.shrink();
        put_expressions(&mut self.expressions, feature.index(), expressions)?;
        self.keywords[feature.index()] = Keywords::of(list.any, list.own);
        Ok(())
    }

    /// The expressions of the feature.
    fn expressions(&self, feature: Feature) -> &[Expression]
        ensures { result.now ≡ expressions_at self.now.expressions.items (feature_number feature) }
    {
        match self.expressions.get(feature.index()) {
            Some(expressions) => expressions.as_slice(),
            None => &[],
        }
    }

    /// Whether the list of the feature matches the origin, in a document of the own origin; None where the
    /// feature has no list.
    pub(crate) fn matches(&self, own: &Origin, feature: Feature, origin: &Origin) -> Option<bool>
        ensures { result
            ≡ option_map (λ list. spec.matches (allowlist_of own.now list) origin.now) (list_at self.now feature) }
    {
        let (has_any, has_own) = self.keywords[feature.index()].get()?;
        Some(matches(has_any, has_own, self.expressions(feature), own, origin))
    }
}
