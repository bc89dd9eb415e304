//! The tests between an embedder and its child, and of a document's own header.
ghost use Rattle.std.specs.Prelude.{◌≡◌, ◌&&◌, not, is_none, Some, []};
ghost use Rattle.pe_features.specs.declared.feature.Feature.{Feature};
ghost use Rattle.pe_origin.specs.Origins.{is_same_origin};
ghost use Rattle.pe_origin.specs.declared.origin.Origin.{Origin as OriginOf};
ghost use Rattle.pe_allowlist.specs.Lists.{lists_of};
ghost use Rattle.pe_policy.specs.Links as spec;
ghost use Rattle.pe_policy.specs.Links.{ChainDocument};
ghost use Rattle.pe_policy.specs.PolicyValue.{pair_rule, own_rule, link_of, failing_at_top, failing_at_child};

use crate::row::Links;
use pe_allowlist::{Container, Declared};
use pe_base::LinkRule;
use pe_features::{DefaultList, Feature};
use pe_origin::{Origin, same_origin};

/// Whether the declared policy has the feature and does not match the origin.
#[tactic(auto, using(crate::proofs::Refusals::refuses_some, crate::proofs::Refusals::refuses_none))]
fn header_refuses(declared: &Declared, origin: &Origin, feature: Feature) -> bool
    ensures { result ≡ spec.refuses (lists_of declared.now feature) origin.now }
{
    match declared.matches(feature, origin) {
        Some(is_matched) => !is_matched,
        None => false,
    }
}

/// Whether the container policy has the feature and does not match the origin.
fn container_refuses(container: &Container, origin: &Origin, feature: Feature) -> bool
    ensures { result ≡ spec.refuses (lists_of container.now feature) origin.now }
{
    match container.get(feature) {
        Some(list) => !list.matches(origin),
        None => false,
    }
}

/// Whether the container policy lacks the feature, whose default allowlist does not reach the child, which
/// is same origin with its embedder or not.
fn fails_default(
    default: DefaultList,
    container: &Container,
    is_same: bool,
    feature: Feature,
) -> bool
    ensures { result ≡ (is_none (lists_of container.now feature) && spec.is_own_origin (Some default) && not is_same) }
{
    match default {
        DefaultList::Any => false,
        DefaultList::OwnOrigin => !is_same && container.get(feature).is_none(),
    }
}

/// Which tests fail at a top document.
pub(crate) fn failing_at_top(declared: &Declared, origin: &Origin, feature: Feature) -> Links
    ensures { result ≡ failing_at_top feature (link_of 0 origin.now declared.now []) }
{
    if feature.default_of().is_none() {
        return Links::NONE;
    }
    Links {
        own_header: header_refuses(declared, origin, feature),
        ..Links::NONE
    }
}

/// Which tests fail at a child that is same origin with its embedder or not.
pub(crate) fn failing_at_child(
    parent: &Declared,
    is_same: bool,
    container: &Container,
    origin: &Origin,
    declared: &Declared,
    feature: Feature,
) -> Links
    ensures { (parent_origin : OriginOf) → is_same ≡ is_same_origin origin.now parent_origin → result ≡ failing_at_child feature
        (link_of 0 parent_origin parent.now [])
        (link_of 0 origin.now declared.now container.now) }
{
    let Some(default) = feature.default_of() else {
        return Links::NONE;
    };
    Links {
        embedder_header: header_refuses(parent, origin, feature),
        allow: container_refuses(container, origin, feature),
        by_default: fails_default(default, container, is_same, feature),
        own_header: header_refuses(declared, origin, feature),
    }
}

#[tactic(auto, unfolding(crate::specs::Links::pair_test))]
fn first_rule(
    parent: &Declared,
    parent_origin: &Origin,
    container: &Container,
    origin: &Origin,
    feature: Feature,
) -> Option<LinkRule>
    ensures { result ≡ pair_rule feature (link_of 0 parent_origin.now parent.now []) (link_of 0 origin.now [] container.now) }
{
    let default = feature.default_of()?;
    if header_refuses(parent, parent_origin, feature) {
        Some(LinkRule::EmbedderSelf)
    } else if header_refuses(parent, origin, feature) {
        Some(LinkRule::EmbedderHeader)
    } else if container_refuses(container, origin, feature) {
        Some(LinkRule::Allow)
    } else if fails_default(
        default,
        container,
        same_origin(origin, parent_origin),
        feature,
    ) {
        Some(LinkRule::Default)
    } else {
        None
    }
}

#[tactic(auto, unfolding(crate::specs::Links::own_test))]
fn own_rule(declared: &Declared, origin: &Origin, feature: Feature) -> Option<LinkRule>
    ensures { result ≡ own_rule feature (link_of 0 origin.now declared.now []) }
{
    if failing_at_top(declared, origin, feature).own_header {
        Some(LinkRule::OwnHeader)
    } else {
        None
    }
}

/// The first of the four tests between an embedder and its child that fails: `EmbedderSelf`,
/// `EmbedderHeader`, `Allow`, `Default`. None where none of them fails, or the feature is not
/// policy-controlled. What stands above the embedder is not asked; `Policy::why` has the whole chain.
pub fn first_link(
    parent: &Declared,
    parent_origin: &Origin,
    container: &Container,
    origin: &Origin,
    feature: Feature,
) -> Option<LinkRule>
    ensures { (embedder child : ChainDocument)
        → (embedder.origin ≡ parent_origin.now)
        → ((f : Feature) → embedder.declared f ≡ lists_of parent.now f)
        → (child.origin ≡ origin.now)
        → ((f : Feature) → child.container f ≡ lists_of container.now f)
        → result ≡ pair_rule feature embedder child }
{
    first_rule(parent, parent_origin, container, origin, feature)
}

/// `OwnHeader` where the feature is policy-controlled and the document's declared policy has it and
/// does not match the document's origin; None otherwise.
pub fn own_link(declared: &Declared, origin: &Origin, feature: Feature) -> Option<LinkRule>
    ensures { (link : ChainDocument)
        → (link.origin ≡ origin.now)
        → ((f : Feature) → link.declared f ≡ lists_of declared.now f)
        → result ≡ own_rule feature link }
{
    own_rule(declared, origin, feature)
}
