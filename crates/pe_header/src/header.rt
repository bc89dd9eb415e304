//! Reading a header.
ghost use Rattle.std.specs.Prelude.{◌≡◌, ◌||◌, IfOk, OnOk, option_map, bytes_eq, if◌then◌else◌};
ghost use Rattle.std.specs.Option.{option_copied, option_or};
ghost use Rattle.pe_features.specs.declared.feature.Feature.{Feature};
ghost use Rattle.pe_features.specs.Features.{same_feature, feature_name};
ghost use Rattle.pe_origin.specs.declared.origin.Origin.{Origin as OriginOf};
ghost use Rattle.pe_allowlist.specs.Lists.{lists_of};
ghost use Rattle.pe_allowlist.specs.DeclaredLists.{allowlist_of, list_at};
ghost use Rattle.pe_header.specs.DeclaredPolicy as spec;
ghost use Rattle.pe_header.specs.Members.{is_that, seen_at, list_of_member, with_member};

use crate::reading::read_value;
use pe_allowlist::{Declared, DeclaredList, DeclaredLists};
use pe_features::Feature;
use pe_fields::{Dictionary, Member, parse_dictionary};
use pe_origin::Origin;
use std::alloc::{AllocError, Global};

/// The feature of this name, whose member a member of this key is; None where no feature has it.
fn feature_named(key: &[u8]) -> Option<Feature>
    ensures { (f : Feature) → bytes_eq key.now (feature_name f) ≡ is_that result f }
{
    Feature::by_name(key)
}

/// The list that a member of the feature's key declares for it; None where it declares none, or the feature
/// is not policy-controlled.
fn read_member(
    alloc: Global,
    member: &Member<'_>,
    feature: Feature,
) -> Result<Option<DeclaredList>, AllocError>
    ensures { IfOk result (λ list. (own : OriginOf)
        → option_map (allowlist_of own) list ≡ list_of_member own feature member.now) }
{
    if feature.default_of().is_none() {
        return Ok(None);
    }
    read_value(alloc, &member.value)
}

/// Gives the feature the list that a member of its key declares for it, if it declares one.
#[tactic(auto, using(crate::proofs::HeaderLaws::list_put, crate::proofs::HeaderLaws::list_left))]
fn put_feature(
    alloc: Global,
    lists: &mut DeclaredLists,
    member: &Member<'_>,
    feature: Feature,
) -> Result<(), AllocError>
    ensures { OnOk result ((own : OriginOf) (f : Feature)
        → option_map (allowlist_of own) (list_at lists.new f)
        ≡ (if same_feature feature f
        then option_or (list_of_member own feature member.now) (option_map (allowlist_of own) (list_at lists.old f))
        else option_map (allowlist_of own) (list_at lists.old f))) }
{
    match read_member(alloc, member, feature)? {
        Some(list) => lists.put(feature, list),
        None => Ok(()),
    }
}

/// Takes the member of a key in, where those behind it were taken in and `seen` says of which features
/// one was: the last of a key counts.
fn put_member(
    alloc: Global,
    lists: &mut DeclaredLists,
    seen: &mut [bool; 16],
    key: &[u8],
    member: &Member<'_>,
) -> Result<(), AllocError>
    ensures seen { OnOk result ((f : Feature) → seen_at seen.new f ≡ (seen_at seen.old f || bytes_eq key.now (feature_name f))) }
    ensures list { OnOk result ((own : OriginOf) (f : Feature)
        → option_map (allowlist_of own) (list_at lists.new f)
        ≡ with_member own f (seen_at seen.old f) key.now member.now (option_map (allowlist_of own) (list_at lists.old f))) }
{
    let Some(feature) = feature_named(key) else {
        return Ok(());
    };
    if seen[feature.index()] {
        return Ok(());
    }
    seen[feature.index()] = true;
    put_feature(alloc, lists, member, feature)
}

/// The declared policy of the dictionary, of which the last member is taken in first.
fn read_members(
    alloc: Global,
    members: &Dictionary<'_>,
    own: &Origin,
) -> Result<Declared, AllocError>
    ensures { IfOk result (λ declared. (f : Feature) → lists_of declared f ≡ spec.list_of_members own.now f members.now) }
{
    let entries = members.entries();
    let mut lists = DeclaredLists::empty(alloc);
    let mut seen = [false; 16];
    for i in 0..entries.len() {
        let entry = &entries[entries.len() - 1 - i];
        put_member(alloc, &mut lists, &mut seen, entry.0.as_slice(), &entry.1)?;
    }
    Declared::of(alloc, own, lists)
}

/// The declared policy of a header's field, for a document of this origin (Permissions Policy,
/// "declared policy"). A field that is missing or no dictionary declares nothing, and nothing is
/// refused. `AllocError` where memory wants.
pub fn read_header(
    alloc: Global,
    field: Option<&[u8]>,
    own: &Origin,
) -> Result<Declared, AllocError>
    ensures { IfOk result (λ declared. (f : Feature) → lists_of declared f ≡ spec.declared_policy (option_copied field.entry) own.now f) }
{
    let Some(field) = field else {
        return Ok(Declared::empty());
    };
    match parse_dictionary(alloc, field)? {
        Some(members) => read_members(alloc, &members, own),
        None => Ok(Declared::empty()),
    }
}
