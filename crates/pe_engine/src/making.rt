//! The rows of new documents.
ghost use Rattle.std.specs.Prelude.{◌≡◌, ◌≤◌, ◌||◌, IfOk, [], ◌∷◌, ◌++◌, List, false, unwrap_or, option_map, bytes_eq, codes};
ghost use Rattle.std.specs.Option.{option_copied};
ghost use Rattle.pe_base.specs.declared.limits.TheConstants.{EVENT_LIMIT};
ghost use Rattle.pe_features.specs.declared.feature.Feature.{Feature};
ghost use Rattle.pe_allowlist.specs.Lists.{lists_of};
ghost use Rattle.pe_allowlist.specs.AsciiWords.{lowercase};
ghost use Rattle.pe_allowlist.specs.ContainerPolicy.{container_policy};
ghost use Rattle.pe_allowlist.specs.declared.container.DeclaredOrigin.TheVariants as declared;
ghost use Rattle.pe_origin.specs.declared.origin.Origin.TheVariants as kind;
ghost use Rattle.pe_policy.specs.Links.{ChainDocument, end_of_chain};
ghost use Rattle.pe_store.specs.declared.key.Key.TheVariants as key;
ghost use Rattle.pe_policy.specs.PolicyValue.{IsPolicyOf};
ghost use Rattle.pe_rules.specs.Origins.{origin_of_place, is_blank_kind, sandboxes_origin, declared_by_place};
ghost use Rattle.pe_engine.specs.Making.{top_of, sandboxes, child_origin, kept_declared, declared_by_kept, IsLinkOf, IsContainedBy, IsTopRow, IsChildRow};

use crate::kept_row::KeptRow;
use crate::row::{Attributes, Delivered, Row};
use pe_allowlist::{Container, DeclaredOrigin, is_whitespace, read_allow};
use pe_base::{Bytes, DocNo, EVENT_LIMIT, Stamp};
use pe_header::read_header;
use pe_origin::{Origin, Place, PlaceKind, Tuple, trustworthy};
use pe_policy::Policy;
use pe_store::Key;
use std::alloc::{AllocError, Global};

/// Whether the word is `allow-same-origin`, without ASCII case.
#[tactic(auto, using(crate::proofs::Words::keyword_test))]
fn allows_same_origin(word: &[u8]) -> bool
    ensures { result ≡ bytes_eq (lowercase word.now) (codes "allow-same-origin") }
{
    word.eq_ignore_ascii_case(b"allow-same-origin")
}

/// Whether a sandbox attribute of this value gives its document an opaque origin: the word
/// `allow-same-origin` does not stand in it.
fn sandboxes_origin(value: &[u8]) -> bool
    ensures { result ≡ sandboxes_origin value.now }
{
    !value
        .split(|b| is_whitespace(*b))
        .filter(|word| !word.is_empty())
        .any(|word| allows_same_origin(word))
}

/// Whether the sandbox attribute stands and gives an opaque origin.
fn sandboxes(attributes: &Attributes) -> bool
    ensures { result ≡ sandboxes attributes.now }
{
    match &attributes.sandbox {
        Some(value) => sandboxes_origin(value.as_slice()),
        None => false,
    }
}

/// The origin that its URL gives the document of this number.
fn origin_of_place(place: Place, number: u32) -> Origin
    requires low { 1 ≤ number }
    requires high { number ≤ EVENT_LIMIT }
    ensures { result ≡ origin_of_place number place }
{
    match place.tuple {
        Some(tuple) => Origin::Tuple(tuple),
        None => Origin::Opaque(DocNo::of(number)),
    }
}

/// Whether the place is about:blank.
fn is_blank(place: &Place) -> bool
    ensures { result ≡ is_blank_kind place.now.kind }
{
    matches!(place.kind, PlaceKind::Blank)
}

/// The origin of an embedded document, by its sandbox flag and its embedder's origin.
fn child_origin(
    flag: bool,
    embedder: &Origin,
    number: u32,
    place: Place,
    srcdoc: bool,
) -> Result<Origin, AllocError>
    requires low { 1 ≤ number }
    requires high { number ≤ EVENT_LIMIT }
    ensures { IfOk result (λ origin. origin ≡ child_origin flag embedder.now number place srcdoc) }
{
    if flag {
        return Ok(Origin::Opaque(DocNo::of(number)));
    }
    if srcdoc || is_blank(&place) {
        return embedder.copy();
    }
    Ok(origin_of_place(place, number))
}

/// The declared origin of a container whose `src` names this tuple.
fn declared_by_tuple(tuple: &Option<Tuple>) -> Result<DeclaredOrigin, AllocError>
    ensures { IfOk result (λ found. found ≡ unwrap_or (option_map (λ t. declared.Known (kind.Tuple t)) tuple.now) declared.Opaque) }
{
    match tuple {
        Some(tuple) => Ok(DeclaredOrigin::Known(Origin::Tuple(tuple.copy()?))),
        None => Ok(DeclaredOrigin::Opaque),
    }
}

/// The declared origin that the place in `src` gives.
fn declared_by_src(embedder: &Origin, src: &Option<Place>) -> Result<DeclaredOrigin, AllocError>
    ensures { IfOk result (λ found. found ≡ declared_by_kept embedder.now src.now) }
{
    let Some(place) = src else {
        return Ok(DeclaredOrigin::Known(embedder.copy()?));
    };
    if is_blank(place) {
        return Ok(DeclaredOrigin::Known(embedder.copy()?));
    }
    declared_by_tuple(&place.tuple)
}

/// The declared origin of a container with these attributes (Permissions Policy, "declared origin"), by
/// the sandbox flag and the origin of the embedder.
fn declared_origin(
    attributes: &Attributes,
    flag: bool,
    embedder: &Origin,
) -> Result<DeclaredOrigin, AllocError>
    ensures { IfOk result (λ found. found ≡ kept_declared attributes.now flag embedder.now) }
{
    if flag || sandboxes(attributes) {
        return Ok(DeclaredOrigin::Opaque);
    }
    if attributes.srcdoc {
        return Ok(DeclaredOrigin::Known(embedder.copy()?));
    }
    declared_by_src(embedder, &attributes.src)
}

/// The bytes of a value, where there is one.
fn bytes_of(value: &Option<Bytes>) -> Option<&[u8]>
    ensures { option_copied result ≡ value.now }
{
    match value {
        Some(value) => Some(value.as_slice()),
        None => None,
    }
}

/// The container policy of these attributes in the embedder (Permissions Policy, "container policy").
fn container_of(
    alloc: Global,
    attributes: &Attributes,
    embedder: &Row,
) -> Result<Container, AllocError>
    ensures { IfOk result (λ container. (f : Feature) → lists_of container f
        ≡ container_policy attributes.now.allow attributes.now.fullscreen embedder.now.origin (kept_declared attributes.now embedder.now.sandboxed embedder.now.origin) f) }
{
    let declared = declared_origin(attributes, embedder.sandboxed, &embedder.origin)?;
    read_allow(
        alloc,
        bytes_of(&attributes.allow),
        attributes.fullscreen,
        &embedder.origin,
        &declared,
    )
}

/// The policy of a top document of this number and origin.
fn top_policy(
    alloc: Global,
    number: u32,
    origin: &Origin,
    header: Option<&[u8]>,
) -> Result<Policy, AllocError>
    requires low { 1 ≤ number }
    requires high { number ≤ EVENT_LIMIT }
    ensures { IfOk result (λ policy. (top : ChainDocument) → IsLinkOf top number origin.now (option_copied header.entry) → IsPolicyOf policy top []) }
{
    let declared = read_header(alloc, header, origin)?;
    Ok(Policy::make_top(declared, origin, DocNo::of(number)))
}

/// The policy of a document of this number and origin that is embedded with these attributes.
fn child_policy(
    alloc: Global,
    embedder: &Row,
    number: u32,
    origin: &Origin,
    header: Option<&[u8]>,
    attributes: &Attributes,
) -> Result<Policy, AllocError>
    requires low { 1 ≤ number }
    requires high { number ≤ EVENT_LIMIT }
    ensures { IfOk result (λ policy. (top : ChainDocument) (rest : List ChainDocument) (child : ChainDocument) → IsPolicyOf embedder.now.policy top rest
        → (end_of_chain top rest).origin ≡ embedder.now.origin → IsLinkOf child number origin.now (option_copied header.entry)
        → IsContainedBy child attributes.now embedder.now → IsPolicyOf policy top (rest ++ child ∷ [])) }
{
    let own = read_header(alloc, header, origin)?;
    let container = container_of(alloc, attributes, embedder)?;
    let number = DocNo::of(number);
    Ok(Policy::make_child(
        &embedder.policy,
        &embedder.origin,
        &container,
        origin,
        own,
        number,
    ))
}

/// The key of the document of this origin in the page that the other key is for. `AllocError` where
/// memory wants.
fn pair_key(single: &Key, own: &Origin) -> Result<Key, AllocError>
    ensures { IfOk result (λ found. found ≡ key.Pair (top_of single.now) own.now) }
{
    match single {
        Key::One(top) => Ok(Key::Pair(top.copy()?, own.copy()?)),
        Key::Pair(top, _) => Ok(Key::Pair(top.copy()?, own.copy()?)),
    }
}

/// The row of a top document, with no attributes yet. `AllocError` where memory wants.
fn new_top(
    alloc: Global,
    number: u32,
    place: Place,
    header: Option<&[u8]>,
) -> Result<Row, AllocError>
    requires low { 1 ≤ number }
    requires high { number ≤ EVENT_LIMIT }
    ensures { IfOk result (IsTopRow number place (option_copied header.entry)) }
{
    let secure = trustworthy(&place);
    let origin = origin_of_place(place, number);
    let Ok(policy) = top_policy(alloc, number, &origin, header) else {
        return Err(AllocError);
    };
    let single = Key::One(origin.copy()?);
    let pair = pair_key(&single, &origin)?;
    Ok(Row {
        stamp: Stamp::Never,
        second: Stamp::Never,
        doc: DocNo::of(number),
        sandboxed: false,
        secure,
        delivered: Delivered::none(),
        origin,
        single,
        pair,
        attributes: Attributes::none(),
        policy,
    })
}

/// The row of a top document, with no attributes yet, as the tree keeps it. `AllocError` where memory wants.
pub(crate) fn top_row(
    alloc: Global,
    number: u32,
    place: Place,
    header: Option<&[u8]>,
) -> Result<KeptRow, AllocError>
    requires low { 1 ≤ number }
    requires high { number ≤ EVENT_LIMIT }
    ensures { IfOk result (IsTopRow number place (option_copied header.entry)) }
{
    let Ok(row) = new_top(alloc, number, place, header) else {
        return Err(AllocError);
    };
    KeptRow::of(alloc, row)
}

/// The row of a document that is embedded in another with these attributes, which it does not have yet.
/// `AllocError` where memory wants.
fn new_child(
    alloc: Global,
    embedder: &Row,
    number: u32,
    place: Place,
    srcdoc: bool,
    header: Option<&[u8]>,
    attributes: &Attributes,
) -> Result<Row, AllocError>
    requires low { 1 ≤ number }
    requires high { number ≤ EVENT_LIMIT }
    ensures { IfOk result (IsChildRow embedder.now number place srcdoc (option_copied header.entry) attributes.now) }
{
    let sandboxed = embedder.sandboxed || sandboxes(attributes);
    let origin = child_origin(sandboxed, &embedder.origin, number, place, srcdoc)?;
    let Ok(policy) = child_policy(alloc, embedder, number, &origin, header, attributes) else {
        return Err(AllocError);
    };
    let single = embedder.single.copy()?;
    let pair = pair_key(&single, &origin)?;
    Ok(Row {
        stamp: Stamp::Never,
        second: Stamp::Never,
        doc: DocNo::of(number),
        sandboxed,
        secure: embedder.secure,
        delivered: Delivered::none(),
        origin,
        single,
        pair,
        attributes: Attributes::none(),
        policy,
    })
}

/// The row of a document that is embedded in another with these attributes, which it does not have yet, as
/// the tree keeps it. `AllocError` where memory wants.
pub(crate) fn child_row(
    alloc: Global,
    embedder: &Row,
    number: u32,
    place: Place,
    srcdoc: bool,
    header: Option<&[u8]>,
    attributes: &Attributes,
) -> Result<KeptRow, AllocError>
    requires low { 1 ≤ number }
    requires high { number ≤ EVENT_LIMIT }
    ensures { IfOk result (IsChildRow embedder.now number place srcdoc (option_copied header.entry) attributes.now) }
{
    let Ok(row) = new_child(alloc, embedder, number, place, srcdoc, header, attributes) else {
        return Err(AllocError);
    };
    KeptRow::of(alloc, row)
}
