//! What no contract says: that the definitions name the tests that the rules name, along written chains
//! of documents.
use crate::{Links, Policy, first_link, own_link};
use pe_allowlist::{
    Container, Declared, DeclaredList, DeclaredLists, DeclaredOrigin, read_allow, read_expression,
};
use pe_base::{DocNo, LinkRule};
use pe_features::Feature;
use pe_origin::{Origin, PlaceFault, read_place};
use std::alloc::{AllocError, Global};
use std::test::Fail;

/// A document: its URL, where an empty text stands for an opaque origin; what its header declares for
/// the feature, as `self`, `*` or expressions; and the `allow` attribute that it is made under.
type Doc = (&'static str, Option<&'static str>, Option<&'static str>);

const A: &str = "https://a.example";

const B: &str = "https://b.example";

const C: &str = "https://c.example";

/// Documents from the top one down, how many of them there are, the feature, and the test that the
/// rules name with its document.
const CHAINS_1: [([Doc; 4], usize, Feature, Option<(LinkRule, u32)>); 11] = [
    (
        [
            (A, None, None),
            (A, None, None),
            (A, None, None),
            (A, None, None),
        ],
        1,
        Feature::Camera,
        None,
    ),
    (
        [
            (A, Some(""), None),
            (A, None, None),
            (A, None, None),
            (A, None, None),
        ],
        1,
        Feature::Camera,
        Some((LinkRule::OwnHeader, 1)),
    ),
    (
        [
            (A, Some("self"), None),
            (A, None, None),
            (A, None, None),
            (A, None, None),
        ],
        4,
        Feature::Camera,
        None,
    ),
    (
        [
            ("", None, None),
            ("", None, None),
            (A, None, None),
            (A, None, None),
        ],
        1,
        Feature::Camera,
        None,
    ),
    (
        [
            (A, None, None),
            (B, None, None),
            (A, None, None),
            (A, None, None),
        ],
        2,
        Feature::Camera,
        Some((LinkRule::Default, 2)),
    ),
    (
        [
            (A, None, None),
            (B, None, Some("camera")),
            (A, None, None),
            (A, None, None),
        ],
        2,
        Feature::Camera,
        None,
    ),
    (
        [
            (A, None, None),
            (B, None, Some("camera")),
            (A, None, None),
            (A, None, None),
        ],
        3,
        Feature::Camera,
        Some((LinkRule::Default, 3)),
    ),
    (
        [
            (A, None, None),
            (B, None, Some("camera")),
            (B, None, None),
            (A, None, Some("camera *")),
        ],
        4,
        Feature::Camera,
        None,
    ),
    (
        [
            (A, None, None),
            (A, None, Some("camera 'none'")),
            (A, None, None),
            (A, None, None),
        ],
        2,
        Feature::Camera,
        Some((LinkRule::Allow, 2)),
    ),
    (
        [
            (A, None, None),
            (B, None, Some("camera 'self'")),
            (B, None, None),
            (B, None, None),
        ],
        4,
        Feature::Camera,
        Some((LinkRule::Allow, 2)),
    ),
    (
        [
            (A, Some(""), None),
            (A, None, None),
            (A, None, None),
            (A, None, None),
        ],
        2,
        Feature::Camera,
        Some((LinkRule::EmbedderSelf, 1)),
    ),
];

const CHAINS_2: [([Doc; 4], usize, Feature, Option<(LinkRule, u32)>); 11] = [
    (
        [
            (A, Some("https://b.example"), None),
            (B, None, Some("camera")),
            (A, None, None),
            (A, None, None),
        ],
        2,
        Feature::Camera,
        Some((LinkRule::EmbedderSelf, 1)),
    ),
    (
        [
            (A, Some("self"), None),
            (B, None, Some("camera")),
            (A, None, None),
            (A, None, None),
        ],
        2,
        Feature::Camera,
        Some((LinkRule::EmbedderHeader, 1)),
    ),
    (
        [
            (A, Some("self https://b.example"), None),
            (B, None, Some("camera")),
            (A, None, None),
            (A, None, None),
        ],
        2,
        Feature::Camera,
        None,
    ),
    (
        [
            (A, Some("*"), None),
            (B, None, None),
            (A, None, None),
            (A, None, None),
        ],
        2,
        Feature::Camera,
        Some((LinkRule::Default, 2)),
    ),
    (
        [
            (A, Some("self"), None),
            (B, None, None),
            (A, None, None),
            (A, None, None),
        ],
        2,
        Feature::Camera,
        Some((LinkRule::EmbedderHeader, 1)),
    ),
    (
        [
            (A, Some("self"), None),
            (B, None, Some("camera 'none'")),
            (A, None, None),
            (A, None, None),
        ],
        2,
        Feature::Camera,
        Some((LinkRule::EmbedderHeader, 1)),
    ),
    (
        [
            (A, None, None),
            (B, Some(""), Some("camera")),
            (A, None, None),
            (A, None, None),
        ],
        2,
        Feature::Camera,
        Some((LinkRule::OwnHeader, 2)),
    ),
    (
        [
            (A, None, None),
            (B, Some(""), Some("camera")),
            (B, None, Some("camera")),
            (A, None, None),
        ],
        3,
        Feature::Camera,
        Some((LinkRule::EmbedderSelf, 2)),
    ),
    (
        [
            (A, None, None),
            (B, Some(""), Some("camera")),
            (B, None, Some("camera")),
            (A, None, None),
        ],
        4,
        Feature::Camera,
        Some((LinkRule::EmbedderSelf, 2)),
    ),
    (
        [
            (A, None, None),
            (B, Some(""), Some("camera 'none'")),
            (A, None, None),
            (A, None, None),
        ],
        2,
        Feature::Camera,
        Some((LinkRule::Allow, 2)),
    ),
    (
        [
            (A, None, None),
            (B, Some("self"), Some("camera")),
            (C, None, Some("camera")),
            (A, None, None),
        ],
        3,
        Feature::Camera,
        Some((LinkRule::EmbedderHeader, 2)),
    ),
];

const CHAINS_3: [([Doc; 4], usize, Feature, Option<(LinkRule, u32)>); 11] = [
    (
        [
            (A, None, None),
            (A, None, None),
            (A, None, None),
            (B, Some(""), None),
        ],
        4,
        Feature::Camera,
        Some((LinkRule::Default, 4)),
    ),
    (
        [
            (A, None, None),
            (A, None, None),
            (A, None, None),
            (A, Some(""), None),
        ],
        4,
        Feature::Camera,
        Some((LinkRule::OwnHeader, 4)),
    ),
    (
        [
            (A, None, None),
            (B, None, None),
            (B, None, Some("camera 'none'")),
            (B, Some(""), None),
        ],
        4,
        Feature::Camera,
        Some((LinkRule::Default, 2)),
    ),
    (
        [
            (A, None, None),
            (B, None, Some("camera")),
            (C, None, Some("camera 'none'")),
            (A, None, None),
        ],
        4,
        Feature::Camera,
        Some((LinkRule::Allow, 3)),
    ),
    (
        [
            (A, None, None),
            ("", None, Some("camera")),
            (A, None, None),
            (A, None, None),
        ],
        2,
        Feature::Camera,
        Some((LinkRule::Allow, 2)),
    ),
    (
        [
            (A, None, None),
            ("", None, Some("camera *")),
            ("", None, None),
            (A, None, None),
        ],
        3,
        Feature::Camera,
        Some((LinkRule::Default, 3)),
    ),
    (
        [
            (A, None, None),
            (B, None, None),
            (C, None, None),
            ("", None, None),
        ],
        4,
        Feature::PictureInPicture,
        None,
    ),
    (
        [
            (A, None, None),
            (B, None, Some("storage-access 'none'")),
            (C, None, None),
            (A, None, None),
        ],
        4,
        Feature::StorageAccess,
        Some((LinkRule::Allow, 2)),
    ),
    (
        [
            (A, Some("self"), None),
            (B, None, None),
            (C, None, None),
            (A, None, None),
        ],
        4,
        Feature::PictureInPicture,
        Some((LinkRule::EmbedderHeader, 1)),
    ),
    (
        [
            (A, Some(""), None),
            (B, Some(""), Some("push 'none'")),
            (C, None, None),
            (A, None, None),
        ],
        4,
        Feature::Push,
        None,
    ),
    (
        [
            (A, Some(""), None),
            (B, Some(""), None),
            (C, None, None),
            (A, Some(""), None),
        ],
        4,
        Feature::Notifications,
        None,
    ),
];

/// The origin of a URL, or for an empty text the opaque origin of the document.
fn origin(alloc: Global, url: &str, doc: DocNo) -> Result<Origin, PlaceFault> {
    if url == "" {
        return Ok(Origin::Opaque(doc));
    }
    let place = read_place(alloc, url.as_bytes())?;
    Ok(Origin::Tuple(place.tuple.ok_or(PlaceFault::NotAUrl)?))
}

/// The declared policy of a header that declares these words for the feature.
fn declared(
    alloc: Global,
    header: Option<&str>,
    own: &Origin,
    feature: Feature,
) -> Result<Declared, AllocError> {
    let Some(words) = header else {
        return Ok(Declared::empty());
    };
    let mut list = DeclaredList::empty(alloc);
    for word in words.split_whitespace() {
        if word == "*" {
            list.any = true;
        } else if word == "self" {
            list.own = true;
        } else if let Some(expression) = read_expression(alloc, word.as_bytes())? {
            list.expressions.push(expression)?;
        }
    }
    let mut lists = DeclaredLists::empty(alloc);
    lists.put(feature, list)?;
    Declared::of(alloc, own, lists)
}

/// The container policy of an attribute. Its declared origin is https://b.example.
fn container(
    alloc: Global,
    allow: Option<&str>,
    embedder: &Origin,
    doc: DocNo,
) -> Result<Container, PlaceFault> {
    let src = DeclaredOrigin::Known(origin(alloc, B, doc)?);
    let text = match allow {
        Some(text) => text.as_bytes(),
        None => b"",
    };
    match read_allow(alloc, Some(text), false, embedder, &src) {
        Ok(container) => Ok(container),
        Err(_) => Err(PlaceFault::Memory),
    }
}

/// The policy of a document below another, and its origin.
fn child(
    alloc: Global,
    parent: &Policy,
    embedder: &Origin,
    row: Doc,
    feature: Feature,
    doc: DocNo,
) -> Result<(Policy, Origin), PlaceFault> {
    let (url, header, allow) = row;
    let container = container(alloc, allow, embedder, doc)?;
    let own = origin(alloc, url, doc)?;
    let Ok(header) = declared(alloc, header, &own, feature) else {
        return Err(PlaceFault::Memory);
    };
    let policy = Policy::make_child(parent, embedder, &container, &own, header, doc);
    Ok((policy, own))
}

/// The policy of a top document, and its origin.
fn top(alloc: Global, row: Doc, feature: Feature) -> Result<(Policy, Origin), PlaceFault> {
    let (url, header, _) = row;
    let doc = DocNo::of(1);
    let own = origin(alloc, url, doc)?;
    let Ok(header) = declared(alloc, header, &own, feature) else {
        return Err(PlaceFault::Memory);
    };
    Ok((Policy::make_top(header, &own, doc), own))
}

/// Why the feature is denied in the last of the first so many documents.
fn denial_along(
    alloc: Global,
    docs: [Doc; 4],
    count: usize,
    feature: Feature,
) -> Result<Option<(LinkRule, u32)>, PlaceFault> {
    let (mut policy, mut own) = top(alloc, docs[0], feature)?;
    for i in 1..4 {
        if i < count {
            let doc = DocNo::of(i as u32 + 1);
            (policy, own) = child(alloc, &policy, &own, docs[i], feature, doc)?;
        }
    }
    Ok(
        policy
            .why(feature)
            .map(|denial| (denial.rule, denial.at.get())),
    )
}

#[test]
fn the_first_failing_test_is_named_in_the_first_chains(rt: HostRuntime) -> Result<(), Fail> {
    for (docs, count, feature, expected) in CHAINS_1 {
        let found = denial_along(rt.alloc(), docs, count, feature)?;
        assert_eq!(rt; found, expected, "{docs:?} {count} {feature:?}");
    }
    Ok(())
}

#[test]
fn the_first_failing_test_is_named_in_the_second_chains(rt: HostRuntime) -> Result<(), Fail> {
    for (docs, count, feature, expected) in CHAINS_2 {
        let found = denial_along(rt.alloc(), docs, count, feature)?;
        assert_eq!(rt; found, expected, "{docs:?} {count} {feature:?}");
    }
    Ok(())
}

#[test]
fn the_first_failing_test_is_named_in_the_third_chains(rt: HostRuntime) -> Result<(), Fail> {
    for (docs, count, feature, expected) in CHAINS_3 {
        let found = denial_along(rt.alloc(), docs, count, feature)?;
        assert_eq!(rt; found, expected, "{docs:?} {count} {feature:?}");
    }
    Ok(())
}

#[test]
fn the_tests_of_one_pair(rt: HostRuntime) -> Result<(), Fail> {
    let (top, doc) = (DocNo::of(1), DocNo::of(2));
    let a = origin(rt.alloc(), A, top)?;
    let b = origin(rt.alloc(), B, doc)?;
    let header = declared(rt.alloc(), Some("self"), &a, Feature::Camera)?;
    let refused = container(rt.alloc(), Some("camera 'none'"), &a, doc)?;
    let lacking = container(rt.alloc(), None, &a, doc)?;
    let empty = Declared::empty();
    let own = declared(rt.alloc(), Some(""), &b, Feature::Camera)?;
    assert_eq!(rt;
        first_link(&header, &a, &refused, &b, Feature::Camera),
        Some(LinkRule::EmbedderHeader)
    );
    assert_eq!(rt;
        first_link(&empty, &a, &refused, &b, Feature::Camera),
        Some(LinkRule::Allow)
    );
    assert_eq!(rt;
        first_link(&empty, &a, &lacking, &b, Feature::Camera),
        Some(LinkRule::Default)
    );
    assert_eq!(rt; first_link(&empty, &a, &lacking, &a, Feature::Camera), None);
    assert_eq!(rt;
        first_link(&own, &b, &lacking, &b, Feature::Camera),
        Some(LinkRule::EmbedderSelf)
    );
    assert_eq!(rt;
        own_link(&own, &b, Feature::Camera),
        Some(LinkRule::OwnHeader)
    );
    assert_eq!(rt; own_link(&own, &b, Feature::Midi), None);
    let parent = Policy::make_top(header, &a, top);
    let child = Policy::make_child(&parent, &a, &refused, &b, own, doc);
    let links = Links {
        embedder_header: true,
        allow: true,
        by_default: false,
        own_header: true,
    };
    assert_eq!(rt; child.links(Feature::Camera), links);
    let none = Links {
        embedder_header: false,
        allow: false,
        by_default: false,
        own_header: false,
    };
    assert_eq!(rt; parent.links(Feature::Camera), none);
    let grand = Policy::make_child(&child, &b, &lacking, &b, empty, doc);
    let header_alone = Links {
        embedder_header: true,
        allow: false,
        by_default: false,
        own_header: false,
    };
    assert_eq!(rt; grand.links(Feature::Camera), header_alone);
    Ok(())
}
