//! What no contract says: that there is memory, and that the definitions read the worked examples as
//! they should.
use crate::{
    Container, Declared, DeclaredList, DeclaredLists, DeclaredOrigin, Expressions, read_allow,
    read_expression,
};
use pe_base::DocNo;
use pe_features::Feature;
use pe_origin::{Origin, PlaceFault, origin_text, read_place};
use std::alloc::Global;
use std::test::Fail;

/// Texts, and the origin and wildness of the expression that they are.
const EXPRESSIONS: [(&str, Option<(bool, &str)>); 14] = [
    ("https://pay.example", Some((false, "https://pay.example"))),
    (
        "https://pay.example/path?q",
        Some((false, "https://pay.example")),
    ),
    (
        "http://pay.example:8080",
        Some((false, "http://pay.example:8080")),
    ),
    ("https://*.pay.example", Some((true, "https://pay.example"))),
    (
        "wss://*.pay.example:444/x",
        Some((true, "wss://pay.example:444")),
    ),
    ("http://*.localhost", Some((true, "http://localhost"))),
    ("http://*.127.0.0.1", None),
    ("http://*.[::1]", None),
    ("https://*.", None),
    ("https://x*.example", Some((false, "https://x*.example"))),
    (
        "https:*.pay.example",
        Some((false, "https://*.pay.example")),
    ),
    ("data:x", None),
    ("about:blank", None),
    ("pay.example", None),
];

/// An `allow` attribute, whether `fullscreen` stands, the declared origin, a feature, an origin, and
/// whether the feature's list matches the origin, or None where the map lacks the feature. The embedder
/// is https://a.example; an empty text stands for an opaque origin, and `Opaque` is written `?`.
const ATTRIBUTES: [(Option<&str>, bool, &str, Feature, &str, Option<bool>); 31] = [
    (
        None,
        false,
        "https://b.example",
        Feature::Camera,
        "https://b.example",
        None,
    ),
    (
        Some(""),
        false,
        "https://b.example",
        Feature::Camera,
        "https://b.example",
        None,
    ),
    (
        Some("camera"),
        false,
        "https://b.example",
        Feature::Camera,
        "https://b.example",
        Some(true),
    ),
    (
        Some("camera"),
        false,
        "https://c.example",
        Feature::Camera,
        "https://b.example",
        Some(false),
    ),
    (
        Some("camera"),
        false,
        "https://b.example",
        Feature::Payment,
        "https://b.example",
        None,
    ),
    (
        Some("payment 'src'; fullscreen"),
        false,
        "https://b.example",
        Feature::Payment,
        "https://b.example",
        Some(true),
    ),
    (
        Some("payment 'src'; fullscreen"),
        false,
        "https://b.example",
        Feature::Fullscreen,
        "https://b.example",
        Some(true),
    ),
    (
        Some("camera 'self'"),
        false,
        "https://b.example",
        Feature::Camera,
        "https://a.example",
        Some(true),
    ),
    (
        Some("camera 'self'"),
        false,
        "https://b.example",
        Feature::Camera,
        "https://b.example",
        Some(false),
    ),
    (
        Some("camera self"),
        false,
        "https://b.example",
        Feature::Camera,
        "https://a.example",
        Some(false),
    ),
    (
        Some("camera *"),
        false,
        "https://b.example",
        Feature::Camera,
        "",
        Some(true),
    ),
    (
        Some("camera 'none'"),
        false,
        "https://b.example",
        Feature::Camera,
        "https://b.example",
        Some(false),
    ),
    (
        Some("camera 'self' 'none'"),
        false,
        "https://b.example",
        Feature::Camera,
        "https://a.example",
        Some(true),
    ),
    (
        Some("camera 'SELF'"),
        false,
        "https://b.example",
        Feature::Camera,
        "https://a.example",
        Some(true),
    ),
    (
        Some("camera 'Src'"),
        false,
        "https://b.example",
        Feature::Camera,
        "https://b.example",
        Some(true),
    ),
    (
        Some("Camera *"),
        false,
        "https://b.example",
        Feature::Camera,
        "https://b.example",
        None,
    ),
    (
        Some("camera 'none'; camera"),
        false,
        "https://b.example",
        Feature::Camera,
        "https://b.example",
        Some(true),
    ),
    (
        Some("camera; camera 'none'"),
        false,
        "https://b.example",
        Feature::Camera,
        "https://b.example",
        Some(false),
    ),
    (
        Some(" ;; what *;\tcamera\x0C*\r\n; "),
        false,
        "https://b.example",
        Feature::Camera,
        "https://c.example",
        Some(true),
    ),
    (
        Some("push *"),
        false,
        "https://b.example",
        Feature::Push,
        "https://b.example",
        None,
    ),
    (
        Some("payment https://*.pay.example"),
        false,
        "https://b.example",
        Feature::Payment,
        "https://x.pay.example",
        Some(true),
    ),
    (
        Some("payment https://*.pay.example"),
        false,
        "https://b.example",
        Feature::Payment,
        "https://pay.example",
        Some(false),
    ),
    (
        Some("payment https://*.pay.example"),
        false,
        "https://b.example",
        Feature::Payment,
        "https://x.pay.example:444",
        Some(false),
    ),
    (
        Some("payment https://*.pay.example"),
        false,
        "https://b.example",
        Feature::Payment,
        "http://x.pay.example",
        Some(false),
    ),
    (
        Some("payment https://pay.example"),
        false,
        "https://b.example",
        Feature::Payment,
        "https://pay.example:444",
        Some(false),
    ),
    (Some("camera"), false, "?", Feature::Camera, "", Some(true)),
    (
        Some("camera"),
        false,
        "?",
        Feature::Camera,
        "https://b.example",
        Some(false),
    ),
    (Some("camera"), false, "", Feature::Camera, "", Some(true)),
    (
        Some("camera"),
        true,
        "https://c.example",
        Feature::Fullscreen,
        "https://b.example",
        Some(true),
    ),
    (
        Some("fullscreen 'none'"),
        true,
        "https://b.example",
        Feature::Fullscreen,
        "https://b.example",
        Some(false),
    ),
    (
        Some("what; Fullscreen 'none'"),
        true,
        "https://b.example",
        Feature::Fullscreen,
        "",
        Some(true),
    ),
];

/// The origin of a URL, or for an empty text the opaque origin of document 7.
fn origin(alloc: Global, url: &str) -> Result<Origin, PlaceFault> {
    if url == "" {
        return Ok(Origin::Opaque(DocNo::of(7)));
    }
    let place = read_place(alloc, url.as_bytes())?;
    Ok(Origin::Tuple(place.tuple.ok_or(PlaceFault::NotAUrl)?))
}

fn declared_origin(alloc: Global, url: &str) -> Result<DeclaredOrigin, PlaceFault> {
    if url == "?" {
        return Ok(DeclaredOrigin::Opaque);
    }
    Ok(DeclaredOrigin::Known(origin(alloc, url)?))
}

/// Whether the feature's list matches the origin; None where the map lacks the feature.
fn admits(container: &Container, feature: Feature, origin: &Origin) -> Option<bool> {
    let list = container.get(feature)?;
    Some(list.matches(origin))
}

#[test]
fn expressions_are_read(rt: HostRuntime) -> Result<(), Fail> {
    for (text, expected) in EXPRESSIONS {
        match (read_expression(rt.alloc(), text.as_bytes())?, expected) {
            (Some(found), Some((wild, url))) => {
                assert_eq!(rt; found.wild, wild, "{text}");
                let shown = origin_text(rt.alloc(), &Origin::Tuple(found.tuple))?;
                assert_eq!(rt; shown.as_slice(), url.as_bytes(), "{text}");
            }
            (found, expected) => {
                assert_eq!(rt; found.is_some(), expected.is_some(), "{text}");
            }
        }
    }
    Ok(())
}

#[test]
fn attributes_are_read(rt: HostRuntime) -> Result<(), Fail> {
    let embedder = origin(rt.alloc(), "https://a.example")?;
    for (allow, fullscreen, declared, feature, url, expected) in ATTRIBUTES {
        let declared = declared_origin(rt.alloc(), declared)?;
        let text = match allow {
            Some(text) => Some(text.as_bytes()),
            None => None,
        };
        let container = read_allow(rt.alloc(), text, fullscreen, &embedder, &declared)?;
        let other = origin(rt.alloc(), url)?;
        assert_eq!(rt;
            admits(&container, feature, &other),
            expected,
            "{allow:?} at {url}"
        );
    }
    Ok(())
}

#[test]
fn a_list_replaces_the_earlier(rt: HostRuntime) -> Result<(), Fail> {
    let own = origin(rt.alloc(), "https://a.example")?;
    let other = origin(rt.alloc(), "https://b.example")?;
    let empty = Declared::empty();
    assert_eq!(rt; empty.matches(Feature::Camera, &own), None);
    let mut lists = DeclaredLists::empty(rt.alloc());
    lists.put(Feature::Midi, DeclaredList::empty(rt.alloc()))?;
    let mut list = DeclaredList::empty(rt.alloc());
    list.own = true;
    lists.put(Feature::Camera, list)?;
    let mut list = DeclaredList::empty(rt.alloc());
    if let Some(expression) = read_expression(rt.alloc(), b"https://b.example")? {
        list.expressions.push(expression)?;
    }
    assert_eq!(rt; list.expressions.as_slice().len(), 1);
    lists.put(Feature::Camera, list)?;
    let mut list = DeclaredList::empty(rt.alloc());
    list.own = true;
    lists.put(Feature::Autoplay, list)?;
    let declared = Declared::of(rt.alloc(), &own, lists)?;
    assert_eq!(rt; declared.matches(Feature::Camera, &own), Some(false));
    assert_eq!(rt; declared.matches(Feature::Camera, &other), Some(true));
    assert_eq!(rt; declared.matches(Feature::Autoplay, &own), Some(true));
    assert_eq!(rt; declared.matches(Feature::Autoplay, &other), Some(false));
    assert_eq!(rt; declared.matches(Feature::Midi, &own), Some(false));
    assert_eq!(rt; declared.matches(Feature::Payment, &own), None);
    assert!(rt; Expressions::of(Vec::new(rt.alloc())).as_slice().is_empty());
    Ok(())
}
