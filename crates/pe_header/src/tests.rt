//! What no contract says: that there is memory, and that the definitions read the worked examples as
//! they should.
use crate::read_header;
use pe_base::DocNo;
use pe_features::Feature;
use pe_origin::{Origin, PlaceFault, read_place};
use std::alloc::Global;
use std::test::Fail;

/// A header, a feature, an origin, and whether the declared list of the feature matches the origin, or
/// None where the feature is not declared. The document is https://a.example, and an empty text stands
/// for an opaque origin.
const HEADERS: [(Option<&str>, Feature, &str, Option<bool>); 31] = [
    (None, Feature::Camera, "https://a.example", None),
    (Some(""), Feature::Camera, "https://a.example", None),
    (
        Some("camera=()"),
        Feature::Camera,
        "https://a.example",
        Some(false),
    ),
    (
        Some("camera=()"),
        Feature::Microphone,
        "https://a.example",
        None,
    ),
    (Some("camera=*"), Feature::Camera, "", Some(true)),
    (
        Some("camera=self"),
        Feature::Camera,
        "https://a.example",
        Some(true),
    ),
    (
        Some("camera=self"),
        Feature::Camera,
        "https://b.example",
        Some(false),
    ),
    (
        Some("camera=(), camera=*"),
        Feature::Camera,
        "https://b.example",
        Some(true),
    ),
    (
        Some("camera=(),"),
        Feature::Camera,
        "https://a.example",
        None,
    ),
    (
        Some("camera=(), , midi=*"),
        Feature::Camera,
        "https://a.example",
        None,
    ),
    (
        Some("camera=(), camera=1"),
        Feature::Camera,
        "https://a.example",
        None,
    ),
    (Some("camera"), Feature::Camera, "https://a.example", None),
    (
        Some("camera=none"),
        Feature::Camera,
        "https://a.example",
        None,
    ),
    (
        Some("camera=SELF"),
        Feature::Camera,
        "https://a.example",
        None,
    ),
    (
        Some("camera=?1, midi=*"),
        Feature::Midi,
        "https://b.example",
        Some(true),
    ),
    (
        Some("camera=\"nonsense\""),
        Feature::Camera,
        "https://a.example",
        Some(false),
    ),
    (
        Some("camera=\"https://b.example/x\""),
        Feature::Camera,
        "https://b.example",
        Some(true),
    ),
    (
        Some("camera=\"https://b.example\";report-to=x"),
        Feature::Camera,
        "https://b.example",
        Some(true),
    ),
    (
        Some("camera=\"*\""),
        Feature::Camera,
        "https://b.example",
        Some(false),
    ),
    (
        Some("camera=\"https://*.b.example\""),
        Feature::Camera,
        "https://x.b.example",
        Some(true),
    ),
    (
        Some("camera=\"https://*.b.example\""),
        Feature::Camera,
        "https://b.example",
        Some(false),
    ),
    (
        Some("payment=(self \"https://pay.example\"), camera=()"),
        Feature::Payment,
        "https://a.example",
        Some(true),
    ),
    (
        Some("payment=(self \"https://pay.example\"), camera=()"),
        Feature::Payment,
        "https://pay.example",
        Some(true),
    ),
    (
        Some("payment=(self \"https://pay.example\"), camera=()"),
        Feature::Payment,
        "https://b.example",
        Some(false),
    ),
    (
        Some("camera=(1 none ?0 self;a=2 1.5 :YQ==:)"),
        Feature::Camera,
        "https://a.example",
        Some(true),
    ),
    (
        Some("camera=(self \"nonsense\" \"https://b.example\")"),
        Feature::Camera,
        "https://b.example",
        Some(true),
    ),
    (
        Some("camera=(none);report-to=x"),
        Feature::Camera,
        "https://a.example",
        Some(false),
    ),
    (Some("push=*"), Feature::Push, "https://a.example", None),
    (
        Some("notifications=*, camera=*"),
        Feature::Notifications,
        "https://a.example",
        None,
    ),
    (Some("Camera=*"), Feature::Camera, "https://a.example", None),
    (
        Some("storage-access=*;x, picture-in-picture=()"),
        Feature::StorageAccess,
        "",
        Some(true),
    ),
];

/// The origin of a URL, or for an empty text the opaque origin of document 7.
fn origin(alloc: Global, url: &str) -> Result<Origin, PlaceFault> {
    if url == "" {
        return Ok(Origin::Opaque(DocNo::of(7)));
    }
    let place = read_place(alloc, url.as_bytes())?;
    Ok(Origin::Tuple(place.tuple.ok_or(PlaceFault::NotAUrl)?))
}

#[test]
fn headers_are_read(rt: HostRuntime) -> Result<(), Fail> {
    let own = origin(rt.alloc(), "https://a.example")?;
    for (header, feature, url, expected) in HEADERS {
        let field = match header {
            Some(text) => Some(text.as_bytes()),
            None => None,
        };
        let declared = read_header(rt.alloc(), field, &own)?;
        let other = origin(rt.alloc(), url)?;
        assert_eq!(rt;
            declared.matches(feature, &other),
            expected,
            "{header:?} at {url}"
        );
    }
    Ok(())
}

/// A header of 15,013 bytes, whose last member of a key counts.
#[test]
fn a_large_header_is_read(rt: HostRuntime) -> Result<(), Fail> {
    let own = origin(rt.alloc(), "https://a.example")?;
    let other = origin(rt.alloc(), "https://b.example")?;
    let mut field = Vec::new(rt.alloc());
    for _ in 0..500 {
        field.extend_from_slice(b"camera=(\"https://b.example\"), ")?;
    }
    field.extend_from_slice(b"camera=(self)")?;
    assert_eq!(rt; field.len(), 15_013);
    let declared = read_header(rt.alloc(), Some(field.as_slice()), &own)?;
    assert_eq!(rt; declared.matches(Feature::Camera, &own), Some(true));
    assert_eq!(rt; declared.matches(Feature::Camera, &other), Some(false));
    Ok(())
}
