//! Features.
ghost use Rattle.std.specs.Prelude.{◌≡◌, ◌≢◌, ◌↔◌, ◌<◌, IsTrue, All, slice_get};
ghost use Rattle.pe_features.specs.Features.{
  feature_name,
  feature_number,
  default_of,
  key_of,
  all_features,
  feature_named,
  is_name_byte,
};
ghost use Rattle.pe_features.specs.declared.feature.Feature.{Feature};

use crate::named::{Named, row_named};

/// A feature that a page may ask to use, in the order of the table. It is policy-controlled where it
/// has a default allowlist (Permissions Policy, "policy-controlled feature"), and powerful where it
/// has a permission key (Permissions, "powerful feature").
#[derive(Clone, Copy, Debug, PartialEq, Eq, PartialOrd, Ord, Hash)]
pub enum Feature {
    /// `accelerometer`.
    Accelerometer,
    /// `autoplay`.
    Autoplay,
    /// `camera`.
    Camera,
    /// `clipboard-read`.
    ClipboardRead,
    /// `clipboard-write`.
    ClipboardWrite,
    /// `display-capture`.
    DisplayCapture,
    /// `fullscreen`.
    Fullscreen,
    /// `geolocation`.
    Geolocation,
    /// `gyroscope`.
    Gyroscope,
    /// `microphone`.
    Microphone,
    /// `midi`.
    Midi,
    /// `notifications`.
    Notifications,
    /// `payment`.
    Payment,
    /// `picture-in-picture`.
    PictureInPicture,
    /// `push`.
    Push,
    /// `storage-access`.
    StorageAccess,
}

/// A default allowlist (Permissions Policy, "default allowlist").
#[derive(Clone, Copy, Debug, PartialEq, Eq, PartialOrd, Ord, Hash)]
pub enum DefaultList {
    /// `*`: the feature is allowed in documents of every origin.
    Any,
    /// `'self'`: it is allowed in a top document, and in a child of its embedder's origin.
    OwnOrigin,
}

/// What a permission is stored under (Permissions, "permission key").
#[derive(Clone, Copy, Debug, PartialEq, Eq, PartialOrd, Ord, Hash)]
pub enum KeyKind {
    /// The origin of the page's top document.
    Single,
    /// That origin and the document's own.
    Pair,
}

impl Feature {
    /// Every feature, in the order of the table.
    pub const ALL: [Feature; 16] = [
        Feature::Accelerometer,
        Feature::Autoplay,
        Feature::Camera,
        Feature::ClipboardRead,
        Feature::ClipboardWrite,
        Feature::DisplayCapture,
        Feature::Fullscreen,
        Feature::Geolocation,
        Feature::Gyroscope,
        Feature::Microphone,
        Feature::Midi,
        Feature::Notifications,
        Feature::Payment,
        Feature::PictureInPicture,
        Feature::Push,
        Feature::StorageAccess,
    ];

    /// The feature of this name, compared byte for byte.
    pub fn by_name(text: &[u8]) -> Option<Feature>
        ensures table { result ≡ feature_named text.now }
        ensures found { (f : Feature) → (result ≡ Some f) ↔ (text.now ≡ feature_name f) }
        ensures unknown { (result ≡ None) ↔ ((f : Feature) → text.now ≢ feature_name f) }
    {
        row_named(&Feature::ALL, text)
    }

    /// The feature's name, as scripts, headers and `allow` attributes write it: lower-case letters and
    /// dashes.
    pub fn name(self) -> &'static str
        ensures name { result.now ≡ feature_name self }
        ensures bare { All (λ b. IsTrue (is_name_byte b)) result.now }
        ensures distinct { (f : Feature) → result.now ≡ feature_name f → f ≡ self }
    {
        match self {
            Feature::Accelerometer => "accelerometer",
            Feature::Autoplay => "autoplay",
            Feature::Camera => "camera",
            Feature::ClipboardRead => "clipboard-read",
            Feature::ClipboardWrite => "clipboard-write",
            Feature::DisplayCapture => "display-capture",
            Feature::Fullscreen => "fullscreen",
            Feature::Geolocation => "geolocation",
            Feature::Gyroscope => "gyroscope",
            Feature::Microphone => "microphone",
            Feature::Midi => "midi",
            Feature::Notifications => "notifications",
            Feature::Payment => "payment",
            Feature::PictureInPicture => "picture-in-picture",
            Feature::Push => "push",
            Feature::StorageAccess => "storage-access",
        }
    }

    /// The feature's place in the table, from 0.
    pub fn index(self) -> usize
        ensures number { result ≡ feature_number self }
        ensures within { result < 16 }
        ensures place { slice_get Feature.ALL result ≡ Some self }
        ensures row { slice_get all_features result ≡ Some self }
    {
        self as usize
    }

    /// The feature's default allowlist; None for a feature that is not policy-controlled.
    pub fn default_of(self) -> Option<DefaultList>
        ensures { result ≡ default_of self }
    {
        match self {
            Feature::Notifications | Feature::Push => None,
            Feature::PictureInPicture | Feature::StorageAccess => Some(DefaultList::Any),
            Feature::Accelerometer
            | Feature::Autoplay
            | Feature::Camera
            | Feature::ClipboardRead
            | Feature::ClipboardWrite
            | Feature::DisplayCapture
            | Feature::Fullscreen
            | Feature::Geolocation
            | Feature::Gyroscope
            | Feature::Microphone
            | Feature::Midi
            | Feature::Payment => Some(DefaultList::OwnOrigin),
        }
    }

    /// What the feature's permission is stored under; None for a feature without a permission.
    pub fn key_kind(self) -> Option<KeyKind>
        ensures { result ≡ key_of self }
    {
        match self {
            Feature::StorageAccess => Some(KeyKind::Pair),
            Feature::Accelerometer
            | Feature::Camera
            | Feature::ClipboardRead
            | Feature::ClipboardWrite
            | Feature::Geolocation
            | Feature::Gyroscope
            | Feature::Microphone
            | Feature::Midi
            | Feature::Notifications
            | Feature::Push => Some(KeyKind::Single),
            Feature::Autoplay
            | Feature::DisplayCapture
            | Feature::Fullscreen
            | Feature::Payment
            | Feature::PictureInPicture => None,
        }
    }
}

impl Named for Feature {
    ghost name_of = { feature_name };

    fn name(self) -> &'static str {
        self.name()
    }
}
