//! Calls and what each wants.
ghost use Rattle.std.specs.Prelude.{◌≡◌, ◌≢◌, ◌↔◌, IsTrue, IsSome, IfSome, IsSomeAnd};
ghost use Rattle.pe_features.specs.Calls.{call_name, call_named, gate_of};
ghost use Rattle.pe_features.specs.Capabilities.{feature_of};
ghost use Rattle.pe_features.specs.Features.{key_of};
ghost use Rattle.pe_features.specs.declared.call.Call.{Call};

use crate::capability::Capability;
use crate::feature::Feature;
use crate::named::{Named, row_named};

/// A call that a page may make, in the order of the table. Each stands for a call of a web API; `getUserMedia`
/// with video and audio is two.
#[derive(Clone, Copy, Debug, PartialEq, Eq, PartialOrd, Ord, Hash)]
pub enum Call {
    /// `get-position`: Geolocation, `getCurrentPosition` and `watchPosition`.
    GetPosition,
    /// `get-user-media-camera`: Media Capture and Streams, `getUserMedia` with video.
    GetUserMediaCamera,
    /// `get-user-media-microphone`: Media Capture and Streams, `getUserMedia` with audio.
    GetUserMediaMicrophone,
    /// `get-display-media`: Screen Capture, `getDisplayMedia`.
    GetDisplayMedia,
    /// `request-fullscreen`: Fullscreen API, `requestFullscreen`.
    RequestFullscreen,
    /// `show-payment`: Payment Request API, `show`.
    ShowPayment,
    /// `clipboard-read-text`: Clipboard API, `readText`.
    ClipboardReadText,
    /// `clipboard-write-text`: Clipboard API, `writeText`.
    ClipboardWriteText,
    /// `play-audio`: HTML Standard, `play` of a media element that is heard.
    PlayAudio,
    /// `vibrate`: Vibration API, `vibrate`.
    Vibrate,
    /// `open-window`: HTML Standard, `window.open`.
    OpenWindow,
    /// `show-notification`: Notifications API, `new Notification` and `showNotification`.
    ShowNotification,
    /// `request-picture-in-picture`: Picture-in-Picture, `requestPictureInPicture`.
    RequestPictureInPicture,
    /// `request-storage-access`: Storage Access API, `requestStorageAccess`.
    RequestStorageAccess,
}

/// The user activation that a call needs (HTML Standard, "APIs gated by user activation").
#[derive(Clone, Copy, Debug, PartialEq, Eq, PartialOrd, Ord, Hash)]
pub enum Need {
    /// None.
    Nothing,
    /// Sticky activation.
    Sticky,
    /// Transient activation.
    Transient,
}

/// What a call wants of the document that makes it.
#[derive(Clone, Copy, Debug, PartialEq, Eq, PartialOrd, Ord, Hash)]
pub struct Gate {
    /// Whether the document has to be in a secure context.
    pub secure: bool,
    /// The feature that has to be allowed in the document, if any.
    pub feature: Option<Feature>,
    /// Whether that feature's permission state has to be granted.
    pub permission: bool,
    /// The user activation that is needed.
    pub need: Need,
    /// Whether transient activation that meets the need is consumed.
    pub consumes: bool,
    /// The delegated capability that meets the need in place of transient activation, if any.
    pub capability: Option<Capability>,
}

impl Call {
    // Every call, in the order of the table.
    const ALL: [Call; 14] = [
        Call::GetPosition,
        Call::GetUserMediaCamera,
        Call::GetUserMediaMicrophone,
        Call::GetDisplayMedia,
        Call::RequestFullscreen,
        Call::ShowPayment,
        Call::ClipboardReadText,
        Call::ClipboardWriteText,
        Call::PlayAudio,
        Call::Vibrate,
        Call::OpenWindow,
        Call::ShowNotification,
        Call::RequestPictureInPicture,
        Call::RequestStorageAccess,
    ];

    /// The call of this name, compared byte for byte.
    pub fn by_name(text: &[u8]) -> Option<Call>
        ensures table { result ≡ call_named text.now }
        ensures found { (c : Call) → (result ≡ Some c) ↔ (text.now ≡ call_name c) }
        ensures unknown { (result ≡ None) ↔ ((c : Call) → text.now ≢ call_name c) }
    {
        row_named(&Call::ALL, text)
    }

    /// The call's name, as scripts write it: lower-case letters and dashes.
    pub fn name(self) -> &'static str
        ensures name { result.now ≡ call_name self }
        ensures distinct { (c : Call) → result.now ≡ call_name c → c ≡ self }
    {
        match self {
            Call::GetPosition => "get-position",
            Call::GetUserMediaCamera => "get-user-media-camera",
            Call::GetUserMediaMicrophone => "get-user-media-microphone",
            Call::GetDisplayMedia => "get-display-media",
            Call::RequestFullscreen => "request-fullscreen",
            Call::ShowPayment => "show-payment",
            Call::ClipboardReadText => "clipboard-read-text",
            Call::ClipboardWriteText => "clipboard-write-text",
            Call::PlayAudio => "play-audio",
            Call::Vibrate => "vibrate",
            Call::OpenWindow => "open-window",
            Call::ShowNotification => "show-notification",
            Call::RequestPictureInPicture => "request-picture-in-picture",
            Call::RequestStorageAccess => "request-storage-access",
        }
    }

    /// What the call wants: its row of the table.
    pub fn gate_of(self) -> Gate
        ensures row { result ≡ gate_of self }

        // A permission is that of a powerful feature.
        ensures powerful { IsTrue result.permission → IsSomeAnd result.feature (λ f. IsSome (key_of f)) }

        // Only transient activation is consumed.
        ensures consuming { IsTrue result.consumes → result.need ≡ Need.Transient }

        // A capability is that of the call's feature, and stands in for transient activation.
        ensures delegated { IfSome result.capability (λ c. result.feature ≡ Some (feature_of c)) }
        ensures stands_in { IsSome result.capability → result.need ≡ Need.Transient }
    {
        Gate {
            secure: self.wants_secure_context(),
            feature: self.feature(),
            permission: self.wants_permission(),
            need: self.need(),
            consumes: self.consumes(),
            capability: self.capability(),
        }
    }
}

// The columns of the table, each for itself.
#[tactic(auto, unfolding(crate::specs::Calls::gate_of))]
impl Call {
    // Whether the call wants a secure context.
    fn wants_secure_context(self) -> bool
        ensures { result ≡ (gate_of self).secure }
    {
        !matches!(
            self,
            Call::RequestFullscreen
                | Call::PlayAudio
                | Call::Vibrate
                | Call::OpenWindow
                | Call::RequestPictureInPicture
        )
    }

    // The feature that the call is about.
    fn feature(self) -> Option<Feature>
        ensures { result ≡ (gate_of self).feature }
    {
        match self {
            Call::GetPosition => Some(Feature::Geolocation),
            Call::GetUserMediaCamera => Some(Feature::Camera),
            Call::GetUserMediaMicrophone => Some(Feature::Microphone),
            Call::GetDisplayMedia => Some(Feature::DisplayCapture),
            Call::RequestFullscreen => Some(Feature::Fullscreen),
            Call::ShowPayment => Some(Feature::Payment),
            Call::ClipboardReadText => Some(Feature::ClipboardRead),
            Call::ClipboardWriteText => Some(Feature::ClipboardWrite),
            Call::PlayAudio => Some(Feature::Autoplay),
            Call::ShowNotification => Some(Feature::Notifications),
            Call::RequestPictureInPicture => Some(Feature::PictureInPicture),
            Call::RequestStorageAccess => Some(Feature::StorageAccess),
            Call::Vibrate | Call::OpenWindow => None,
        }
    }

    // Whether the call wants the permission of its feature.
    fn wants_permission(self) -> bool
        ensures { result ≡ (gate_of self).permission }
    {
        matches!(
            self,
            Call::GetPosition
                | Call::GetUserMediaCamera
                | Call::GetUserMediaMicrophone
                | Call::ClipboardReadText
                | Call::ShowNotification
                | Call::RequestStorageAccess
        )
    }

    // The user activation that the call needs.
    fn need(self) -> Need
        ensures { result ≡ (gate_of self).need }
    {
        match self {
            Call::GetPosition
            | Call::GetUserMediaCamera
            | Call::GetUserMediaMicrophone
            | Call::ShowNotification => Need::Nothing,
            Call::PlayAudio | Call::Vibrate => Need::Sticky,
            Call::GetDisplayMedia
            | Call::RequestFullscreen
            | Call::ShowPayment
            | Call::ClipboardReadText
            | Call::ClipboardWriteText
            | Call::OpenWindow
            | Call::RequestPictureInPicture
            | Call::RequestStorageAccess => Need::Transient,
        }
    }

    // Whether the call consumes the transient activation that it was met by.
    fn consumes(self) -> bool
        ensures { result ≡ (gate_of self).consumes }
    {
        matches!(
            self,
            Call::RequestFullscreen | Call::ShowPayment | Call::OpenWindow
        )
    }

    // The capability that stands in for transient activation.
    fn capability(self) -> Option<Capability>
        ensures { result ≡ (gate_of self).capability }
    {
        match self {
            Call::GetDisplayMedia => Some(Capability::DisplayCapture),
            Call::RequestFullscreen => Some(Capability::Fullscreen),
            Call::ShowPayment => Some(Capability::Payment),
            _ => None,
        }
    }
}

impl Named for Call {
    ghost name_of = { call_name };

    fn name(self) -> &'static str {
        self.name()
    }
}
