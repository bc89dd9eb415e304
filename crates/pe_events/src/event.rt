//! What a line of a script says.
use pe_base::{InputKind, State};
use pe_lines::{OptionalText, Text};

/// A content attribute of a frame element (HTML Standard, "the iframe element").
#[derive(Clone, Copy, Debug, PartialEq, Eq)]
pub enum AttrName {
    /// The address of the document.
    Src,
    /// A document given in the attribute itself.
    Srcdoc,
    /// The container policy.
    Allow,
    /// The sandbox, whose word `allow-same-origin` alone is looked at.
    Sandbox,
    /// Whether the frame may go full screen.
    Fullscreen,
}

/// How a prompt is answered.
#[derive(Clone, Copy, Debug, PartialEq, Eq)]
pub enum Outcome {
    /// The permission is granted.
    Allow,
    /// It is denied.
    Block,
    /// The user does not decide.
    Dismiss,
}

/// How long an answer holds.
#[derive(Clone, Copy, Debug, PartialEq, Eq)]
pub enum EventLife {
    /// It never ends.
    Forever,
    /// While the top document of the prompt's page is current.
    Once,
    /// So many milliseconds from the event's time, 1 to `TIME_LIMIT`.
    For(u64),
}

/// What a line of a script says. Objects are named by their numbers, which need not exist. Numbers are 1 to
/// `NAME_LIMIT`; each text is tabs and printable ASCII (`Fitting`). A `header` has the values of all
/// `Permissions-Policy` lines of the response, joined by `, ` (RFC 8941, 4.2); None without one.
#[derive(Drop)]
pub enum Event<'a> {
    /// A page is opened at a URL.
    OpenPage {
        url: Text<'a>,
        header: OptionalText<'a>,
    },
    /// A frame is embedded in the document of another, with its attributes. `place` is the document's
    /// URL; None where that is `src`, with `srcdoc`, and without `src`. With `srcdoc` there is no `header`
    /// either.
    Embed {
        parent: u32,
        src: OptionalText<'a>,
        place: OptionalText<'a>,
        allow: OptionalText<'a>,
        sandbox: OptionalText<'a>,
        fullscreen: bool,
        srcdoc: bool,
        header: OptionalText<'a>,
    },
    /// A frame is navigated to a URL.
    Navigate {
        frame: u32,
        url: Text<'a>,
        header: OptionalText<'a>,
    },
    /// An attribute of a frame is set, or removed where there is no value. Of `Srcdoc` and `Fullscreen`
    /// it only counts whether they stand.
    Attr {
        frame: u32,
        name: AttrName,
        value: OptionalText<'a>,
    },
    /// A frame is closed, with all below it.
    Close {
        frame: u32,
    },
    /// The user gives an input in a frame.
    Input {
        frame: u32,
        kind: InputKind,
    },
    /// The activation of a frame's document is asked for.
    Ask {
        frame: u32,
    },
    /// A frame's document takes a history action, which consumes the page's history-action activation.
    History {
        frame: u32,
    },
    /// It is asked whether a frame's document is allowed to use a feature.
    PolicyOf {
        frame: u32,
        feature: Text<'a>,
    },
    /// The features that a frame's document is allowed to use are asked for.
    Features {
        frame: u32,
    },
    /// A frame's document makes a call.
    UseCall {
        frame: u32,
        call: Text<'a>,
    },
    /// A frame's document queries a permission, which makes a status object.
    Query {
        frame: u32,
        feature: Text<'a>,
    },
    /// A status object is dropped.
    DropStatus {
        status: u32,
    },
    /// A frame's document requests a permission.
    Request {
        frame: u32,
        feature: Text<'a>,
    },
    /// The user answers the shown prompt. The life of a dismissal is `Forever`.
    Answered {
        prompt: u32,
        outcome: Outcome,
        life: EventLife,
    },
    /// A permission is set. `first` is the origin of the top document, as a URL of http, https, ws, wss or
    /// ftp; `second`, given exactly for `storage-access`, is the document's own. `span` is 1 to `TIME_LIMIT`
    /// milliseconds; None is forever.
    SetState {
        feature: Text<'a>,
        first: Text<'a>,
        second: OptionalText<'a>,
        state: State,
        span: Option<u64>,
    },
    /// A frame's document posts a message that delegates a capability to another's. An origin is a URL as
    /// in `SetState`; None is `*`, which is denied as `TargetAny`.
    Post {
        sender: u32,
        target: u32,
        origin: OptionalText<'a>,
        capability: Text<'a>,
    },
    /// A posted message is delivered.
    Deliver {
        message: u32,
    },
    /// Time goes on.
    Tick,
}
