//! Kinds of user input, and the stamp that activation leaves.
use crate::time::Millis;

/// A kind of input, in the order of the script's table. Which kinds are activation triggering
/// (HTML Standard, "activation triggering input event") says `triggers` in `specs/Activation`.
#[derive(Clone, Copy, Debug, PartialEq, Eq, PartialOrd, Ord, Hash)]
pub enum InputKind {
    /// A key went down that is neither Escape nor reserved by the browser.
    Keydown,
    /// The Escape key went down.
    KeydownEscape,
    /// A key went down that the browser keeps for itself.
    KeydownReserved,
    /// A mouse button went down.
    Mousedown,
    /// The mouse moved.
    Mousemove,
    /// A pointer of type mouse went down.
    PointerdownMouse,
    /// A pen went down.
    PointerdownPen,
    /// A finger went down.
    PointerdownTouch,
    /// A pointer of type mouse went up.
    PointerupMouse,
    /// A pen went up.
    PointerupPen,
    /// A finger went up.
    PointerupTouch,
    /// A touch ended.
    Touchend,
}

/// When a document was last activated (HTML Standard, "last activation timestamp", and for a second
/// stamp "last history-action activation timestamp"). A second stamp is the copy that a history action
/// took of the first, and `Never` where none did. What stamps say of sticky, transient and history-action
/// activation say `is_sticky`, `is_transient` and `is_history_active` in `specs/Activation`.
#[derive(Clone, Copy, Debug, PartialEq, Eq)]
pub enum Stamp {
    /// No input activated the document.
    Never,
    /// It was activated, and its activation was consumed since.
    Consumed,
    /// At this time, and not consumed since.
    At(Millis),
}
