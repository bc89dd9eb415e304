//! What an input and a stamp mean.
ghost use Rattle.std.specs.Prelude.{◌≡◌};
ghost use Rattle.pe_base.specs.Activation as activation;
ghost use Rattle.pe_base.specs.declared.input.Stamp.TheVariants as kind;

use pe_base::{InputKind, Millis, Stamp};

/// Whether an input of this kind activates the document that it comes to (HTML Standard, "activation
/// triggering input event").
pub fn triggers(kind: InputKind) -> bool
    ensures { result ≡ activation.triggers kind }
{
    matches!(
        kind,
        InputKind::Keydown
            | InputKind::Mousedown
            | InputKind::PointerdownMouse
            | InputKind::PointerupPen
            | InputKind::PointerupTouch
            | InputKind::Touchend
    )
}

/// Whether a document with this stamp has sticky activation: whether it was ever activated.
pub fn sticky(stamp: Stamp) -> bool
    ensures { result ≡ activation.is_sticky stamp }
{
    !matches!(stamp, Stamp::Never)
}

/// Whether a document with this stamp has transient activation at this time, where it lasts for so
/// many milliseconds.
pub fn transient(stamp: Stamp, now: Millis, duration: u32) -> bool
    ensures { result ≡ activation.is_transient duration now stamp }
{
    match stamp {
        Stamp::At(time) => now.get() < time.get() + u64::from(duration),
        _ => false,
    }
}

// Whether the stamp is this time.
fn is_at(stamp: Stamp, time: Millis) -> bool
    ensures { result ≡ activation.is_same_stamp (kind.At time) stamp }
{
    match stamp {
        Stamp::At(own) => time.get() == own.get(),
        _ => false,
    }
}

/// Whether a document with this stamp and this second stamp has history-action activation.
pub fn history_active(stamp: Stamp, second: Stamp) -> bool
    ensures { result ≡ activation.is_history_active stamp second }
{
    match stamp {
        Stamp::Never => !matches!(second, Stamp::Never),
        Stamp::Consumed => !matches!(second, Stamp::Consumed),
        Stamp::At(time) => !is_at(second, time),
    }
}
