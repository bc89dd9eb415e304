//! What a delivery brings, and how long it counts.
ghost use Rattle.std.specs.Prelude.{◌≡◌, ◌+◌, nat_lt};
ghost use Rattle.pe_delegation.specs.Posted.{delivery_of};

use crate::addressed::Addressed;
use crate::message::Message;
use pe_arena::DocRef;
use pe_base::{Millis, Steps};
use pe_features::Capability;
use pe_frames::Frames;
use pe_origin::same_origin;
use std::sync::ledger::Ledger;

/// What comes of delivering a message. It is settled in each case.
#[derive(Clone, Copy, Debug, PartialEq, Eq)]
pub enum Delivery {
    /// The document is given the capability.
    Put(DocRef, Capability),
    /// The message is dropped: the frame of its target shows another document, or was closed.
    Gone,
    /// The message is dropped: its target is not of the origin that it names.
    OtherOrigin,
}

// What comes of delivering the message. One tick.
pub(crate) fn delivery_of<D: Addressed, L: Ledger>(
    message: &Message,
    frames: &Frames<D>,
    steps: &mut Steps<L>,
) -> Delivery
    ensures value { result ≡ delivery_of D.doc_no D.origin_of frames.now.entries message.now }
    ensures cost { steps.new ≡ steps.old + 1 }
{
    let Some(doc) = frames.doc(message.target, steps) else {
        return Delivery::Gone;
    };
    if same_origin(doc.origin(), &message.origin) {
        Delivery::Put(message.target, message.capability)
    } else {
        Delivery::OtherOrigin
    }
}

/// Whether a capability counts still that a document was given at a time: for so many milliseconds
/// from then on. That a use spends it before is told by whoever keeps the time.
pub fn active(delivered: Millis, now: Millis, duration: u32) -> bool
    ensures { result ≡ nat_lt now (delivered + duration) }
{
    now.get() < delivered.get() + u64::from(duration)
}
