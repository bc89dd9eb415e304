//! Inputs in a page of frames, and consuming of its activation.
ghost use Rattle.std.specs.Prelude.{◌≡◌, ◌<◌, refl, true};
ghost use Rattle.pe_activation.specs.Stamps.{IsField};

use pe_activation::{Activatable, Stamp, consume, notify};
use pe_arena::Handle;
use pe_base::{DEPTH_LIMIT, DocNo, FRAME_LIMIT, FrameNo, Millis, Steps};
use pe_frames::{Frames, Numbered};
use std::alloc::Global;
use std::marker::Brand;
use std::sync::ledger::{Blank, Ledger};

/// The number that every frame and document has here.
const NUMBER: u32 = 1;

/// A document with its stamps. All documents are same origin.
#[derive(Drop)]
struct Document {
    stamp: Stamp,
    second: Stamp,
}

impl Numbered for Document {
    ghost doc_no = { λ d. 1 };

    fn number(&self) -> DocNo {
        DocNo::of(NUMBER)
    }
}

impl Activatable for Document {
    ghost stamp_of = { λ d. d.stamp };

    ghost second_of = { λ d. d.second };

    ghost with_stamp = { λ s d. record d { stamp = s } };

    ghost with_second = { λ s d. record d { second = s } };

    ghost is_same_origin = { λ d e. true };

    fn stamp(&self) -> Stamp {
        self.stamp
    }

    fn set_stamp(&mut self, stamp: Stamp) {
        self.stamp = stamp;
    }

    fn second(&self) -> Stamp {
        self.second
    }

    fn set_second(&mut self, stamp: Stamp) {
        self.second = stamp;
    }

    fn same_origin(&self, _other: &Document) -> bool {
        true
    }

    ghost stamp_is_a_field = { record { set_is_read = λ s d. refl; read_is_set = λ d. refl; last_counts = λ s t d. refl } };

    ghost second_is_a_field = { record { set_is_read = λ s d. refl; read_is_set = λ d. refl; last_counts = λ s t d. refl } };

    ghost second_stays = { λ s d. refl };

    ghost stamp_stays = { λ s d. refl };

    ghost number_stays = { λ s d. (refl, refl) };

    ghost origin_stays = { λ s d e. (refl, refl, refl, refl) };

    ghost same_as_itself = { λ d. refl };
}

/// A document that can be made.
trait Sample: Activatable {
    /// A document that was never activated.
    fn never_activated() -> Self;
}

impl Sample for Document {
    fn never_activated() -> Document {
        Document {
            stamp: Stamp::Never,
            second: Stamp::Never,
        }
    }
}

/// What is done in the page.
#[derive(Clone, Copy)]
pub enum Call {
    /// An input in its top frame.
    Input,
    /// Consuming.
    Consume,
}

/// The call of this name.
pub fn call_named(name: &str) -> Option<Call> {
    match name {
        "input" => Some(Call::Input),
        "consume" => Some(Call::Consume),
        _ => None,
    }
}

/// Opens a page. None where there is no room for it.
fn page<D: Sample>(frames: &mut Frames<D>) -> Option<Handle> {
    if frames.made() >= u64::from(u32::MAX) {
        return None;
    }
    frames
        .open_page(FrameNo::of(NUMBER), D::never_activated())
        .ok()
}

/// Embeds a frame in the parent. None where there is no room for it.
fn child<D: Sample>(frames: &mut Frames<D>, parent: Handle) -> Option<Handle> {
    if frames.made() >= u64::from(u32::MAX) {
        return None;
    }
    frames
        .embed(parent, FrameNo::of(NUMBER), D::never_activated())
        .ok()
}

/// Embeds so many frames below the top one, each in the one before up to this depth, and then in the top
/// one again.
fn fill<D: Sample>(frames: &mut Frames<D>, top: Handle, size: u32, depth: u32) {
    let mut parent = top;
    let mut level = 1u32;
    'frames: for _ in 1..size.min(FRAME_LIMIT) {
        if level >= depth {
            parent = top;
            level = 1;
        }
        if let Some(handle) = child(frames, parent) {
            parent = handle;
            level = level.saturating_add(1);
        }
    }
}

/// How many documents are activated by so many inputs, or how many times the page is consumed, where it has so
/// many frames: all below the top frame (`flat`), or in chains of the greatest depth.
pub fn page_activated(alloc: Global, call: Call, flat: bool, size: u32, count: u32) -> u64 {
    let mut frames: Frames<Document> = Frames::new(alloc);
    let Some(top) = page(&mut frames) else {
        return 0;
    };
    fill(&mut frames, top, size, if flat { 2 } else { DEPTH_LIMIT });
    done::<Brand>(&mut frames, top, call, count, Blank::new(1))
}

/// Does the call in the page so many times.
fn done<L: Ledger>(
    frames: &mut Frames<Document>,
    top: Handle,
    call: Call,
    count: u32,
    blank: Blank,
) -> u64
    requires name { blank.name ≡ L.name }
    requires parts { blank.parts ≡ L.parts }
    requires some { 0 < blank.parts }
{
    let mut steps: Steps<L> = Steps::start(blank);
    let mut changed = 0u64;
    'calls: for i in 0..count {
        let more = match call {
            Call::Input => {
                notify(frames, top, Millis::of(u64::from(i)), &mut steps).unwrap_or(0)
            }
            Call::Consume => u32::from(consume(frames, top, &mut steps).is_ok()),
        };
        changed = changed.saturating_add(u64::from(more));
    }
    changed
}
