//! What no contract says: an engine, a row and what an event made have these fields and no others, so
//! that no list of events is kept. Each pattern names every field and leaves none out.
use crate::engine::{Engine, Made};
use crate::making::top_row;
use crate::row::{Attributes, Delivered, Row};
use pe_base::{FrameNo, Stamp};
use pe_origin::read_place;
use std::alloc::Global;

// Whether the engine stands for no events.
fn is_new(engine: &Engine) -> bool {
    let page = FrameNo::of(1);
    let Engine {
        alloc: _,
        duration,
        clock,
        failed,
        made,
        frames,
        store,
        statuses,
        prompts,
        messages,
    } = engine;
    *duration == 5000
        && clock.get() == 0
        && !*failed
        && made.is_empty()
        && frames.pages() == 0
        && store.len() == 0
        && statuses.live(page) == 0
        && prompts.pending(page) == 0
        && messages.waiting(page) == 0
}

// Whether no attribute stands.
fn is_bare(attributes: &Attributes) -> bool {
    let Attributes {
        src,
        srcdoc,
        allow,
        sandbox,
        fullscreen,
    } = attributes;
    src.is_none() && !*srcdoc && allow.is_none() && sandbox.is_none() && !*fullscreen
}

// Whether no capability was delivered.
fn has_none(delivered: &Delivered) -> bool {
    let Delivered {
        payment,
        fullscreen,
        display_capture,
    } = delivered;
    payment.is_none() && fullscreen.is_none() && display_capture.is_none()
}

// Whether the row is that of a secure top document of number 1 that was never activated.
fn is_fresh(row: &Row) -> bool {
    let Row {
        stamp,
        second,
        doc,
        sandboxed,
        secure,
        origin: _,
        single: _,
        pair: _,
        attributes,
        delivered,
        policy: _,
    } = row;
    matches!(stamp, Stamp::Never)
        && matches!(second, Stamp::Never)
        && doc.get() == 1
        && !*sandboxed
        && *secure
        && is_bare(attributes)
        && has_none(delivered)
}

// Whether the event made a frame.
fn is_frame(made: Made) -> bool {
    match made {
        Made::Frame(_) => true,
        Made::Nothing | Made::Doc | Made::Status | Made::Prompt | Made::Message => false,
    }
}

// Whether the row of a page's document is fresh; None where memory wants.
fn makes_fresh(alloc: Global) -> Option<bool> {
    let Ok(place) = read_place(alloc, b"https://a.example/") else {
        return None;
    };
    match top_row(alloc, 1, place, None) {
        Ok(row) => Some(is_fresh(row.get())),
        Err(_) => None,
    }
}

#[test]
fn an_engine_keeps_these_fields_alone(rt: HostRuntime) {
    let engine = Engine::new(rt.alloc(), 5000);
    assert!(rt; is_new(&engine), "a new engine");
    assert_eq!(rt; makes_fresh(rt.alloc()), Some(true));
    assert!(rt; !is_frame(Made::Nothing), "an event that makes nothing");
}
