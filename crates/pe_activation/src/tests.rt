//! Documents whose stamps are set, pages of two origins, and handles of no frame.
ghost use Rattle.std.specs.Prelude.{◌≡◌, ◌==◌, ◌<◌, ◌≤◌, refl};
ghost use Rattle.std.proofs.Common.{rules};
ghost use Rattle.pe_activation.specs.Stamps.{IsField};

use crate::{
    Activatable, Stale, consume, consume_history, history_active, notify, sticky, transient,
};
use pe_arena::Handle;
use pe_base::{DocNo, FrameNo, Millis, Stamp, Steps};
use pe_frames::{Frames, Numbered};
use std::marker::Brand;
use std::sync::ledger::{Blank, Ledger};

#[derive(Drop)]
struct Document {
    number: DocNo,
    origin: u32,
    stamp: Stamp,
    second: Stamp,
}

impl Numbered for Document {
    ghost doc_no = { λ d. d.number };

    fn number(&self) -> DocNo {
        self.number
    }
}

impl Activatable for Document {
    ghost stamp_of = { λ d. d.stamp };

    ghost second_of = { λ d. d.second };

    ghost with_stamp = { λ s d. record d { stamp = s } };

    ghost with_second = { λ s d. record d { second = s } };

    ghost is_same_origin = { λ d e. d.origin == e.origin };

    fn stamp(&self) -> Stamp {
        self.stamp
    }

    fn set_stamp(&mut self, stamp: Stamp) {
        self.stamp = stamp;
    }

    fn second(&self) -> Stamp {
        self.second
    }

    fn set_second(&mut self, stamp: Stamp) {
        self.second = stamp;
    }

    fn same_origin(&self, other: &Document) -> bool {
        self.origin == other.origin
    }

    ghost stamp_is_a_field = { record { set_is_read = λ s d. refl; read_is_set = λ d. refl; last_counts = λ s t d. refl } };

    ghost second_is_a_field = { record { set_is_read = λ s d. refl; read_is_set = λ d. refl; last_counts = λ s t d. refl } };

    ghost second_stays = { λ s d. refl };

    ghost stamp_stays = { λ s d. refl };

    ghost number_stays = { λ s d. (refl, refl) };

    ghost origin_stays = { λ s d e. (refl, refl, refl, refl) };

    ghost same_as_itself = { Prim.search rules };
}

fn handle(slot: u32) -> Handle {
    Handle {
        slot,
        generation: 0,
    }
}

#[test]
fn stamps_are_set_alone(rt: HostRuntime) {
    let mut document = Document {
        number: DocNo::of(1),
        origin: 1,
        stamp: Stamp::Never,
        second: Stamp::Never,
    };
    document.set_stamp(Stamp::Consumed);
    assert!(rt; document.stamp() == Stamp::Consumed);
    assert!(rt; document.second() == Stamp::Never);
    assert!(rt; history_active(document.stamp(), document.second()));
    document.set_second(Stamp::Consumed);
    assert!(rt; !history_active(document.stamp(), document.second()));
    assert!(rt; sticky(document.stamp()));
    assert!(rt; !transient(document.stamp(), Millis::of(1), 5000));
    assert!(rt; transient(Stamp::At(Millis::of(1)), Millis::of(5000), 5000));
    assert!(rt; !transient(Stamp::At(Millis::of(1)), Millis::of(5001), 5000));
}

// Whether each call refuses the handle.
fn are_refused<L: Ledger>(frames: &mut Frames<Document>, h: Handle, blank: Blank) -> bool
    requires name { blank.name ≡ L.name }
    requires parts { blank.parts ≡ L.parts }
    requires some { 0 < blank.parts }
{
    let mut steps: Steps<L> = Steps::start(blank);
    let activation = consume(frames, h, &mut steps) == Err(Stale);
    let history = consume_history(frames, h, &mut steps) == Err(Stale);
    let notified = notify(frames, h, Millis::of(1), &mut steps) == Err(Stale);
    activation && history && notified
}

#[test]
fn handles_of_no_frame_are_refused(rt: HostRuntime) {
    let mut frames: Frames<Document> = Frames::new(rt.alloc());
    assert!(rt; are_refused::<Brand>(&mut frames, handle(0), Blank::new(1)));
}

// The page of a document. None where there is no room for it.
fn page<D: Numbered>(frames: &mut Frames<D>, doc: D) -> Option<Handle> {
    if frames.made() >= 4_294_967_295 {
        return None;
    }
    frames.open_page(FrameNo::of(1), doc).ok()
}

// The frame of a document below the parent. None where there is no room for it.
fn child<D: Numbered>(frames: &mut Frames<D>, parent: Handle, doc: D) -> Option<Handle> {
    if frames.made() >= 4_294_967_295 {
        return None;
    }
    frames.embed(parent, FrameNo::of(1), doc).ok()
}

// A document that can be made for a test.
trait Sample: Activatable {
    // A document of this origin that was never activated.
    fn never_activated(origin: u32) -> Self;
}

impl Sample for Document {
    fn never_activated(origin: u32) -> Document {
        Document {
            number: DocNo::of(1),
            origin,
            stamp: Stamp::Never,
            second: Stamp::Never,
        }
    }
}

const A: u32 = 1;

const B: u32 = 2;

// Two pages. The first has at its top a document of A; below it in slot 1 one of B, which embeds one of A in
// slot 2; and in slot 3 one of A, which embeds one of B in slot 4. The second, in slot 5, has one of A.
fn are_two_pages<D: Sample>(frames: &mut Frames<D>) -> bool {
    let made = [
        page(frames, D::never_activated(A)),
        child(frames, handle(0), D::never_activated(B)),
        child(frames, handle(1), D::never_activated(A)),
        child(frames, handle(0), D::never_activated(A)),
        child(frames, handle(3), D::never_activated(B)),
        page(frames, D::never_activated(A)),
    ];
    let mut slot = 0u32;
    for made in made {
        if made != Some(handle(slot)) {
            return false;
        }
        slot = slot.saturating_add(1);
    }
    true
}

// Whether the second page is closed, and another opened in its slot.
fn is_page_opened_again<D: Sample>(frames: &mut Frames<D>) -> bool {
    let again = Handle {
        slot: 5,
        generation: 1,
    };
    frames.close(handle(5)).is_ok() && page(frames, D::never_activated(A)) == Some(again)
}

// The stamps of the document in this slot, where it is live.
fn stamps<L: Ledger>(
    frames: &Frames<Document>,
    slot: u32,
    steps: &mut Steps<L>,
) -> Option<(Stamp, Stamp)> {
    let node = frames.node(handle(slot), steps)?;
    Some((node.doc.stamp(), node.doc.second()))
}

// Whether the documents of the six slots have these stamps.
fn are_stamped<L: Ledger>(
    frames: &Frames<Document>,
    wanted: [Stamp; 6],
    steps: &mut Steps<L>,
) -> bool {
    let mut slot = 0u32;
    for wanted in wanted {
        match stamps(frames, slot, steps) {
            Some((stamp, _)) if stamp == wanted => {}
            _ => return false,
        }
        slot = slot.saturating_add(1);
    }
    true
}

// Whether the documents of the six slots have these second stamps.
fn are_stamped_second<L: Ledger>(
    frames: &Frames<Document>,
    wanted: [Stamp; 6],
    steps: &mut Steps<L>,
) -> bool {
    let mut slot = 0u32;
    for wanted in wanted {
        match stamps(frames, slot, steps) {
            Some((_, second)) if second == wanted => {}
            _ => return false,
        }
        slot = slot.saturating_add(1);
    }
    true
}

// The stamp of a document that was activated at this time.
fn at(time: u32) -> Stamp {
    Stamp::At(Millis::of(u64::from(time)))
}

// Whether inputs on the pages activate the documents that they are to activate.
fn notifies<L: Ledger>(frames: &mut Frames<Document>, blank: Blank) -> bool
    requires name { blank.name ≡ L.name }
    requires parts { blank.parts ≡ L.parts }
    requires some { 0 < blank.parts }
{
    let mut steps: Steps<L> = Steps::start(blank);
    let inner = notify(frames, handle(2), Millis::of(10), &mut steps) == Ok(3);
    let after_inner = are_stamped(
        frames,
        [
            at(10),
            at(10),
            at(10),
            Stamp::Never,
            Stamp::Never,
            Stamp::Never,
        ],
        &mut steps,
    );
    let top = notify(frames, handle(0), Millis::of(11), &mut steps) == Ok(3);
    let after_top = are_stamped(
        frames,
        [at(11), at(10), at(11), at(11), Stamp::Never, Stamp::Never],
        &mut steps,
    );
    let other = notify(frames, handle(1), Millis::of(12), &mut steps) == Ok(2);
    let after_other = are_stamped(
        frames,
        [at(12), at(12), at(11), at(11), Stamp::Never, Stamp::Never],
        &mut steps,
    );
    let second = are_stamped_second(frames, [Stamp::Never; 6], &mut steps);
    inner && after_inner && top && after_top && other && after_other && second
}

#[test]
fn inputs_on_a_page_of_two_origins(rt: HostRuntime) {
    let mut frames: Frames<Document> = Frames::new(rt.alloc());
    assert!(rt; are_two_pages(&mut frames));
    assert!(rt; notifies::<Brand>(&mut frames, Blank::new(1)));
}

// Whether consuming on the pages leaves the stamps that it is to leave.
fn consumes<L: Ledger>(frames: &mut Frames<Document>, blank: Blank) -> bool
    requires name { blank.name ≡ L.name }
    requires parts { blank.parts ≡ L.parts }
    requires some { 0 < blank.parts }
{
    let mut steps: Steps<L> = Steps::start(blank);
    let inner = notify(frames, handle(2), Millis::of(10), &mut steps) == Ok(3);
    let page = notify(frames, handle(5), Millis::of(10), &mut steps) == Ok(1);
    let history = consume_history(frames, handle(4), &mut steps).is_ok();
    let after_history = are_stamped_second(
        frames,
        [
            at(10),
            at(10),
            at(10),
            Stamp::Never,
            Stamp::Never,
            Stamp::Never,
        ],
        &mut steps,
    );
    let kept = are_stamped(
        frames,
        [at(10), at(10), at(10), Stamp::Never, Stamp::Never, at(10)],
        &mut steps,
    );
    let activation = consume(frames, handle(4), &mut steps).is_ok();
    let after_activation = are_stamped(
        frames,
        [
            Stamp::Consumed,
            Stamp::Consumed,
            Stamp::Consumed,
            Stamp::Never,
            Stamp::Never,
            at(10),
        ],
        &mut steps,
    );
    let left = are_stamped_second(
        frames,
        [
            at(10),
            at(10),
            at(10),
            Stamp::Never,
            Stamp::Never,
            Stamp::Never,
        ],
        &mut steps,
    );
    inner && page && history && after_history && kept && activation && after_activation && left
}

#[test]
fn consuming_on_a_page_of_two_origins(rt: HostRuntime) {
    let mut frames: Frames<Document> = Frames::new(rt.alloc());
    assert!(rt; are_two_pages(&mut frames));
    assert!(rt; consumes::<Brand>(&mut frames, Blank::new(1)));
}

#[test]
fn handles_of_slots_that_are_used_again_are_refused(rt: HostRuntime) {
    let mut frames: Frames<Document> = Frames::new(rt.alloc());
    assert!(rt; are_two_pages(&mut frames));
    assert!(rt; is_page_opened_again(&mut frames));
    assert!(rt; are_refused::<Brand>(&mut frames, handle(5), Blank::new(1)));
}
