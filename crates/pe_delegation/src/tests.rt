//! What no contract says: that there is memory for the calls, and that messages are delivered at run time.
//! Scripts of posts and deliveries, each refusal followed by steps that show that nothing changed.
ghost use Rattle.std.specs.Prelude.{◌≡◌, ◌<◌, ◌≤◌, ℕ, true};
ghost use Rattle.pe_delegation.specs.Posted.{was_given};

use crate::{Addressed, DeliverFault, Delivery, Messages, PostFault, active};
use pe_arena::{DocRef, Handle};
use pe_base::{Bytes, DocNo, EVENT_LIMIT, FrameNo, MESSAGE_LIMIT, MessageNo, Millis, Steps};
use pe_features::Capability;
use pe_frames::{Frames, Numbered};
use pe_origin::{HostForm, Origin, Scheme, Tuple};
use std::alloc::{AllocError, Global};
use std::marker::Brand;
use std::sync::ledger::{Blank, Ledger};

#[derive(Drop)]
struct Document {
    number: DocNo,
    origin: Origin,
}

impl Numbered for Document {
    ghost doc_no = { λ d. d.number };

    fn number(&self) -> DocNo {
        self.number
    }
}

impl Addressed for Document {
    ghost origin_of = { λ d. d.origin };

    fn origin(&self) -> &Origin {
        &self.origin
    }
}

// Numbers out of range stand for 1.
fn within(position: u32) -> u32
    ensures low { 1 ≤ result }
    ensures high { result ≤ EVENT_LIMIT }
{
    if position < 1 || position > EVENT_LIMIT {
        1
    } else {
        position
    }
}

fn number(position: u32) -> MessageNo {
    MessageNo::of(within(position))
}

// The frame of each slot is made once.
fn handle(slot: u32) -> Handle {
    Handle {
        slot,
        generation: 0,
    }
}

fn target(slot: u32, doc: u32) -> DocRef {
    DocRef {
        at: handle(slot),
        doc: DocNo::of(within(doc)),
    }
}

// A site, by its host.
#[derive(Clone, Copy)]
enum Site {
    A,
    B,
    X,
}

fn origin(alloc: Global, site: Site) -> Result<Origin, AllocError> {
    let host = match site {
        Site::A => b"a.example",
        Site::B => b"b.example",
        Site::X => b"x.example",
    };
    Ok(Origin::Tuple(Tuple {
        scheme: Scheme::Https,
        host: Bytes::of(host.to_vec(alloc)?),
        form: HostForm::Domain,
        port: 443,
    }))
}

// A message that is posted: its number, the page, the slot and the document of its target, and the site
// that it names.
#[derive(Clone, Copy)]
struct Post {
    no: u32,
    page: u32,
    slot: u32,
    doc: u32,
    site: Site,
    capability: Capability,
}

#[derive(Clone, Copy)]
enum Step {
    // A page of the site opens, whose frame and document have this number.
    Open(u32, Site),
    // A frame of this number is embedded in that of the slot.
    Embed(u32, u32, Site),
    // The frame of the slot shows a document of this number.
    Navigate(u32, u32, Site),
    // The frame of the slot is closed.
    Close(u32),
    // A message is posted.
    Post(Post),
    // It is not.
    NotPosted(Post),
    // So many messages of the page wait.
    Waiting(u32, u32),
    // The message is found, of this page.
    Found(u32, u32),
    // What comes of a delivery.
    Delivered(u32, Delivery),
    // The message is neither found nor delivered.
    Refused(u32, DeliverFault),
}

// Frames and messages, and the greatest number under which a message was posted.
#[derive(Drop)]
struct Session {
    alloc: Global,
    frames: Frames<Document>,
    messages: Messages,
    last: u32,
    ghost given: { (k : ℕ) → was_given messages.given k ≡ true → k ≤ last },
}

impl Session {
    #[tactic(auto, unfolding(crate::specs::Posted::was_given))]
    fn new(alloc: Global) -> Session {
        Session {
            alloc,
            frames: Frames::new(alloc),
            messages: Messages::new(alloc),
            last: 0,
        }
    }

    fn document(&self, number: u32, site: Site) -> Result<Document, AllocError> {
        Ok(Document {
            number: DocNo::of(within(number)),
            origin: origin(self.alloc, site)?,
        })
    }

    fn opens(&mut self, number: u32, site: Site) -> bool {
        let Ok(document) = self.document(number, site) else {
            return false;
        };
        if self.frames.made() >= 4_294_967_295 {
            return false;
        }
        let frame = FrameNo::of(within(number));
        self.frames.open_page(frame, document).is_ok()
    }

    fn embeds(&mut self, slot: u32, number: u32, site: Site) -> bool {
        let Ok(document) = self.document(number, site) else {
            return false;
        };
        if self.frames.made() >= 4_294_967_295 {
            return false;
        }
        let frame = FrameNo::of(within(number));
        self.frames.embed(handle(slot), frame, document).is_ok()
    }

    fn navigates(&mut self, slot: u32, number: u32, site: Site) -> bool {
        let Ok(document) = self.document(number, site) else {
            return false;
        };
        self.frames.navigate(handle(slot), document).is_ok()
    }

    fn post(&mut self, post: Post, origin: Origin) -> Result<(), PostFault> {
        if post.no <= self.last || post.no > EVENT_LIMIT {
            return Err(PostFault::Memory);
        }
        let done = self.messages.post(
            MessageNo::of(post.no),
            FrameNo::of(within(post.page)),
            target(post.slot, post.doc),
            origin,
            post.capability,
        );
        self.last = post.no;
        done
    }

    fn posts(&mut self, post: Post) -> Result<(), PostFault> {
        match origin(self.alloc, post.site) {
            Ok(origin) => self.post(post, origin),
            Err(AllocError) => Err(PostFault::Memory),
        }
    }

    fn deliver<L: Ledger>(&mut self, message: u32, blank: Blank) -> Result<Delivery, DeliverFault>
        requires name { blank.name ≡ L.name }
        requires parts { blank.parts ≡ L.parts }
        requires some { 0 < blank.parts }
    {
        let mut steps: Steps<L> = Steps::start(blank);
        self.messages
            .deliver(number(message), &self.frames, &mut steps)
    }

    fn delivers(&mut self, message: u32) -> Result<Delivery, DeliverFault> {
        self.deliver::<Brand>(message, Blank::new(1))
    }

    fn waits(&self, page: u32) -> u32 {
        self.messages.waiting(FrameNo::of(within(page)))
    }

    fn is_found(&self, message: u32, page: u32) -> bool {
        match self.messages.find(number(message)) {
            Ok(found) => found.page == FrameNo::of(within(page)),
            Err(_) => false,
        }
    }

    fn is_refused(&mut self, message: u32, fault: DeliverFault) -> bool {
        match self.messages.find(number(message)) {
            Ok(_) => false,
            Err(refusal) => refusal == fault && self.delivers(message) == Err(fault),
        }
    }

    fn passes(&mut self, step: Step) -> bool {
        match step {
            Step::Open(frame, site) => self.opens(frame, site),
            Step::Embed(slot, frame, site) => self.embeds(slot, frame, site),
            Step::Navigate(slot, doc, site) => self.navigates(slot, doc, site),
            Step::Close(slot) => self.frames.close(handle(slot)).is_ok(),
            Step::Post(post) => self.posts(post) == Ok(()),
            Step::NotPosted(post) => self.posts(post) == Err(PostFault::TooMany),
            Step::Waiting(page, count) => self.waits(page) == count,
            Step::Found(message, page) => self.is_found(message, page),
            Step::Delivered(message, delivery) => self.delivers(message) == Ok(delivery),
            Step::Refused(message, fault) => self.is_refused(message, fault),
        }
    }

    // The place of the first step that does not pass.
    fn first_failing(&mut self, steps: &[Step]) -> Option<usize> {
        for (place, step) in steps.iter().enumerate() {
            if !self.passes(*step) {
                return Some(place);
            }
        }
        None
    }
}

// A message of page 1 to the document in the slot that has this number, for site B.
fn to(no: u32, slot: u32, doc: u32) -> Post {
    Post {
        no,
        page: 1,
        slot,
        doc,
        site: Site::B,
        capability: Capability::Payment,
    }
}

// A document receives the capability that its message names, and each message once; one that is not known
// settles none.
#[test]
fn a_message_is_delivered_once(rt: HostRuntime) {
    let mut session = Session::new(rt.alloc());
    let other = Post {
        capability: Capability::Fullscreen,
        ..to(5, 1, 2)
    };
    let steps = [
        Step::Open(1, Site::A),
        Step::Embed(0, 2, Site::B),
        Step::Post(to(4, 1, 2)),
        Step::Post(other),
        Step::Waiting(1, 2),
        Step::Found(4, 1),
        Step::Refused(2, DeliverFault::Unknown),
        Step::Refused(6, DeliverFault::Unknown),
        Step::Waiting(1, 2),
        Step::Delivered(4, Delivery::Put(target(1, 2), Capability::Payment)),
        Step::Refused(4, DeliverFault::Settled),
        Step::Waiting(1, 1),
        Step::Found(5, 1),
        Step::Delivered(5, Delivery::Put(target(1, 2), Capability::Fullscreen)),
        Step::Refused(5, DeliverFault::Settled),
        Step::Waiting(1, 0),
    ];
    assert_eq!(rt; session.first_failing(&steps), None);
}

// A document that replaced the target receives nothing, also where it is same origin; nor does one of
// another origin than the message names. What is dropped is settled.
#[test]
fn a_message_is_dropped(rt: HostRuntime) {
    let mut session = Session::new(rt.alloc());
    let elsewhere = Post {
        site: Site::X,
        ..to(8, 1, 6)
    };
    let steps = [
        Step::Open(1, Site::A),
        Step::Embed(0, 2, Site::B),
        Step::Post(to(4, 1, 2)),
        Step::Navigate(1, 6, Site::B),
        Step::Delivered(4, Delivery::Gone),
        Step::Refused(4, DeliverFault::Settled),
        Step::Post(elsewhere),
        Step::Delivered(8, Delivery::OtherOrigin),
        Step::Refused(8, DeliverFault::Settled),
        Step::Post(to(10, 1, 6)),
        Step::Close(1),
        Step::Delivered(10, Delivery::Gone),
        Step::Refused(10, DeliverFault::Settled),
        Step::Waiting(1, 0),
    ];
    assert_eq!(rt; session.first_failing(&steps), None);
}

// The messages of a page that closes wait on, and are known.
#[test]
fn a_page_closes(rt: HostRuntime) {
    let mut session = Session::new(rt.alloc());
    let own = Post {
        page: 2,
        site: Site::A,
        ..to(5, 1, 2)
    };
    let steps = [
        Step::Open(1, Site::B),
        Step::Open(2, Site::A),
        Step::Post(to(3, 0, 1)),
        Step::Post(to(4, 0, 1)),
        Step::Post(own),
        Step::Close(0),
        Step::Waiting(1, 2),
        Step::Found(3, 1),
        Step::Refused(6, DeliverFault::Unknown),
        Step::Delivered(3, Delivery::Gone),
        Step::Refused(3, DeliverFault::Settled),
        Step::Waiting(1, 1),
        Step::Waiting(2, 1),
        Step::Delivered(5, Delivery::Put(target(1, 2), Capability::Payment)),
        Step::Waiting(1, 1),
        Step::Waiting(2, 0),
        Step::Delivered(4, Delivery::Gone),
    ];
    assert_eq!(rt; session.first_failing(&steps), None);
}

// As many messages of a page wait as may, and one more is not posted until one is delivered.
#[test]
fn a_page_with_all_its_messages(rt: HostRuntime) {
    let mut session = Session::new(rt.alloc());
    assert!(rt; session.passes(Step::Open(1, Site::B)));
    for place in 1..=MESSAGE_LIMIT {
        assert!(rt; session.passes(Step::Post(to(2 * place + 1, 0, 1))));
    }
    let other = Post {
        page: 2,
        ..to(515, 0, 1)
    };
    let steps = [
        Step::NotPosted(to(514, 0, 1)),
        Step::Waiting(1, MESSAGE_LIMIT),
        Step::Refused(514, DeliverFault::Unknown),
        Step::Post(other),
        Step::Delivered(3, Delivery::Put(target(0, 1), Capability::Payment)),
        Step::Refused(3, DeliverFault::Settled),
        Step::Refused(2, DeliverFault::Unknown),
        Step::Waiting(1, MESSAGE_LIMIT - 1),
        Step::Post(to(518, 0, 1)),
        Step::NotPosted(to(519, 0, 1)),
        Step::Waiting(1, MESSAGE_LIMIT),
        Step::Waiting(2, 1),
        Step::Delivered(513, Delivery::Put(target(0, 1), Capability::Payment)),
    ];
    assert_eq!(rt; session.first_failing(&steps), None);
}

// A capability counts until the last millisecond before its end.
#[test]
fn a_capability_counts_for_the_duration(rt: HostRuntime) {
    let delivered = Millis::of(3);
    for (now, counts) in [(3, true), (5002, true), (5003, false), (5004, false)] {
        assert_eq!(rt; active(delivered, Millis::of(now), 5000), counts);
    }
    assert!(rt; !active(delivered, delivered, 0));
}

impl Session {
    // Posts, and posts again where memory wants. Whether nothing had changed then.
    fn posts_again(&mut self, no: u32, page: u32) -> bool {
        if no >= EVENT_LIMIT {
            return false;
        }
        let post = Post {
            page,
            ..to(no, 0, 1)
        };
        let before = self.waits(page);
        if self.post(post, Origin::Opaque(DocNo::of(1))).is_ok() {
            return true;
        }
        let again = Post { no: no + 1, ..post };
        self.waits(page) == before
            && self.is_refused(no, DeliverFault::Unknown)
            && self.post(again, Origin::Opaque(DocNo::of(1))).is_ok()
    }
}

// Where memory wants all is as before, so that the same call serves again: tried with each allocation
// failing in turn.
#[test]
fn memory_that_wants_changes_nothing(rt: HostRuntime) {
    let mut session = Session::new(rt.alloc());
    for place in 1..=16u32 {
        assert!(rt; session.posts_again(2 * place, place));
        assert_eq!(rt; session.waits(place), 1);
    }
    for place in 1..=16u32 {
        assert!(rt; session.delivers(2 * place).is_ok() || session.delivers(2 * place + 1).is_ok());
        assert_eq!(rt; session.waits(place), 0);
    }
}
