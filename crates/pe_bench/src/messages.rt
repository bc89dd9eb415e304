//! Messages that are posted and delivered.
ghost use Rattle.std.specs.Prelude.{◌≡◌, ◌<◌, ◌≤◌, ℕ, true, vec_len};
ghost use Rattle.pe_base.specs.declared.limits.TheConstants.{EVENT_LIMIT};
ghost use Rattle.pe_delegation.specs.Posted.{was_given};

use pe_arena::{DocRef, Handle};
use pe_base::{Bytes, DocNo, EVENT_LIMIT, FrameNo, MESSAGE_LIMIT, MessageNo, PAGE_LIMIT, Steps};
use pe_delegation::{Addressed, Delivery, Messages, PostFault};
use pe_features::Capability;
use pe_frames::{Frames, Numbered};
use pe_origin::{HostForm, Origin, Scheme, Tuple};
use std::alloc::{AllocError, Global};
use std::marker::Brand;
use std::sync::ledger::{Blank, Ledger};

/// The number that every frame and document has here.
const NUMBER: u32 = 1;

/// A document with its origin.
#[derive(Drop)]
struct Document {
    origin: Origin,
}

impl Numbered for Document {
    ghost doc_no = { λ d. 1 };

    fn number(&self) -> DocNo {
        DocNo::of(NUMBER)
    }
}

impl Addressed for Document {
    ghost origin_of = { λ d. d.origin };

    fn origin(&self) -> &Origin {
        &self.origin
    }
}

/// Pages of one site, and messages in them, numbered from 1.
#[derive(Drop)]
struct Pages {
    frames: Frames<Document>,
    handles: Vec<Handle>,
    origin: Origin,
    messages: Messages,
    last: u32,
    ghost given: { (k : ℕ) → was_given messages.given k ≡ true → k ≤ last },
}

impl Pages {
    /// So many pages, without messages.
    #[tactic(auto, unfolding(pe_delegation::specs::Posted::was_given))]
    fn open(alloc: Global, pages: u32) -> Result<Pages, AllocError> {
        let origin = Origin::Tuple(Tuple {
            scheme: Scheme::Https,
            host: Bytes::copy_of(alloc, b"b.example")?,
            form: HostForm::Domain,
            port: 443,
        });
        let mut frames = Frames::new(alloc);
        let mut handles = Vec::new(alloc);
        'pages: for _ in 0..pages {
            let document = Document {
                origin: origin.copy()?,
            };
            if let Some(handle) = page(&mut frames, document) {
                handles.push(handle)?;
            }
        }
        Ok(Pages {
            frames,
            handles,
            origin,
            messages: Messages::new(alloc),
            last: 0,
        })
    }

    /// Posts the next message, to the top frame of its page: the pages take turns. Whether that was done.
    fn post(&mut self) -> Result<bool, AllocError> {
        let pages = self.handles.len();
        if pages == 0 || self.last >= EVENT_LIMIT {
            return Ok(false);
        }
        let place = self.last as usize % pages;
        let origin = self.origin.copy()?;
        let posted = self.post_in(place, origin);
        Ok(posted == Ok(()))
    }

    /// Posts the next message in this page.
    fn post_in(&mut self, place: usize, origin: Origin) -> Result<(), PostFault>
        requires last { self.old.last < EVENT_LIMIT }
        requires place { place < vec_len self.old.handles }
    {
        let no = MessageNo::of(self.last + 1);
        let page = page_number(place);
        let target = DocRef {
            at: self.handles[place],
            doc: DocNo::of(NUMBER),
        };
        let posted = self
            .messages
            .post(no, page, target, origin, Capability::Payment);
        self.last += 1;
        posted
    }

    /// Delivers the message of this number. Whether a capability was put.
    fn deliver<L: Ledger>(&mut self, number: u32, steps: &mut Steps<L>) -> bool {
        if number < 1 || number > EVENT_LIMIT {
            return false;
        }
        let delivered = self
            .messages
            .deliver(MessageNo::of(number), &self.frames, steps);
        matches!(delivered, Ok(Delivery::Put(_, _)))
    }

    /// Posts so many messages and delivers for each the first one that waits.
    fn exchange<L: Ledger>(&mut self, count: u32, blank: Blank) -> Result<u32, AllocError>
        requires name { blank.name ≡ L.name }
        requires parts { blank.parts ≡ L.parts }
        requires some { 0 < blank.parts }
    {
        let mut steps: Steps<L> = Steps::start(blank);
        let mut put = 0u32;
        for i in 0..count {
            if self.post()? && self.deliver(i.saturating_add(1), &mut steps) {
                put = put.saturating_add(1);
            }
        }
        Ok(put)
    }
}

/// The number of the page's frame.
fn page_number(place: usize) -> FrameNo {
    FrameNo::of(place.min(63) as u32 + 1)
}

/// Opens a page. None where there is no room for it.
fn page(frames: &mut Frames<Document>, document: Document) -> Option<Handle> {
    if frames.made() >= u64::from(u32::MAX) {
        return None;
    }
    frames.open_page(FrameNo::of(NUMBER), document).ok()
}

/// How many capabilities are put where so many messages are posted in so many pages and delivered, each
/// once so many of its page wait, itself among them.
pub fn capabilities_put(
    alloc: Global,
    pages: u32,
    waiting: u32,
    count: u32,
) -> Result<u32, AllocError> {
    let pages = pages.min(PAGE_LIMIT);
    let before = waiting.clamp(1, MESSAGE_LIMIT) - 1;
    let mut session = Pages::open(alloc, pages)?;
    'messages: for _ in 0..pages * before {
        session.post()?;
    }
    session.exchange::<Brand>(count, Blank::new(1))
}
