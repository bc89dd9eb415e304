//! What no contract says: that there is memory for the calls. Scripts of requests, answers and documents
//! that go, each refusal followed by steps that show that nothing changed.
ghost use Rattle.std.specs.Prelude.{ℕ, ◌≤◌, IsSome};
ghost use Rattle.pe_prompts.specs.Queues.{given_of};

use crate::{AnswerFault, Asked, PromptFault, Prompts};
use pe_arena::{DocRef, Handle};
use pe_base::{DocNo, EVENT_LIMIT, FrameNo, PENDING_LIMIT, PromptNo};
use pe_features::Feature;
use pe_origin::Origin;
use pe_store::Key;
use std::alloc::Global;

// Numbers out of range stand for 1.
fn within(position: u32) -> u32
    ensures low { 1 ≤ result }
    ensures high { result ≤ EVENT_LIMIT }
{
    if position < 1 || position > EVENT_LIMIT {
        1
    } else {
        position
    }
}

fn frame(position: u32) -> FrameNo {
    FrameNo::of(within(position))
}

fn number(position: u32) -> PromptNo {
    PromptNo::of(within(position))
}

fn document(position: u32) -> DocRef {
    DocRef {
        at: Handle {
            slot: position,
            generation: 0,
        },
        doc: DocNo::of(within(position)),
    }
}

fn origin(position: u32) -> Origin {
    Origin::Opaque(DocNo::of(within(position)))
}

// The key of the origin of document 1, with that of another document where one is named.
fn key(own: u32) -> Key {
    if own == 0 {
        Key::One(origin(1))
    } else {
        Key::Pair(origin(1), origin(own))
    }
}

// What is asked, and what is told.
#[derive(Clone, Copy)]
struct Request {
    page: u32,
    own: u32,
    doc: u32,
    told: Told,
}

#[derive(Clone, Copy)]
enum Told {
    New(u32),
    Joined(u32),
    TooMany,
}

#[derive(Clone, Copy)]
enum Step {
    // A document asks.
    Ask(Request),
    // A document goes.
    Gone(u32),
    // So many prompts of the page are pending.
    Pending(u32, u32),
    // The prompt is shown, and so many requests wait for it.
    Shown(u32, usize),
    // The prompt is neither shown nor answered.
    Refused(u32, AnswerFault),
    // An answer gives so many requests, of which these are the first and the last.
    Answered(u32, usize, u32, u32),
}

fn ask(page: u32, own: u32, doc: u32, told: Told) -> Step {
    Step::Ask(Request {
        page,
        own,
        doc,
        told,
    })
}

// Prompts, and the greatest number under which a request was made.
#[derive(Drop)]
struct Session {
    prompts: Prompts,
    last: u32,
    ghost given: { (k : ℕ) → IsSome (given_of prompts k) → k ≤ last },
}

impl Session {
    fn new(alloc: Global) -> Session {
        Session {
            prompts: Prompts::new(alloc),
            last: 0,
        }
    }

    // Asks for storage access under the next number.
    fn ask(&mut self, page: u32, own: u32, doc: u32) -> Result<Asked, PromptFault> {
        if self.last >= EVENT_LIMIT {
            return Err(PromptFault::Memory);
        }
        let next = PromptNo::of(self.last + 1);
        let feature = Feature::StorageAccess;
        let asked = self
            .prompts
            .request(next, frame(page), feature, key(own), document(doc));
        self.last += 1;
        asked
    }

    fn is_told(&mut self, request: Request) -> bool {
        let told = self.ask(request.page, request.own, request.doc);
        match request.told {
            Told::New(prompt) => told == Ok(Asked::New(number(prompt))),
            Told::Joined(prompt) => told == Ok(Asked::Joined(number(prompt))),
            Told::TooMany => told == Err(PromptFault::TooMany),
        }
    }

    fn is_shown(&self, prompt: u32, waiting: usize) -> bool {
        match self.prompts.shown(number(prompt)) {
            Ok(shown) => shown.waiting.len() == waiting,
            Err(_) => false,
        }
    }

    fn is_refused(&mut self, prompt: u32, fault: AnswerFault) -> bool {
        if self.prompts.shown(number(prompt)).is_ok() {
            return false;
        }
        match self.prompts.answer(number(prompt)) {
            Ok(_) => false,
            Err(refusal) => refusal == fault,
        }
    }

    fn is_answered(&mut self, prompt: u32, count: usize, first: u32, last: u32) -> bool {
        let Ok(requests) = self.prompts.answer(number(prompt)) else {
            return false;
        };
        requests.len() == count
            && requests.first() == Some(&document(first))
            && requests.last() == Some(&document(last))
    }

    // Asks, and asks again where memory wants. Whether nothing had changed then.
    fn asks_again(&mut self, own: u32) -> bool {
        let before = self.prompts.pending(frame(1));
        if self.ask(1, own, own).is_ok() {
            return true;
        }
        self.prompts.pending(frame(1)) == before && self.ask(1, own, own).is_ok()
    }

    // How many requests an answer gives, the second time where memory wants and the prompt is still shown.
    fn answered_again(&mut self, own: u32) -> usize {
        let feature = Feature::StorageAccess;
        let Some(prompt) = self.prompts.pending_of(frame(1), feature, &key(own)) else {
            return 0;
        };
        if let Ok(requests) = self.prompts.answer(prompt) {
            return requests.len();
        }
        if self.prompts.shown(prompt).is_err() {
            return 0;
        }
        match self.prompts.answer(prompt) {
            Ok(requests) => requests.len(),
            Err(_) => 0,
        }
    }

    fn passes(&mut self, step: Step) -> bool {
        match step {
            Step::Ask(request) => self.is_told(request),
            Step::Gone(doc) => {
                self.prompts.gone(document(doc).doc);
                true
            }
            Step::Pending(page, count) => self.prompts.pending(frame(page)) == count,
            Step::Shown(prompt, waiting) => self.is_shown(prompt, waiting),
            Step::Refused(prompt, fault) => self.is_refused(prompt, fault),
            Step::Answered(prompt, count, first, last) => {
                self.is_answered(prompt, count, first, last)
            }
        }
    }

    // The place of the first step that does not pass.
    fn first_failing(&mut self, steps: &[Step]) -> Option<usize> {
        for (place, step) in steps.iter().enumerate() {
            if !self.passes(*step) {
                return Some(place);
            }
        }
        None
    }
}

// An equal request of the page joins, one of another page does not; an answer gives them in order of joining,
// and settles.
#[test]
fn requests_join_and_are_answered(rt: HostRuntime) {
    let mut session = Session::new(rt.alloc());
    let steps = [
        ask(1, 0, 1, Told::New(1)),
        ask(2, 0, 2, Told::New(2)),
        ask(1, 0, 3, Told::Joined(1)),
        ask(1, 3, 3, Told::New(4)),
        Step::Refused(4, AnswerFault::NotShown),
        Step::Refused(9, AnswerFault::Unknown),
        Step::Pending(1, 2),
        Step::Shown(1, 2),
        Step::Answered(1, 2, 1, 3),
        Step::Refused(1, AnswerFault::Settled),
        Step::Pending(1, 1),
        Step::Shown(4, 1),
        Step::Shown(2, 1),
        ask(1, 0, 3, Told::New(5)),
        Step::Refused(5, AnswerFault::NotShown),
        Step::Answered(4, 1, 3, 3),
        Step::Shown(5, 1),
    ];
    assert_eq!(rt; session.first_failing(&steps), None);
}

// A document that goes takes all its requests along; a page that goes closes its prompts, and they are never
// pending again.
#[test]
fn documents_that_go_close_prompts(rt: HostRuntime) {
    let mut session = Session::new(rt.alloc());
    let steps = [
        ask(1, 2, 2, Told::New(1)),
        ask(1, 3, 3, Told::New(2)),
        ask(1, 2, 2, Told::Joined(1)),
        ask(1, 0, 2, Told::New(4)),
        ask(1, 2, 3, Told::Joined(1)),
        Step::Shown(1, 3),
        Step::Gone(2),
        Step::Pending(1, 2),
        Step::Shown(1, 1),
        Step::Refused(4, AnswerFault::Closed),
        Step::Gone(2),
        Step::Pending(1, 2),
        Step::Gone(3),
        Step::Pending(1, 0),
        Step::Refused(1, AnswerFault::Closed),
        Step::Refused(2, AnswerFault::Closed),
        ask(1, 2, 2, Told::New(6)),
        Step::Refused(1, AnswerFault::Closed),
        Step::Shown(6, 1),
    ];
    assert_eq!(rt; session.first_failing(&steps), None);
}

// As many prompts as may be pending in a page, and one more.
#[test]
fn a_page_with_all_its_prompts(rt: HostRuntime) {
    let mut session = Session::new(rt.alloc());
    for own in 1..=PENDING_LIMIT {
        assert!(rt; session.passes(ask(1, own, own, Told::New(own))));
    }
    let steps = [
        ask(1, 0, 1, Told::TooMany),
        Step::Pending(1, PENDING_LIMIT),
        ask(1, 1, 7, Told::Joined(1)),
        ask(2, 0, 1, Told::New(259)),
        Step::Refused(2, AnswerFault::NotShown),
        Step::Answered(1, 2, 1, 7),
        ask(1, 0, 1, Told::New(260)),
        Step::Pending(1, PENDING_LIMIT),
        Step::Shown(2, 1),
    ];
    assert_eq!(rt; session.first_failing(&steps), None);
}

// Where memory wants all is as before, so that the same call serves again: tried with each allocation
// failing in turn.
#[test]
fn memory_that_wants_changes_nothing(rt: HostRuntime) {
    let mut session = Session::new(rt.alloc());
    assert!(rt; session.asks_again(1));
    assert!(rt; session.asks_again(2));
    assert!(rt; session.asks_again(1));
    assert_eq!(rt; session.answered_again(1), 2);
    assert_eq!(rt; session.answered_again(2), 1);
}
