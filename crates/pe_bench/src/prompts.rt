//! Requests that make prompts and join them, and answers.
ghost use Rattle.std.specs.Prelude.{ℕ, ◌≤◌, IsSome};
ghost use Rattle.pe_prompts.specs.Queues.{given_of};

use crate::numbered::{document, key, position};
use pe_base::{EVENT_LIMIT, FrameNo, PromptNo};
use pe_features::Feature;
use pe_prompts::Prompts;
use std::alloc::Global;

/// Prompts, and the greatest number under which a request was made.
#[derive(Drop)]
struct Session {
    prompts: Prompts,
    last: u32,
    ghost given: { (k : ℕ) → IsSome (given_of prompts k) → k ≤ last },
}

impl Session {
    fn new(alloc: Global) -> Session {
        Session {
            prompts: Prompts::new(alloc),
            last: 0,
        }
    }

    /// Asks for the pair in the page, and says whether there was room for it.
    fn ask(&mut self, page: u32, pair: u32) -> bool {
        if self.last >= EVENT_LIMIT {
            return false;
        }
        let number = PromptNo::of(self.last + 1);
        let frame = FrameNo::of(position(page));
        let asked = self.prompts.request(
            number,
            frame,
            Feature::StorageAccess,
            key(pair),
            document(page),
        );
        self.last += 1;
        asked.is_ok()
    }

    /// Asks for so many pairs in each of so many pages.
    fn fill(&mut self, pages: u32, pending: u32) {
        'requests: for i in 0..pages.saturating_mul(pending) {
            self.ask(i % pages.max(1), i / pages.max(1));
        }
    }

    /// Joins the pending prompt of the pair, answers it, and asks for the pair anew: how many requests the
    /// answer gives.
    fn answered(&mut self, page: u32, pair: u32) -> u64 {
        let frame = FrameNo::of(position(page));
        let pending = self
            .prompts
            .pending_of(frame, Feature::StorageAccess, &key(pair));
        let Some(prompt) = pending else {
            return 0;
        };
        self.ask(page, pair);
        let Ok(requests) = self.prompts.answer(prompt) else {
            return 0;
        };
        self.ask(page, pair);
        requests.len() as u64
    }
}

/// How many requests are answered where so many pages have so many pending prompts each, and the oldest one
/// of each page in turn is joined, answered and asked for anew, so many times.
pub fn requests_answered(alloc: Global, pages: u32, pending: u32, count: u32) -> u64 {
    let mut session = Session::new(alloc);
    session.fill(pages, pending);
    let mut answered = 0u64;
    'answers: for i in 0..count {
        let page = i % pages.max(1);
        let pair = i / pages.max(1) % pending.max(1);
        answered = answered.saturating_add(session.answered(page, pair));
    }
    answered
}
