//! Permission statuses that are made and released, and walks over those of a pair.
ghost use Rattle.std.specs.Prelude.{◌≡◌, ◌<◌, ◌≤◌, ◌+◌};
ghost use Rattle.pe_status.specs.Registry.{AreBelow};
ghost use Rattle.pe_status.specs.Below.{AreBelow_prop};

use crate::numbered::{document, key, position};
use pe_base::{EVENT_LIMIT, FrameNo, STATUS_LIMIT, StatusNo, Steps};
use pe_features::Feature;
use pe_status::Statuses;
use std::alloc::Global;
use std::marker::Brand;
use std::sync::ledger::{Blank, Ledger};

/// Statuses, and the greatest number under which one was made.
#[derive(Drop)]
struct Session {
    statuses: Statuses,
    last: u32,
    ghost given: { AreBelow (last + 1) statuses.given } by { AreBelow_prop (last + 1) statuses.given },
}

impl Session {
    fn new(alloc: Global) -> Session {
        Session {
            statuses: Statuses::new(alloc),
            last: 0,
        }
    }

    /// Makes a status of the pair in the page. None where there is no room for it.
    fn make(&mut self, page: u32, pair: u32) -> Option<StatusNo> {
        if self.last >= EVENT_LIMIT {
            return None;
        }
        let number = StatusNo::of(self.last + 1);
        let frame = FrameNo::of(position(page));
        let done = self
            .statuses
            .query(number, frame, document(page), Feature::Camera, key(pair));
        if done.is_err() {
            return None;
        }
        self.last += 1;
        Some(number)
    }

    /// Makes a status of the pair in the page and releases it, and says whether there was room for it.
    fn change(&mut self, page: u32, pair: u32) -> bool {
        match self.make(page, pair) {
            Some(number) => self.statuses.release(number).is_ok(),
            None => false,
        }
    }

    /// Makes so many statuses, of so many pairs in turn, as many in a page as it may have.
    fn fill(&mut self, pairs: u32, size: u32) {
        'statuses: for i in 0..size {
            let pair = if pairs == 0 { 0 } else { i % pairs };
            self.make(i / STATUS_LIMIT, pair);
        }
    }

    /// How many statuses of the pair a walk gives.
    fn walked<L: Ledger>(&self, pair: u32, steps: &mut Steps<L>) -> u64 {
        let mut walked = 0u64;
        'statuses: for _ in self.statuses.walk(Feature::Camera, &key(pair), None, steps) {
            walked = walked.saturating_add(1);
        }
        walked
    }
}

/// How many statuses are made and released, one after another, where so many others are live, of 64 pairs.
pub fn statuses_changed(alloc: Global, live: u32, count: u32) -> u64 {
    let mut session = Session::new(alloc);
    session.fill(64, live);
    let mut changed = 0u64;
    'changes: for i in 0..count {
        changed = changed.saturating_add(u64::from(session.change(live / STATUS_LIMIT, i % 64)));
    }
    changed
}

/// How many statuses are given by so many walks over each of so many pairs, where each pair has so many.
pub fn statuses_walked(alloc: Global, pairs: u32, size: u32, count: u32) -> u64 {
    let mut session = Session::new(alloc);
    session.fill(pairs, pairs.saturating_mul(size));
    walks::<Brand>(&session, pairs, count, Blank::new(1))
}

/// Walks over each of the pairs so many times.
fn walks<L: Ledger>(session: &Session, pairs: u32, count: u32, blank: Blank) -> u64
    requires name { blank.name ≡ L.name }
    requires parts { blank.parts ≡ L.parts }
    requires some { 0 < blank.parts }
{
    let mut steps: Steps<L> = Steps::start(blank);
    let mut walked = 0u64;
    'walks: for i in 0..u64::from(count).saturating_mul(u64::from(pairs)) {
        let pair = (i % u64::from(pairs).max(1)) as u32;
        walked = walked.saturating_add(session.walked(pair, &mut steps));
    }
    walked
}
