//! What no contract says: that there is memory for the calls. Scripts of statuses that are made and
//! released, and of documents that go, each refusal followed by steps that show that nothing changed.
ghost use Rattle.std.specs.Prelude.{◌≡◌, ◌≤◌, ◌<◌, ◌+◌};
ghost use Rattle.pe_status.specs.Registry.{AreBelow};
ghost use Rattle.pe_status.specs.Below.{AreBelow_prop};

use crate::{ReleaseFault, StatusFault, Statuses};
use pe_arena::{DocRef, Handle};
use pe_base::{DocNo, EVENT_LIMIT, FrameNo, STATUS_LIMIT, StatusNo, Steps};
use pe_features::Feature;
use pe_origin::Origin;
use pe_store::Key;
use std::alloc::Global;
use std::marker::Brand;
use std::sync::ledger::{Blank, Ledger};

// Numbers out of range stand for 1.
fn within(position: u32) -> u32
    ensures low { 1 ≤ result }
    ensures high { result ≤ EVENT_LIMIT }
{
    if position < 1 || position > EVENT_LIMIT {
        1
    } else {
        position
    }
}

fn frame(position: u32) -> FrameNo {
    FrameNo::of(within(position))
}

fn number(position: u32) -> StatusNo {
    StatusNo::of(within(position))
}

fn document(position: u32) -> DocRef {
    DocRef {
        at: Handle {
            slot: position,
            generation: 0,
        },
        doc: DocNo::of(within(position)),
    }
}

fn origin(position: u32) -> Origin {
    Origin::Opaque(DocNo::of(within(position)))
}

// A feature under the key of document 1, with that of another document where one is named.
#[derive(Clone, Copy)]
struct Shown {
    feature: Feature,
    own: u32,
}

const CAMERA: Shown = Shown {
    feature: Feature::Camera,
    own: 0,
};

const MICROPHONE: Shown = Shown {
    feature: Feature::Microphone,
    own: 0,
};

const CAMERA_OF_2: Shown = Shown {
    feature: Feature::Camera,
    own: 2,
};

const CAMERA_OF_3: Shown = Shown {
    feature: Feature::Camera,
    own: 3,
};

impl Shown {
    fn key(self) -> Key {
        if self.own == 0 {
            Key::One(origin(1))
        } else {
            Key::Pair(origin(1), origin(self.own))
        }
    }
}

#[derive(Clone, Copy)]
enum Step {
    // A document of a page makes a status of the pair, under the next number.
    Query(u32, u32, Shown),
    // It is refused.
    Refused(u32, u32, Shown, StatusFault),
    // The status is released.
    Release(u32),
    // It is neither found nor released.
    Missing(u32, ReleaseFault),
    // A document goes.
    Gone(u32),
    // The page has so many live statuses.
    Live(u32, u32),
    // The status is the document's.
    Found(u32, u32),
    // The live statuses of the pair are these, and no more; 0 stands for none.
    Walk(Shown, [u32; 5]),
    // The first live status of the pair above the number is this one; 0 stands for none.
    Touched(Shown, u32, u32),
}

// Statuses, and the greatest number under which one was made.
#[derive(Drop)]
struct Session {
    statuses: Statuses,
    last: u32,
    ghost given: { AreBelow (last + 1) statuses.given } by { AreBelow_prop (last + 1) statuses.given },
}

impl Session {
    fn new(alloc: Global) -> Session {
        Session {
            statuses: Statuses::new(alloc),
            last: 0,
        }
    }

    // Makes a status under the next number.
    fn query(&mut self, page: u32, doc: u32, shown: Shown) -> Result<(), StatusFault> {
        if self.last >= EVENT_LIMIT {
            return Err(StatusFault::Memory);
        }
        let next = StatusNo::of(self.last + 1);
        self.statuses.query(next, frame(page), document(doc), shown.feature, shown.key())?;
        self.last += 1;
        Ok(())
    }

    fn is_missing(&mut self, no: u32, fault: ReleaseFault) -> bool {
        let found = match self.statuses.find(number(no)) {
            Ok(_) => false,
            Err(refusal) => refusal == fault,
        };
        found && self.statuses.release(number(no)) == Err(fault)
    }

    fn is_found(&self, no: u32, doc: u32) -> bool {
        match self.statuses.find(number(no)) {
            Ok(status) => status.no == number(no) && status.doc == document(doc),
            Err(_) => false,
        }
    }

    // Whether a walk over the statuses of the pair gives these numbers, and no more.
    fn is_walk<L: Ledger>(&self, shown: Shown, numbers: &[u32], steps: &mut Steps<L>) -> bool {
        let mut place = 0usize;
        for status in self.statuses.walk(shown.feature, &shown.key(), None, steps) {
            if numbers.get(place) != Some(&status.no.get()) {
                return false;
            }
            place += 1;
        }
        numbers.get(place) == Some(&0)
    }

    fn is_touched<L: Ledger>(
        &self,
        shown: Shown,
        after: u32,
        no: u32,
        steps: &mut Steps<L>,
    ) -> bool {
        let above = if after == 0 {
            None
        } else {
            Some(number(after))
        };
        match self
            .statuses
            .touched(shown.feature, &shown.key(), above, steps)
        {
            Some(status) => status.no.get() == no,
            None => no == 0,
        }
    }

    // Makes a status, and again where memory wants. Whether nothing had changed then.
    fn makes_again(&mut self, page: u32, doc: u32, shown: Shown) -> bool {
        let before = self.statuses.live(frame(page));
        if self.query(page, doc, shown).is_ok() {
            return true;
        }
        self.statuses.live(frame(page)) == before && self.query(page, doc, shown).is_ok()
    }

    fn passes<L: Ledger>(&mut self, step: Step, steps: &mut Steps<L>) -> bool {
        match step {
            Step::Query(page, doc, shown) => self.query(page, doc, shown).is_ok(),
            Step::Refused(page, doc, shown, fault) => self.query(page, doc, shown) == Err(fault),
            Step::Release(no) => self.statuses.release(number(no)).is_ok(),
            Step::Missing(no, fault) => self.is_missing(no, fault),
            Step::Gone(doc) => {
                self.statuses.gone(document(doc).doc);
                true
            }
            Step::Live(page, count) => self.statuses.live(frame(page)) == count,
            Step::Found(no, doc) => self.is_found(no, doc),
            Step::Walk(shown, numbers) => self.is_walk(shown, &numbers, steps),
            Step::Touched(shown, after, no) => self.is_touched(shown, after, no, steps),
        }
    }
}

// The place of the first step that does not pass.
fn first_failing<L: Ledger>(session: &mut Session, script: &[Step], blank: Blank) -> Option<usize>
    requires name { blank.name ≡ L.name }
    requires parts { blank.parts ≡ L.parts }
    requires some { 0 < blank.parts }
{
    let mut steps: Steps<L> = Steps::start(blank);
    for (place, step) in script.iter().enumerate() {
        if !session.passes(*step, &mut steps) {
            return Some(place);
        }
    }
    None
}

// A walk gives the live statuses of its pair alone, by rising number, of whatever page and document.
#[test]
fn statuses_of_a_pair_are_walked_in_order(rt: HostRuntime) {
    let mut session = Session::new(rt.alloc());
    let script = [
        Step::Walk(CAMERA, [0; 5]),
        Step::Query(1, 1, CAMERA),
        Step::Query(1, 2, CAMERA_OF_2),
        Step::Query(2, 3, CAMERA),
        Step::Query(1, 1, MICROPHONE),
        Step::Query(1, 2, CAMERA),
        Step::Query(1, 2, CAMERA_OF_2),
        Step::Query(1, 1, CAMERA),
        Step::Walk(CAMERA, [1, 3, 5, 7, 0]),
        Step::Walk(CAMERA_OF_2, [2, 6, 0, 0, 0]),
        Step::Walk(CAMERA_OF_3, [0; 5]),
        Step::Release(3),
        Step::Walk(CAMERA, [1, 5, 7, 0, 0]),
        Step::Touched(CAMERA, 0, 1),
        Step::Touched(CAMERA, 1, 5),
        Step::Touched(CAMERA, 3, 5),
        Step::Touched(CAMERA, 6, 7),
        Step::Touched(CAMERA, 7, 0),
        Step::Touched(MICROPHONE, 0, 4),
        Step::Touched(MICROPHONE, 4, 0),
        Step::Release(1),
        Step::Release(7),
        Step::Walk(CAMERA, [5, 0, 0, 0, 0]),
        Step::Release(5),
        Step::Walk(CAMERA, [0; 5]),
        Step::Query(3, 4, CAMERA),
        Step::Walk(CAMERA, [8, 0, 0, 0, 0]),
        Step::Walk(MICROPHONE, [4, 0, 0, 0, 0]),
    ];
    assert_eq!(rt;
        first_failing::<Brand>(&mut session, &script, Blank::new(1)),
        None
    );
}

// A status is released once; those of a document that went cannot be; each refusal changes nothing.
#[test]
fn statuses_end_once(rt: HostRuntime) {
    let mut session = Session::new(rt.alloc());
    let script = [
        Step::Missing(1, ReleaseFault::Unknown),
        Step::Query(1, 1, CAMERA),
        Step::Query(1, 2, CAMERA),
        Step::Query(1, 2, MICROPHONE),
        Step::Query(2, 3, CAMERA),
        Step::Live(1, 3),
        Step::Release(1),
        Step::Missing(1, ReleaseFault::Closed),
        Step::Missing(9, ReleaseFault::Unknown),
        Step::Live(1, 2),
        Step::Found(2, 2),
        Step::Gone(1),
        Step::Live(1, 2),
        Step::Gone(2),
        Step::Live(1, 0),
        Step::Missing(2, ReleaseFault::Closed),
        Step::Missing(3, ReleaseFault::Closed),
        Step::Walk(CAMERA, [4, 0, 0, 0, 0]),
        Step::Walk(MICROPHONE, [0; 5]),
        Step::Live(2, 1),
        Step::Found(4, 3),
        Step::Gone(2),
        Step::Query(1, 2, MICROPHONE),
        Step::Found(5, 2),
        Step::Missing(3, ReleaseFault::Closed),
        Step::Walk(MICROPHONE, [5, 0, 0, 0, 0]),
    ];
    assert_eq!(rt;
        first_failing::<Brand>(&mut session, &script, Blank::new(1)),
        None
    );
}

// As many statuses as a page may have, and one more.
#[test]
fn a_page_with_all_its_statuses(rt: HostRuntime) {
    let mut session = Session::new(rt.alloc());
    for _ in 0..STATUS_LIMIT {
        assert!(rt; session.query(1, 1, MICROPHONE).is_ok());
    }
    let script = [
        Step::Refused(1, 2, CAMERA, StatusFault::TooMany),
        Step::Live(1, STATUS_LIMIT),
        Step::Walk(CAMERA, [0; 5]),
        Step::Missing(257, ReleaseFault::Unknown),
        Step::Query(2, 2, CAMERA),
        Step::Found(257, 2),
        Step::Refused(1, 1, MICROPHONE, StatusFault::TooMany),
        Step::Touched(MICROPHONE, 255, 256),
        Step::Touched(MICROPHONE, 256, 0),
        Step::Release(100),
        Step::Query(1, 2, CAMERA),
        Step::Walk(CAMERA, [257, 258, 0, 0, 0]),
        Step::Refused(1, 2, CAMERA, StatusFault::TooMany),
        Step::Gone(1),
        Step::Live(1, 1),
        Step::Walk(MICROPHONE, [0; 5]),
    ];
    assert_eq!(rt;
        first_failing::<Brand>(&mut session, &script, Blank::new(1)),
        None
    );
}

// Where memory wants all is as before, so that the same call serves again: tried with each allocation
// failing in turn.
#[test]
fn memory_that_wants_changes_nothing(rt: HostRuntime) {
    let mut session = Session::new(rt.alloc());
    assert!(rt; session.makes_again(1, 1, CAMERA));
    assert!(rt; session.makes_again(1, 2, CAMERA_OF_2));
    assert!(rt; session.makes_again(2, 3, CAMERA));
    let script = [
        Step::Walk(CAMERA, [1, 3, 0, 0, 0]),
        Step::Walk(CAMERA_OF_2, [2, 0, 0, 0, 0]),
        Step::Live(1, 2),
        Step::Gone(1),
        Step::Walk(CAMERA, [3, 0, 0, 0, 0]),
    ];
    assert_eq!(rt;
        first_failing::<Brand>(&mut session, &script, Blank::new(1)),
        None
    );
}
