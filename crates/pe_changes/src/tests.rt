//! What no contract says: that there is memory for the calls. The worked scripts of changes.
ghost use Rattle.std.specs.Prelude.{◌≡◌, ◌<◌};

use crate::{Governed, changes_of_end, changes_of_setting, lapse};
use pe_arena::{DocRef, Handle};
use pe_base::{Bytes, DocNo, EVENT_LIMIT, FrameNo, Millis, State, StatusNo, Steps, TIME_LIMIT};
use pe_events::Change;
use pe_features::Feature;
use pe_frames::{Frames, Numbered};
use pe_origin::{HostForm, Origin, Scheme, Tuple};
use pe_status::Statuses;
use pe_store::{Key, Life, Store};
use std::alloc::{AllocError, Global};
use std::marker::Brand;
use std::sync::ledger::{Blank, Ledger};

// A document that is denied all features, or none.
#[derive(Drop)]
struct Document {
    number: DocNo,
    blocked: bool,
}

impl Numbered for Document {
    ghost doc_no = { λ d. d.number };

    fn number(&self) -> DocNo {
        self.number
    }
}

impl Governed for Document {
    ghost blocks_feature = { λ d feature. d.blocked };

    fn is_blocked(&self, _feature: Feature) -> bool {
        self.blocked
    }
}

// A number out of range stands for 1.
fn number(position: u32) -> DocNo {
    if position < 1 || position > EVENT_LIMIT {
        DocNo::of(1)
    } else {
        DocNo::of(position)
    }
}

// A time out of range stands for 0.
fn time(millis: u64) -> Millis {
    if millis > TIME_LIMIT {
        Millis::of(0)
    } else {
        Millis::of(millis)
    }
}

// The key of the pages of https://a.example.
fn key(alloc: Global) -> Result<Key, AllocError> {
    let host = Vec::from_slice(alloc, b"a.example")?;
    Ok(Key::One(Origin::Tuple(Tuple {
        scheme: Scheme::Https,
        host: Bytes::of(host),
        form: HostForm::Domain,
        port: 443,
    })))
}

// The document of the frame that was made first, second or third.
fn shown(slot: u32, doc: u32) -> DocRef {
    DocRef {
        at: Handle {
            slot,
            generation: 0,
        },
        doc: number(doc),
    }
}

// Three pages of https://a.example: documents 1 and 2, and 3, which is denied all features.
fn pages(alloc: Global) -> Result<Frames<Document>, AllocError> {
    let mut frames = Frames::new(alloc);
    for position in 1..=3u32 {
        let page = Document {
            number: number(position),
            blocked: position == 3,
        };
        if frames.made() > 2 || frames.open_page(FrameNo::of(position), page).is_err() {
            return Err(AllocError);
        }
    }
    Ok(frames)
}

// Status 2 of document 1 shows the place; 4 of document 2 and 5 of document 3 show the camera.
fn statuses(alloc: Global) -> Result<Statuses, AllocError> {
    let mut statuses = Statuses::new(alloc);
    if statuses
        .query(
            StatusNo::of(2),
            FrameNo::of(1),
            shown(0, 1),
            Feature::Geolocation,
            key(alloc)?,
        )
        .is_err()
    {
        return Err(AllocError);
    }
    if statuses
        .query(
            StatusNo::of(4),
            FrameNo::of(2),
            shown(1, 2),
            Feature::Camera,
            key(alloc)?,
        )
        .is_err()
    {
        return Err(AllocError);
    }
    if statuses
        .query(
            StatusNo::of(5),
            FrameNo::of(3),
            shown(2, 3),
            Feature::Camera,
            key(alloc)?,
        )
        .is_err()
    {
        return Err(AllocError);
    }
    Ok(statuses)
}

#[derive(Clone, Copy)]
enum Step {
    // A setting of a feature at a time.
    Set(Feature, State, Life, u64),
    // Time passes.
    Lapse(u64),
    // The document ends at a time.
    End(u32, u64),
}

#[derive(Drop)]
struct Session {
    alloc: Global,
    frames: Frames<Document>,
    statuses: Statuses,
    store: Store,
}

// The changes that the step brings.
fn answer<L: Ledger>(
    session: &mut Session,
    step: &Step,
    blank: Blank,
) -> Result<Vec<Change>, AllocError>
    requires name { blank.name ≡ L.name }
    requires parts { blank.parts ≡ L.parts }
    requires some { 0 < blank.parts }
{
    let mut steps: Steps<L> = Steps::start(blank);
    match step {
        Step::Set(feature, state, life, now) => {
            let key = key(session.alloc)?;
            let changes = changes_of_setting(
                session.alloc,
                &session.store,
                &session.statuses,
                &session.frames,
                *feature,
                &key,
                *state,
                time(*now),
                &mut steps,
            )?;
            match session.store.set(*feature, key, *state, *life) {
                Ok(()) => Ok(changes),
                Err(_) => Err(AllocError),
            }
        }
        Step::Lapse(to) => lapse(
            session.alloc,
            &mut session.store,
            &session.statuses,
            &session.frames,
            time(*to),
            &mut steps,
        ),
        Step::End(doc, now) => {
            let ended = session.store.end_page(number(*doc))?;
            session.statuses.gone(number(*doc));
            changes_of_end(
                session.alloc,
                &ended,
                &session.statuses,
                &session.frames,
                time(*now),
                &mut steps,
            )
        }
    }
}

// A time, the number of a status and its new state.
type Told = (u64, u32, State);

fn are(changes: &[Change], told: &[Told]) -> bool {
    if changes.len() != told.len() {
        return false;
    }
    for place in 0..changes.len() {
        let change = &changes[place];
        let (time, status, state) = told[place];
        if change.time.get() != time || change.status.get() != status || change.state != state {
            return false;
        }
    }
    true
}

impl Session {
    fn new(alloc: Global) -> Result<Session, AllocError> {
        Ok(Session {
            alloc,
            frames: pages(alloc)?,
            statuses: statuses(alloc)?,
            store: Store::new(alloc),
        })
    }

    // Whether the step tells these changes; None where memory wants.
    fn tells(&mut self, step: &Step, told: &[Told]) -> Option<bool> {
        match answer::<Brand>(self, step, Blank::new(1)) {
            Ok(changes) => Some(are(&changes, told)),
            Err(_) => None,
        }
    }
}

// A setting, its end, and another setting later.
#[test]
fn a_setting_lapses_before_the_next(rt: HostRuntime) {
    let place = Feature::Geolocation;
    let Ok(made) = Session::new(rt.alloc()) else {
        assert!(rt; false, "memory wants");
        return;
    };
    let mut session = made;
    let set = Step::Set(place, State::Granted, Life::Until(110), 10);
    assert_eq!(rt; session.tells(&set, &[(10, 2, State::Granted)]), Some(true));
    assert_eq!(rt; session.tells(&Step::Lapse(109), &[]), Some(true));
    assert_eq!(rt;
        session.tells(&Step::Lapse(500), &[(110, 2, State::Prompt)]),
        Some(true)
    );
    let denied = Step::Set(place, State::Denied, Life::Forever, 500);
    assert_eq!(rt;
        session.tells(&denied, &[(500, 2, State::Denied)]),
        Some(true)
    );
    let same = Step::Set(place, State::Denied, Life::Forever, 600);
    assert_eq!(rt; session.tells(&same, &[]), Some(true));
    assert_eq!(rt; session.tells(&Step::Lapse(1000), &[]), Some(true));
}

// Two settings that end at one moment change their statuses by number, and a document that is denied all
// features sees none of it.
#[test]
fn changes_at_one_moment_are_in_order(rt: HostRuntime) {
    let Ok(made) = Session::new(rt.alloc()) else {
        assert!(rt; false, "memory wants");
        return;
    };
    let mut session = made;
    let camera = Step::Set(Feature::Camera, State::Denied, Life::Until(110), 10);
    let place = Step::Set(Feature::Geolocation, State::Granted, Life::Until(110), 10);
    assert_eq!(rt;
        session.tells(&camera, &[(10, 4, State::Denied)]),
        Some(true)
    );
    assert_eq!(rt;
        session.tells(&place, &[(10, 2, State::Granted)]),
        Some(true)
    );
    let told = [(110, 2, State::Prompt), (110, 4, State::Prompt)];
    assert_eq!(rt; session.tells(&Step::Lapse(110), &told), Some(true));
}

// What is allowed once ends with its top document.
#[test]
fn a_page_takes_its_setting_along(rt: HostRuntime) {
    let Ok(made) = Session::new(rt.alloc()) else {
        assert!(rt; false, "memory wants");
        return;
    };
    let mut session = made;
    let once = Step::Set(Feature::Camera, State::Granted, Life::Page(number(1)), 5);
    assert_eq!(rt; session.tells(&once, &[(5, 4, State::Granted)]), Some(true));
    assert_eq!(rt; session.tells(&Step::End(3, 8), &[]), Some(true));
    assert_eq!(rt;
        session.tells(&Step::End(1, 9), &[(9, 4, State::Prompt)]),
        Some(true)
    );
    assert_eq!(rt; session.tells(&Step::End(2, 9), &[]), Some(true));
}

impl Session {
    // Whether a setting tells these changes, the second time where memory wants.
    fn tells_again(&mut self, step: &Step, told: &[Told]) -> bool {
        match self.tells(step, told) {
            Some(right) => right,
            None => self.tells(step, told) == Some(true),
        }
    }

    // Whether settings, their lapse and the end of a page tell their changes; None where memory wants for
    // one of the last two.
    fn tells_all(&mut self) -> Option<bool> {
        let page = Life::Page(number(1));
        let camera = Step::Set(Feature::Camera, State::Granted, page, 10);
        let place = Step::Set(Feature::Geolocation, State::Granted, Life::Until(110), 10);
        let set = self.tells_again(&camera, &[(10, 4, State::Granted)])
            && self.tells_again(&place, &[(10, 2, State::Granted)]);
        let lapsed = self.tells(&Step::Lapse(200), &[(110, 2, State::Prompt)])?;
        let ended = self.tells(&Step::End(1, 300), &[(300, 4, State::Prompt)])?;
        Some(set && lapsed && ended)
    }
}

// Where memory wants no other changes are told, and a setting can be tried again: tried with each allocation
// failing in turn.
#[test]
fn memory_that_wants_tells_nothing_else(rt: HostRuntime) {
    if let Ok(made) = Session::new(rt.alloc()) {
        let mut session = made;
        assert!(rt; session.tells_all() != Some(false));
    }
}
