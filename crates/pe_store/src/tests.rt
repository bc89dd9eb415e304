//! What no contract says: that there is memory for the calls. Scripts of settings, lapses, pages that end and
//! dismissals.
ghost use Rattle.std.specs.Prelude.{◌≡◌, ◌<◌, ◌≤◌};

use crate::{Key, Life, Store, StoreFault};
use pe_base::{Bytes, DocNo, EVENT_LIMIT, Millis, STORE_LIMIT, State, Steps, TIME_LIMIT};
use pe_features::Feature;
use pe_origin::{HostForm, Origin, Scheme, Tuple};
use std::alloc::{AllocError, Global};
use std::marker::Brand;
use std::sync::ledger::{Blank, Ledger};

// A number out of range stands for 1.
fn document(position: u32) -> DocNo {
    if position < 1 || position > EVENT_LIMIT {
        DocNo::of(1)
    } else {
        DocNo::of(position)
    }
}

// A time out of range stands for 0.
fn time(millis: u64) -> Millis {
    if millis > TIME_LIMIT {
        Millis::of(0)
    } else {
        Millis::of(millis)
    }
}

// https://a.example.
fn tuple_origin(alloc: Global) -> Result<Origin, AllocError> {
    let host = Vec::from_slice(alloc, b"a.example")?;
    Ok(Origin::Tuple(Tuple {
        scheme: Scheme::Https,
        host: Bytes::of(host),
        form: HostForm::Domain,
        port: 443,
    }))
}

// The key with this name: 0 is that of https://a.example; odd names are opaque origins, and even ones pairs of two.
fn key(alloc: Global, name: u32) -> Result<Key, AllocError> {
    if name == 0 {
        Ok(Key::One(tuple_origin(alloc)?))
    } else if name % 2 == 1 {
        Ok(Key::One(Origin::Opaque(document(name))))
    } else {
        Ok(Key::Pair(Origin::Opaque(document(1)), Origin::Opaque(document(name))))
    }
}

// The life of a page, or up to a time.
fn life(page: Option<u32>) -> Life {
    match page {
        Some(doc) => Life::Page(document(doc)),
        None => Life::Until(10),
    }
}

// A feature and the name of a key.
type Named = (Feature, u32);

const CAMERA: Named = (Feature::Camera, 0);

const OTHER_CAMERA: Named = (Feature::Camera, 2);

const PLACE: Named = (Feature::Geolocation, 0);

const MIDI: Named = (Feature::Midi, 0);

// What is asked of a store, and what it answers.
#[derive(Clone, Copy)]
enum Step {
    // A setting is made.
    Set(Named, State, Life),
    // For a setting there is no room.
    Full(Named),
    // Whether there was an entry to clear.
    Clear(Named, bool),
    // A dismissal at a time.
    Dismiss(Named, u64, Result<bool, StoreFault>),
    // What is due up to a moment.
    Due(u64, Option<(u64, usize)>),
    // Up to a moment the entry of this pair is taken out, which ended at the other.
    Lapse(u64, Named, u64),
    // Nothing is taken out up to the moment.
    Stays(u64),
    // So many entries end with the page, of which these are the first and the last.
    End(u32, usize, Named, Named),
    // What is stored for a pair.
    Stored(Named, Option<State>),
    // How often a pair was dismissed.
    Dismissals(Named, u32),
    // The pair of the entry at a place.
    At(usize, Option<Named>),
    // How many entries there are.
    Len(usize),
}

fn state_of<L: Ledger>(store: &Store, feature: Feature, key: &Key, blank: Blank) -> Option<State>
    requires name { blank.name ≡ L.name }
    requires parts { blank.parts ≡ L.parts }
    requires some { 0 < blank.parts }
{
    let mut steps: Steps<L> = Steps::start(blank);
    match store.get(feature, key, &mut steps) {
        Some(entry) => Some(entry.state),
        None => None,
    }
}

#[derive(Drop)]
struct Session {
    alloc: Global,
    store: Store,
}

impl Session {
    fn new(alloc: Global) -> Session {
        Session {
            alloc,
            store: Store::new(alloc),
        }
    }

    fn set(&mut self, pair: Named, state: State, life: Life) -> Result<(), StoreFault> {
        match key(self.alloc, pair.1) {
            Ok(key) => self.store.set(pair.0, key, state, life),
            Err(_) => Err(StoreFault::Memory),
        }
    }

    fn dismiss(&mut self, pair: Named, now: u64) -> Result<bool, StoreFault> {
        match key(self.alloc, pair.1) {
            Ok(key) => self.store.dismissed(pair.0, key, time(now)),
            Err(_) => Err(StoreFault::Memory),
        }
    }

    fn is_pair(&self, feature: Feature, of: &Key, pair: Named) -> bool {
        match key(self.alloc, pair.1) {
            Ok(key) => feature.index() == pair.0.index() && *of == key,
            Err(_) => false,
        }
    }

    fn is_cleared(&mut self, pair: Named, there: bool) -> bool {
        match key(self.alloc, pair.1) {
            Ok(key) => self.store.clear(pair.0, &key) == there,
            Err(_) => false,
        }
    }

    fn stored(&self, pair: Named) -> Option<State> {
        match key(self.alloc, pair.1) {
            Ok(key) => state_of::<Brand>(&self.store, pair.0, &key, Blank::new(1)),
            Err(_) => None,
        }
    }

    fn dismissals(&self, pair: Named) -> u32 {
        match key(self.alloc, pair.1) {
            Ok(key) => self.store.dismissals(pair.0, &key),
            Err(_) => 0,
        }
    }

    fn is_at(&self, place: usize, pair: Option<Named>) -> bool {
        match (self.store.entry_at(place), pair) {
            (Some(entry), Some(pair)) => self.is_pair(entry.feature, &entry.key, pair),
            (None, None) => true,
            _ => false,
        }
    }

    // Whether the entry of the pair is the one that is taken out up to a moment, and ended at the other.
    fn lapses(&mut self, upto: u64, pair: Named, moment: u64) -> bool {
        match self.store.take_due(upto) {
            Some((at, entry)) => at == moment && self.is_pair(entry.feature, &entry.key, pair),
            None => false,
        }
    }

    fn ends(&mut self, doc: u32, count: usize, first: Named, last: Named) -> bool {
        let Ok(pairs) = self.store.end_page(document(doc)) else {
            return false;
        };
        if pairs.len() != count {
            return false;
        }
        match (pairs.first(), pairs.last()) {
            (Some((feature, key)), Some((other, other_key))) => {
                self.is_pair(*feature, key, first) && self.is_pair(*other, other_key, last)
            }
            _ => count == 0,
        }
    }

    // What is stored for a pair, how often it was dismissed, and how many entries there are.
    fn seen(&self, pair: Named) -> (Option<State>, u32, usize) {
        (self.stored(pair), self.dismissals(pair), self.store.len())
    }

    // Makes a setting for a page, or for a time, the second time where memory wants. Whether nothing had changed then.
    fn sets_again(&mut self, pair: Named, state: State, page: Option<u32>) -> bool {
        let before = self.seen(pair);
        if self.set(pair, state, life(page)).is_ok() {
            return true;
        }
        self.seen(pair) == before && self.set(pair, state, life(page)).is_ok()
    }

    // The answer to a dismissal, the second time where memory wants and nothing has changed.
    fn dismisses_again(&mut self, pair: Named, now: u64) -> Option<bool> {
        let before = self.seen(pair);
        if let Ok(embargo) = self.dismiss(pair, now) {
            return Some(embargo);
        }
        if self.seen(pair) != before {
            return None;
        }
        self.dismiss(pair, now).ok()
    }

    // How many entries end with a page, the second time where memory wants and nothing has changed.
    fn ends_again(&mut self, doc: u32) -> usize {
        let before = self.store.len();
        if let Ok(pairs) = self.store.end_page(document(doc)) {
            return pairs.len();
        }
        if self.store.len() != before {
            return 0;
        }
        match self.store.end_page(document(doc)) {
            Ok(pairs) => pairs.len(),
            Err(_) => 0,
        }
    }

    fn passes(&mut self, step: Step) -> bool {
        match step {
            Step::Set(pair, state, life) => self.set(pair, state, life).is_ok(),
            Step::Full(pair) => {
                self.set(pair, State::Granted, Life::Forever) == Err(StoreFault::Full)
            }
            Step::Clear(pair, there) => self.is_cleared(pair, there),
            Step::Dismiss(pair, now, answer) => self.dismiss(pair, now) == answer,
            Step::Due(upto, due) => self.store.due(upto) == due,
            Step::Lapse(upto, pair, moment) => self.lapses(upto, pair, moment),
            Step::Stays(upto) => self.store.take_due(upto).is_none(),
            Step::End(doc, count, first, last) => self.ends(doc, count, first, last),
            Step::Stored(pair, state) => self.stored(pair) == state,
            Step::Dismissals(pair, count) => self.dismissals(pair) == count,
            Step::At(place, pair) => self.is_at(place, pair),
            Step::Len(len) => self.store.len() == len,
        }
    }

    // The place of the first step that does not pass.
    fn first_failing(&mut self, steps: &[Step]) -> Option<usize> {
        for (place, step) in steps.iter().enumerate() {
            if !self.passes(*step) {
                return Some(place);
            }
        }
        None
    }
}

// A setting for 100 milliseconds at 10 is gone at 110, and a later one holds.
#[test]
fn a_setting_lapses_and_another_is_made(rt: HostRuntime) {
    let mut session = Session::new(rt.alloc());
    let steps = [
        Step::Stored(PLACE, None),
        Step::Set(PLACE, State::Granted, Life::Until(110)),
        Step::Stored(PLACE, Some(State::Granted)),
        Step::Stays(109),
        Step::Stored(PLACE, Some(State::Granted)),
        Step::Lapse(110, PLACE, 110),
        Step::Stored(PLACE, None),
        Step::Stays(500),
        Step::Set(PLACE, State::Denied, Life::Forever),
        Step::Stored(PLACE, Some(State::Denied)),
        Step::Stays(TIME_LIMIT),
    ];
    assert_eq!(rt; session.first_failing(&steps), None);
}

// Entries stand by feature, and by age within one; a setting of a pair that is there keeps its place. The least
// moment is due first, and of those that end at one moment the first.
#[test]
fn settings_keep_their_places(rt: HostRuntime) {
    let mut session = Session::new(rt.alloc());
    let steps = [
        Step::Set(PLACE, State::Granted, Life::Forever),
        Step::Set(CAMERA, State::Granted, Life::Until(110)),
        Step::Set(OTHER_CAMERA, State::Denied, Life::Until(110)),
        Step::Set(MIDI, State::Prompt, Life::Until(50)),
        Step::At(0, Some(CAMERA)),
        Step::At(1, Some(OTHER_CAMERA)),
        Step::At(2, Some(PLACE)),
        Step::At(3, Some(MIDI)),
        Step::At(4, None),
        Step::Set(CAMERA, State::Denied, Life::Until(110)),
        Step::Stored(CAMERA, Some(State::Denied)),
        Step::At(0, Some(CAMERA)),
        Step::Len(4),
        Step::Due(49, None),
        Step::Due(50, Some((50, 3))),
        Step::Due(110, Some((50, 3))),
        Step::Lapse(110, MIDI, 50),
        Step::Due(110, Some((110, 0))),
        Step::Lapse(110, CAMERA, 110),
        Step::Due(110, Some((110, 0))),
        Step::Set(CAMERA, State::Granted, Life::Until(100)),
        Step::At(1, Some(CAMERA)),
        Step::Due(110, Some((100, 1))),
        Step::Clear(OTHER_CAMERA, true),
        Step::Clear(OTHER_CAMERA, false),
        Step::Lapse(110, CAMERA, 100),
        Step::Stays(110),
        Step::Len(1),
        Step::Stored(PLACE, Some(State::Granted)),
    ];
    assert_eq!(rt; session.first_failing(&steps), None);
}

// What is set while a top document is current goes with it, unless it was set for longer since.
#[test]
fn pages_end_their_settings(rt: HostRuntime) {
    let mut session = Session::new(rt.alloc());
    let steps = [
        Step::Set(MIDI, State::Denied, Life::Page(document(1))),
        Step::Set(CAMERA, State::Granted, Life::Page(document(1))),
        Step::Set(OTHER_CAMERA, State::Granted, Life::Page(document(2))),
        Step::Set(PLACE, State::Granted, Life::Page(document(1))),
        Step::Set(PLACE, State::Granted, Life::Forever),
        Step::Stays(TIME_LIMIT),
        Step::End(3, 0, CAMERA, CAMERA),
        Step::End(1, 2, CAMERA, MIDI),
        Step::Stored(CAMERA, None),
        Step::Stored(MIDI, None),
        Step::Stored(OTHER_CAMERA, Some(State::Granted)),
        Step::Stored(PLACE, Some(State::Granted)),
        Step::Len(2),
        Step::End(1, 0, CAMERA, CAMERA),
        Step::End(2, 1, OTHER_CAMERA, OTHER_CAMERA),
        Step::Len(1),
    ];
    assert_eq!(rt; session.first_failing(&steps), None);
}

// Three dismissals deny a pair for a week, and a setting starts the count anew; a dismissal of a pair that is
// granted or denied does not count.
#[test]
fn three_dismissals_deny(rt: HostRuntime) {
    let mut session = Session::new(rt.alloc());
    let steps = [
        Step::Dismiss(CAMERA, 1, Ok(false)),
        Step::Dismiss(CAMERA, 2, Ok(false)),
        Step::Stored(CAMERA, None),
        Step::Dismissals(CAMERA, 2),
        Step::Dismissals(OTHER_CAMERA, 0),
        Step::Dismiss(CAMERA, 3, Ok(true)),
        Step::Stored(CAMERA, Some(State::Denied)),
        Step::Dismissals(CAMERA, 0),
        Step::Dismiss(CAMERA, 3, Ok(false)),
        Step::Dismissals(CAMERA, 0),
        Step::Stays(604_800_002),
        Step::Lapse(604_800_003, CAMERA, 604_800_003),
        Step::Stored(CAMERA, None),
        Step::Dismiss(PLACE, 0, Ok(false)),
        Step::Dismiss(PLACE, 0, Ok(false)),
        Step::Set(PLACE, State::Granted, Life::Until(1)),
        Step::Dismissals(PLACE, 0),
        Step::Dismiss(PLACE, 0, Ok(false)),
        Step::Lapse(1, PLACE, 1),
        Step::Dismissals(PLACE, 0),
        Step::Dismiss(PLACE, 1, Ok(false)),
        Step::Stored(PLACE, None),
        Step::Set(MIDI, State::Prompt, Life::Page(document(1))),
        Step::Dismiss(MIDI, 1, Ok(false)),
        Step::Dismiss(MIDI, 1, Ok(false)),
        Step::End(1, 1, MIDI, MIDI),
        Step::Dismissals(MIDI, 2),
        Step::Dismiss(MIDI, 2, Ok(true)),
        Step::Stored(MIDI, Some(State::Denied)),
    ];
    assert_eq!(rt; session.first_failing(&steps), None);
}

// As many entries as there may be and one more; all of them lapse at one moment, and then each at its own.
#[test]
fn as_many_entries_as_there_may_be(rt: HostRuntime) {
    let mut session = Session::new(rt.alloc());
    let last = STORE_LIMIT as u32;
    for name in 1..=last {
        let pair = (Feature::Camera, name);
        assert!(rt; session.set(pair, State::Granted, Life::Until(1000)).is_ok());
    }
    let steps = [
        Step::Len(STORE_LIMIT),
        Step::Full((Feature::Camera, last + 1)),
        Step::Full(MIDI),
        Step::Set((Feature::Camera, 1), State::Denied, Life::Until(1000)),
        Step::Dismiss(MIDI, 0, Ok(false)),
        Step::Dismiss(MIDI, 0, Ok(false)),
        Step::Dismiss(MIDI, 0, Err(StoreFault::Full)),
        Step::Dismissals(MIDI, 2),
        Step::Dismiss((Feature::Camera, 1), 0, Ok(false)),
        Step::Stored((Feature::Camera, last + 1), None),
        Step::Stored((Feature::Camera, last), Some(State::Granted)),
        Step::Len(STORE_LIMIT),
        Step::Stays(999),
    ];
    assert_eq!(rt; session.first_failing(&steps), None);
    for name in 1..=last {
        assert!(rt; session.lapses(1000, (Feature::Camera, name), 1000));
    }
    assert_eq!(rt; session.store.len(), 0);
    for name in 1..=last {
        let pair = (Feature::Camera, name);
        let life = Life::Until(u64::from(last - name));
        assert!(rt; session.set(pair, State::Granted, life).is_ok());
    }
    for moment in 0..last {
        let pair = (Feature::Camera, last - moment);
        assert!(rt; session.lapses(TIME_LIMIT, pair, u64::from(moment)));
    }
    assert_eq!(rt; session.store.len(), 0);
}

// Where memory wants all is as before, so that the same call serves again: tried with each allocation failing in
// turn.
#[test]
fn memory_that_wants_changes_nothing(rt: HostRuntime) {
    let mut session = Session::new(rt.alloc());
    for pair in [CAMERA, OTHER_CAMERA, PLACE] {
        assert!(rt; session.sets_again(pair, State::Granted, None));
    }
    assert!(rt; session.sets_again(CAMERA, State::Denied, Some(1)));
    assert!(rt; session.sets_again(OTHER_CAMERA, State::Denied, Some(1)));
    for answer in [false, false, true] {
        assert_eq!(rt; session.dismisses_again(MIDI, 1), Some(answer));
    }
    for name in 1..=40 {
        assert!(rt; session.sets_again((Feature::Gyroscope, name), State::Granted, None));
        assert!(rt; session.sets_again((Feature::Microphone, name), State::Granted, Some(1)));
        assert_eq!(rt;
            session.dismisses_again((Feature::Autoplay, name), 1),
            Some(false)
        );
    }
    assert_eq!(rt; session.ends_again(1), 42);
    assert_eq!(rt; session.store.len(), 42);
}
