//! Settings, look-ups and lapses in a store of permissions.
ghost use Rattle.std.specs.Prelude.{◌≡◌, ◌<◌};

use pe_base::{Bytes, STORE_LIMIT, State, Steps};
use pe_features::Feature;
use pe_origin::{HostForm, Origin, Scheme, Tuple};
use pe_store::{Key, Life, Store};
use std::alloc::{AllocError, Global};
use std::marker::Brand;
use std::sync::ledger::{Blank, Ledger};

/// What is done with the store.
#[derive(Clone, Copy)]
pub enum Use {
    /// Settings of the pairs that it has, at random.
    Set,
    /// Look-ups of them.
    Find,
    /// Lapses one after another, each followed by a setting that lapses last.
    Lapse,
    /// Lapses of all entries at one moment, each entry counted, and settings of all of them again.
    LapseAll,
}

/// The use of this name.
pub fn use_named(name: &str) -> Option<Use> {
    match name {
        "set" => Some(Use::Set),
        "find" => Some(Use::Find),
        "lapse" => Some(Use::Lapse),
        "lapse-all" => Some(Use::LapseAll),
        _ => None,
    }
}

/// Places that look random, the same in each run.
#[derive(Drop)]
struct Places {
    state: u64,
}

impl Places {
    fn new() -> Places {
        Places { state: 1 }
    }

    /// One of the items, if there is one.
    fn next<'k>(&mut self, keys: &'k [Key]) -> Option<&'k Key> {
        if keys.is_empty() {
            return None;
        }
        self.state = self
            .state
            .wrapping_mul(6_364_136_223_846_793_005)
            .wrapping_add(1_442_695_040_888_963_407);
        keys.get((self.state >> 33) as usize % keys.len())
    }
}

/// The keys of so many origins.
fn keys(alloc: Global, count: usize) -> Result<Vec<Key>, AllocError> {
    let mut keys = Vec::new(alloc);
    for number in 0..count {
        let host = format!(in alloc; "n{number}.example")?;
        keys.push(Key::One(Origin::Tuple(Tuple {
            scheme: Scheme::Https,
            host: Bytes::of(host.into_bytes()),
            form: HostForm::Domain,
            port: 443,
        })))?;
    }
    Ok(keys)
}

/// Sets what is stored for a key up to a moment.
fn set(store: &mut Store, key: &Key, moment: u64) -> Result<(), AllocError> {
    let key = key.copy()?;
    let life = Life::Until(moment);
    match store.set(Feature::Camera, key, State::Granted, life) {
        Ok(()) => Ok(()),
        Err(_) => Err(AllocError),
    }
}

/// Sets what is stored for each key, up to moments of their own that follow this one.
fn set_all(store: &mut Store, keys: &[Key], from: u64, apart: u64) -> Result<(), AllocError> {
    let mut moment = from;
    for key in keys {
        set(store, key, moment)?;
        moment = moment.saturating_add(apart);
    }
    Ok(())
}

/// Takes all entries out that end at a moment, and says how many they were.
fn lapse_all(store: &mut Store) -> u64 {
    let mut lapsed = 0u64;
    while let Some(_) = store.take_due(u64::MAX) {
        lapsed = lapsed.saturating_add(1);
    }
    lapsed
}

/// How many of so many settings were made.
fn settings_made(store: &mut Store, keys: &[Key], count: u64) -> Result<u64, AllocError> {
    let mut places = Places::new();
    let mut made = 0u64;
    for moment in 0..count {
        if let Some(key) = places.next(keys) {
            set(store, key, moment)?;
            made = made.saturating_add(1);
        }
    }
    Ok(made)
}

/// How many of so many look-ups found an entry.
fn entries_found<L: Ledger>(store: &Store, keys: &[Key], count: u64, blank: Blank) -> u64
    requires name { blank.name ≡ L.name }
    requires parts { blank.parts ≡ L.parts }
    requires some { 0 < blank.parts }
{
    let mut steps: Steps<L> = Steps::start(blank);
    let mut places = Places::new();
    let mut found = 0u64;
    for _ in 0..count {
        if let Some(key) = places.next(keys) {
            if store.get(Feature::Camera, key, &mut steps).is_some() {
                found = found.saturating_add(1);
            }
        }
    }
    found
}

/// How many of so many entries that were due were taken out, each set again behind the others.
fn entries_lapsed(store: &mut Store, count: u64) -> Result<u64, AllocError> {
    let mut lapsed = 0u64;
    for _ in 0..count {
        if let Some((moment, entry)) = store.take_due(u64::MAX) {
            set(store, &entry.key, moment.saturating_add(STORE_LIMIT as u64))?;
            lapsed = lapsed.saturating_add(1);
        }
    }
    Ok(lapsed)
}

/// How many entries lapsed at one moment, of all so many times.
fn entries_lapsed_at_once(store: &mut Store, keys: &[Key], count: u64) -> Result<u64, AllocError> {
    let mut lapsed = 0u64;
    for _ in 0..count {
        lapsed = lapsed.saturating_add(lapse_all(store));
        set_all(store, keys, 0, 0)?;
    }
    Ok(lapsed)
}

/// Uses a store of so many entries so many times, and says how many of these did what they do.
pub fn store_used(alloc: Global, used: Use, entries: usize, count: u64) -> Result<u64, AllocError> {
    let keys = keys(alloc, entries.min(STORE_LIMIT))?;
    let mut store = Store::new(alloc);
    set_all(&mut store, &keys, 0, 1)?;
    match used {
        Use::Set => settings_made(&mut store, &keys, count),
        Use::Find => Ok(entries_found::<Brand>(&store, &keys, count, Blank::new(1))),
        Use::Lapse => entries_lapsed(&mut store, count),
        Use::LapseAll => entries_lapsed_at_once(&mut store, &keys, count),
    }
}
