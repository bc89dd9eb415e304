//! Entries at their places, with the numbers of their pairs and what ends them.
ghost use Rattle.std.specs.Prelude.{◌≡◌, ℕ, ◌+◌, ◌≤◌, ◌++◌, map, option_to_list, [], None, Some, slice_get, is_some, MatchOption, IfSome, IfOk, IfErr, IfNone, OnOk, OnErr, length, if◌then◌else◌};
ghost use Rattle.std.specs.BTreeMap.{insert_entry, is_at};
ghost use Rattle.std.specs.List.Sorted.{IsStrictlySortedBy};
ghost use Rattle.std.specs.Map.{keys_of, values_of};
ghost use Rattle.std.specs.Option.{option_copied};
ghost use Rattle.pe_store.specs.Due.{IsDue, IsFirstEnd};
ghost use Rattle.pe_store.specs.Entries.{pair_of, entry_of, put_entry, stored, without, IsOnePerPair};
ghost use Rattle.pe_store.specs.Pages.{pairs_of_page};
ghost use Rattle.pe_store.specs.Pairs.{Pair};
ghost use Rattle.pe_store.specs.Numbers.{number_of, IsChangedFor};
ghost use Rattle.pe_store.specs.declared.entry.Entry.{Entry};
ghost use Rattle.pe_store.specs.declared.place.Place.{Place};
ghost use Rattle.pe_store.specs.Places.{row_at, place_cmp, HasRow, is_moment_of, is_page_of, PutsEnd, DropsEnd, ChangesEnd};

use crate::entry::Entry;
use crate::key::{Key, Life};
use crate::law::same_pairs_are_one;
use crate::numbers::PairNumbers;
use crate::place::{Ending, Endings, Place, drop_end, ends_alike, put_end};
use pe_base::{DocNo, State};
use pe_features::Feature;
use std::alloc::{AllocError, Global};
use std::collections::BTreeMap;
use std::marker::Model;

// The entries of a store at their places.
#[derive(Drop)]
pub(crate) struct Rows {
    map: BTreeMap<Place, Entry>,
    serials: PairNumbers,
    endings: Endings,
    next: u64,
}

impl Model for Rows {
    ghost use Rattle.pe_store.specs.Places.{PlacedEntries, IsRows};

    ghost Value = { PlacedEntries };

    ghost view = { λ r. r.map.entries };

    ghost invariant = { λ r. IsRows r.map.entries r.serials r.endings.moments.keys r.endings.pages.keys r.next };
}

// Notes down the number of an entry's pair and what ends it.
fn note(
    serials: &mut PairNumbers,
    endings: &mut Endings,
    entry: &Entry,
    place: Place,
) -> Result<(), AllocError>
    ensures serials { OnOk result (IsChangedFor (pair_of entry.now) (Some place.serial) serials.old serials.new) }
    ensures moments { OnOk result (PutsEnd is_moment_of entry.now.life place endings.old.moments.keys endings.new.moments.keys) }
    ensures pages { OnOk result (PutsEnd is_page_of entry.now.life place endings.old.pages.keys endings.new.pages.keys) }
    ensures serials_kept { OnErr result (number_of serials.old (pair_of entry.now) ≡ None → IsChangedFor (pair_of entry.now) None serials.old serials.new) }
    ensures moments_kept { OnErr result (endings.new.moments.keys ≡ endings.old.moments.keys) }
    ensures pages_kept { OnErr result (endings.new.pages.keys ≡ endings.old.pages.keys) }
{
    same_pairs_are_one();
    let key = entry.key.copy()?;
    serials.put(entry.feature, key, place.serial)?;
    if put_end(endings, entry.life, place).is_err() {
        serials.remove(entry.feature, &entry.key);
        return Err(AllocError);
    }
    Ok(())
}

// Forgets the number of an entry's pair and what ends it.
fn forget(serials: &mut PairNumbers, endings: &mut Endings, entry: &Entry, place: Place)
    ensures serials { IsChangedFor (pair_of entry.now) None serials.old serials.new }
    ensures moments { DropsEnd is_moment_of entry.now.life place endings.old.moments.keys endings.new.moments.keys }
    ensures pages { DropsEnd is_page_of entry.now.life place endings.old.pages.keys endings.new.pages.keys }
{
    serials.remove(entry.feature, &entry.key);
    drop_end(endings, entry.life, place);
}

// The same, and lets the entry go.
fn forget_all(serials: &mut PairNumbers, endings: &mut Endings, entry: Entry, place: Place)
    ensures serials { IsChangedFor (pair_of entry) None serials.old serials.new }
    ensures moments { DropsEnd is_moment_of entry.life place endings.old.moments.keys endings.new.moments.keys }
    ensures pages { DropsEnd is_page_of entry.life place endings.old.pages.keys endings.new.pages.keys }
{
    forget(serials, endings, &entry, place);
}

// Notes down what ends the entry at a place, whose life was another.
fn change_end(endings: &mut Endings, old: &Life, new: &Life, place: Place) -> Result<(), AllocError>
    ensures moments { OnOk result (ChangesEnd is_moment_of old.now new.now place endings.old.moments.keys endings.new.moments.keys) }
    ensures pages { OnOk result (ChangesEnd is_page_of old.now new.now place endings.old.pages.keys endings.new.pages.keys) }
    ensures moments_kept { OnErr result (endings.new.moments.keys ≡ endings.old.moments.keys) }
    ensures pages_kept { OnErr result (endings.new.pages.keys ≡ endings.old.pages.keys) }
{
    put_end(endings, *new, place)?;
    if !ends_alike(*old, *new) {
        drop_end(endings, *old, place);
    }
    Ok(())
}

// The entry that a setting of a pair makes.
fn new_entry(feature: Feature, key: &Key, state: State, life: Life) -> Result<Entry, AllocError>
    ensures { IfOk result (λ e. e ≡ stored (feature, key.now) state life) }
{
    let key = key.copy()?;
    Ok(Entry {
        feature,
        key,
        state,
        life,
    })
}

// Gives an entry another state and life.
fn write(entry: &mut Entry, state: State, life: Life)
    ensures { entry.new ≡ record entry.old { state = state; life = life } }
{
    entry.state = state;
    entry.life = life;
}

// Puts the pair of an entry, if there is one, behind the others. `AllocError` where memory wants.
fn put_pair(found: Option<&Entry>, pairs: &mut Vec<(Feature, Key)>) -> Result<(), AllocError>
    ensures { OnOk result (pairs.new.items ≡ pairs.old.items ++ map pair_of (option_to_list (option_copied found.entry))) }
{
    if let Some(entry) = found {
        pairs.push((entry.feature, entry.key.copy()?))?;
    }
    Ok(())
}

// Lets an entry go that stood at the place.
fn let_go(_entry: Option<Entry>) {}

// Puts an entry at a place, or gives it back where memory wants.
fn put_row(map: &mut BTreeMap<Place, Entry>, place: Place, entry: Entry) -> Result<(), Entry>
    ensures entries { OnOk result (map.new.entries ≡ insert_entry place_cmp map.old.entries place entry) }
    ensures rows { OnOk result ((r : Place) → row_at map.new.entries r ≡ if is_at (place_cmp place) r then Some entry else row_at map.old.entries r) }
    ensures len { OnOk result (row_at map.old.entries place ≡ None → length map.new.entries ≡ length map.old.entries + 1) }
    ensures len_there { OnOk result ((e : Entry) → row_at map.old.entries place ≡ Some e → length map.new.entries ≡ length map.old.entries) }
    ensures absent { OnErr result (row_at map.old.entries place ≡ None) }
    ensures given_back { IfErr result (λ e. e ≡ entry) }
    ensures kept { OnErr result (map.new.entries ≡ map.old.entries) }
    ensures ordered { IsStrictlySortedBy place_cmp (keys_of map.new.entries) }
{
    match map.insert(place, entry) {
        Ok(old) => {
            let_go(old);
            Ok(())
        }
        Err(failed) => {
            let (_, entry) = failed.value;
            Err(entry)
        }
    }
}

impl Rows {
    // No entry.
    pub(crate) fn new(alloc: Global) -> Rows
        ensures { result ≡ [] }
    {
        Rows {
            map: BTreeMap::new(alloc),
            serials: PairNumbers::new(alloc),
            endings: Endings::new(alloc),
            next: 0,
        }
    }

    // How many entries there are.
    pub(crate) fn len(&self) -> usize
        ensures { result ≡ length self.now }
    {
        self.map.len()
    }

    // Where the entry of a pair stands.
    pub(crate) fn place_of(&self, feature: Feature, key: &Key) -> Option<Place>
        ensures none { IfNone result (entry_of (values_of self.now) (feature, key.now) ≡ None) }
        ensures some { IfSome result (λ p. HasRow self.now p (feature, key.now)) }
    {
        same_pairs_are_one();
        let serial = self.serials.number(feature, key)?;
        Some(Place {
            feature: feature.index(),
            serial,
        })
    }

    // The entry of a pair.
    pub(crate) fn get(&self, feature: Feature, key: &Key) -> Option<&Entry>
        ensures value { option_copied result ≡ entry_of (values_of self.now) (feature, key.now) }
    {
        match self.place_of(feature, key) {
            Some(place) => self.at(place),
            None => None,
        }
    }

    // The entry at a place.
    pub(crate) fn at(&self, place: Place) -> Option<&Entry>
        ensures value { option_copied result ≡ row_at self.now place }
    {
        self.map.get(&place)
    }

    // Puts an entry of a pair that has none behind those of its feature.
    fn insert(&mut self, entry: Entry) -> Result<(), AllocError>
        requires absent { entry_of (values_of self.old) (pair_of entry) ≡ None }
        ensures list { OnOk result (values_of self.new ≡ put_entry entry (values_of self.old)) }
        ensures len { OnOk result (length self.new ≡ length self.old + 1) }
        ensures err { OnErr result (self.new ≡ self.old) }
    {
        same_pairs_are_one();
        let Some(next) = self.next.checked_add(1) else {
            return Err(AllocError);
        };
        let place = Place {
            feature: entry.feature.index(),
            serial: self.next,
        };
        note(&mut self.serials, &mut self.endings, &entry, place)?;
        match put_row(&mut self.map, place, entry) {
            Ok(()) => {
                self.next = next;
                Ok(())
            }
            Err(entry) => {
                forget_all(&mut self.serials, &mut self.endings, entry, place);
                Err(AllocError)
            }
        }
    }

    // Sets the state and the life of the entry at a place.
    fn change(&mut self, place: Place, state: State, life: Life) -> Result<(), AllocError>
        ensures list { (q : Pair) → HasRow self.old place q → OnOk result (values_of self.new ≡ put_entry (stored q state life) (values_of self.old)) }
        ensures len { OnOk result (length self.new ≡ length self.old) }
        ensures err { OnErr result (self.new ≡ self.old) }
    {
        same_pairs_are_one();
        let Some(entry) = self.map.get_mut(&place) else {
            return Err(AllocError);
        };
        change_end(&mut self.endings, &entry.life, &life, place)?;
        write(entry, state, life);
        Ok(())
    }

    // The first ending by a moment up to this one.
    pub(crate) fn first_due(&self, upto: u64) -> Option<Ending>
        ensures none { IfNone result (IsDue (values_of self.now) upto None) }
        ensures some { IfSome result (λ first. IsFirstEnd self.now first) }
        ensures low { IfSome result (λ first. first.by ≤ upto) }
    {
        let first = *self.endings.moments.first()?;
        if first.by > upto {
            return None;
        }
        Some(first)
    }

    // The entry that stands behind so many others.
    pub(crate) fn nth(&self, index: usize) -> Option<&Entry>
        ensures value { option_copied result ≡ slice_get (values_of self.now) index }
        ensures own { IfSome result (λ e. entry_of (values_of self.now) (pair_of e.now) ≡ Some e.now) }
    {
        same_pairs_are_one();
        self.map.values().nth(index)
    }

    // How many entries stand before a place.
    pub(crate) fn index_of(&self, place: Place) -> usize
        ensures { (i : ℕ) (e : Entry) → slice_get self.now i ≡ Some (place, e) → result ≡ i }
    {
        self.map.range(..place).count()
    }

    // The pairs of the entries that hold while a document is current, in order. `AllocError` where memory wants.
    pub(crate) fn pairs_of_page(
        &self,
        alloc: Global,
        doc: DocNo,
    ) -> Result<Vec<(Feature, Key)>, AllocError>
        ensures pairs { IfOk result (λ pairs. pairs.items ≡ pairs_of_page doc (values_of self.now)) }
        ensures one_per_pair { OnOk result (IsOnePerPair (values_of self.now)) }
    {
        same_pairs_are_one();
        let by = u64::from(doc.get());
        let mut pairs = Vec::new(alloc);
        for ending in self
            .endings
            .pages
            .range(Ending::first_by(by)..Ending::first_by(by + 1))
        {
            put_pair(self.at(ending.place), &mut pairs)?;
        }
        Ok(pairs)
    }

    // Each pair has one entry at most; the call does nothing.
    pub(crate) fn is_one_per_pair(&self)
        ensures { IsOnePerPair (values_of self.now) }
    {
        same_pairs_are_one();
        let _ = &self.map;
    }

    // Sets what is stored for a pair: in its entry, where the place of that is given, else in a new one
    // behind those of its feature.
    pub(crate) fn put(
        &mut self,
        place: Option<Place>,
        feature: Feature,
        key: &Key,
        state: State,
        life: Life,
    ) -> Result<(), AllocError>
        requires place { MatchOption place (entry_of (values_of self.old) (feature, key.now) ≡ None) (λ p. HasRow self.old p (feature, key.now)) }
        ensures list { OnOk result (values_of self.new ≡ put_entry (stored (feature, key.now) state life) (values_of self.old)) }
        ensures len { OnOk result (length self.new ≡ (if is_some place then length self.old else length self.old + 1)) }
        ensures err { OnErr result (self.new ≡ self.old) }
    {
        match place {
            Some(place) => self.change(place, state, life),
            None => self.insert(new_entry(feature, key, state, life)?),
        }
    }

    // Takes the entry at a place out.
    pub(crate) fn take(&mut self, place: Place) -> Option<Entry>
        ensures value { result ≡ row_at self.old place }
        ensures list { IfSome result (λ e. values_of self.new ≡ without (pair_of e) (values_of self.old)) }
        ensures own { IfSome result (λ e. entry_of (values_of self.old) (pair_of e) ≡ Some e) }
        ensures len { IfSome result (λ e. length self.new + 1 ≡ length self.old) }
        ensures unchanged { IfNone result (self.new ≡ self.old) }
    {
        same_pairs_are_one();
        let entry = self.map.remove(&place)?;
        forget(&mut self.serials, &mut self.endings, &entry, place);
        Some(entry)
    }
}
