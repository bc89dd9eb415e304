//! The permission store.
ghost use Rattle.std.specs.Prelude.{◌≡◌, ◌↔◌, ◌+◌, ◌<◌, ◌≤◌, true, false, ◌&&◌, [], None, Some, Ok, Err, IfOk, IfSome, IfNone, IsTrue, OnOk, OnErr, is_some, length, slice_get, if◌then◌else◌};
ghost use Rattle.std.specs.Option.{option_copied};
ghost use Rattle.pe_base.specs.declared.limits.TheConstants.{STORE_LIMIT, EMBARGO_DISMISSALS};
ghost use Rattle.pe_store.specs.declared.key.Life.TheVariants as life;
ghost use Rattle.pe_store.specs.Due.{IsDue, IsDueEntry};
ghost use Rattle.pe_store.specs.Entries.{dismissals_of, pair_of, entry_of, put_entry, stored, without, without_all, IsFull, IsOnePerPair, counts_over, counts, completes_embargo, embargo};
ghost use Rattle.pe_store.specs.Pages.{pairs_of_page, without_page, is_listed, AreApart};
ghost use Rattle.pe_store.specs.Pairs.{Pair, is_same_pair};
ghost use Rattle.pe_store.specs.Places.{has_life, is_page_of};

use crate::entry::{Entry, StoreFault};
use crate::key::{Key, Life};
use crate::law::same_pairs_are_one;
use crate::numbers::PairNumbers;
use crate::rows::Rows;
use pe_base::{DocNo, EMBARGO_DISMISSALS, EMBARGO_SPAN, Millis, STORE_LIMIT, State, Steps};
use pe_features::Feature;
use std::alloc::{AllocError, Global};
use std::marker::Model;
use std::sync::ledger::Ledger;

/// The permission store (W3C Permissions, "permission store"). Contracts see the list of its entries, one for each
/// pair of a feature and a key, and how often each pair was dismissed since its last setting.
/// The entries are ordered by the features' numbers; within a feature a new entry comes last, and a setting of a pair
/// that is there keeps its place.
/// Looking up, setting, clearing, dismissing and taking what is due cost a logarithm of the entries.
#[derive(Drop)]
pub struct Store {
    alloc: Global,
    rows: Rows,
    dismissals: PairNumbers,
}

impl Model for Store {
    ghost use Rattle.std.specs.Prelude.{◌≤◌, length};
    ghost use Rattle.std.specs.Map.{values_of};
    ghost use Rattle.pe_base.specs.declared.limits.TheConstants.{STORE_LIMIT};
    ghost use Rattle.pe_store.specs.Entries.{StoreValue, AreBelowEmbargo};

    ghost Value = { StoreValue };

    ghost view = { λ s. record { entries = values_of s.rows; dismissals = s.dismissals } };

    ghost invariant = { λ s. (length s.rows ≤ STORE_LIMIT) × AreBelowEmbargo s.dismissals };
}

impl Store {
    /// A store without entries, in which no pair was dismissed.
    pub fn new(alloc: Global) -> Store
        ensures entries { result.entries ≡ [] }
        ensures dismissals { (pair : Pair) → dismissals_of result pair ≡ 0 }
    {
        Store {
            alloc,
            rows: Rows::new(alloc),
            dismissals: PairNumbers::new(alloc),
        }
    }

    /// How many entries there are.
    pub fn len(&self) -> usize
        ensures count { result ≡ length self.now.entries }
        ensures limit { result ≤ STORE_LIMIT }
    {
        self.rows.len()
    }

    /// Each pair has one entry at most; the call does nothing.
    pub fn is_one_per_pair(&self)
        ensures { IsOnePerPair self.now.entries }
    {
        self.rows.is_one_per_pair();
    }

    /// The entry at a place, counted from 0; None exactly from `len` on. Nothing is copied.
    /// Unlike the other calls it costs as many steps as there are entries before that place.
    pub fn entry_at(&self, place: usize) -> Option<&Entry>
        ensures value { option_copied result ≡ slice_get self.now.entries place }
        ensures own { IfSome result (λ e. entry_of self.now.entries (pair_of e.now) ≡ Some e.now) }
    {
        self.rows.nth(place)
    }

    /// The entry of a pair. Nothing is copied.
    pub fn get<'s, L: Ledger>(
        &'s self,
        feature: Feature,
        key: &Key,
        steps: &mut Steps<L>,
    ) -> Option<&'s Entry>
        ensures value { option_copied result ≡ entry_of self.now.entries (feature, key.now) }
        ensures cost { steps.new ≡ steps.old + 1 }
    {
        steps.tick();
        self.rows.get(feature, key)
    }

    /// How often a pair was dismissed since its last setting, or ever where it has had none.
    pub fn dismissals(&self, feature: Feature, key: &Key) -> u32
        ensures count { result ≡ dismissals_of self.now (feature, key.now) }
        ensures few { result < EMBARGO_DISMISSALS }
    {
        self.dismissals.number(feature, key).unwrap_or(0) as u32
    }

    /// Sets what is stored for a pair: in the place of its entry where it has one, else behind the entries of its
    /// feature. How often the pair was dismissed is counted anew from here on.
    /// `Full` where there are as many entries as there may be and none of the pair; `Memory` where memory wants. All is
    /// then as before.
    pub fn set(
        &mut self,
        feature: Feature,
        key: Key,
        state: State,
        life: Life,
    ) -> Result<(), StoreFault>
        ensures list { OnOk result (self.new.entries ≡ put_entry (stored (feature, key) state life) self.old.entries) }
        ensures found { OnOk result ((pair : Pair) → entry_of self.new.entries pair ≡ if is_same_pair (feature, key) pair then Some (stored (feature, key) state life) else entry_of self.old.entries pair) }
        ensures dismissals { OnOk result ((pair : Pair) → dismissals_of self.new pair ≡ if is_same_pair (feature, key) pair then 0 else dismissals_of self.old pair) }
        ensures full { (result ≡ Err StoreFault.Full) ↔ IsFull self.old.entries (feature, key) }
        ensures err { OnErr result (self.new ≡ self.old) }
    {
        same_pairs_are_one();
        let place = self.rows.place_of(feature, &key);
        if place.is_none() && self.rows.len() == STORE_LIMIT {
            return Err(StoreFault::Full);
        }
        if self.rows.put(place, feature, &key, state, life).is_err() {
            return Err(StoreFault::Memory);
        }
        self.dismissals.remove(feature, &key);
        Ok(())
    }

    /// Counts a dismissal of a pair, where nothing or prompt is stored for it, and says whether it is an embargo: the
    /// third since the pair's last setting sets it to denied for `EMBARGO_SPAN` from this time on, and the count starts
    /// anew. Where the pair is granted or denied nothing is done.
    /// `Full` where it is an embargo of a pair without an entry and there are as many entries as there may be; `Memory`
    /// where memory wants. All is then as before.
    pub fn dismissed(&mut self, feature: Feature, key: Key, now: Millis) -> Result<bool, StoreFault>
        ensures ignored { counts self.old (feature, key) ≡ false → (result ≡ Ok false) × (self.new ≡ self.old) }
        ensures embargo { IfOk result (λ is_embargo. is_embargo ≡ completes_embargo self.old (feature, key)) }
        ensures list { OnOk result (self.new.entries ≡ if completes_embargo self.old (feature, key) then put_entry (embargo (feature, key) now) self.old.entries else self.old.entries) }
        ensures found { OnOk result ((pair : Pair) → entry_of self.new.entries pair ≡ if completes_embargo self.old (feature, key) && is_same_pair (feature, key) pair then Some (embargo (feature, key) now) else entry_of self.old.entries pair) }
        ensures dismissals { OnOk result ((pair : Pair) → dismissals_of self.new pair ≡ if counts self.old (feature, key) && is_same_pair (feature, key) pair then (if completes_embargo self.old (feature, key) then 0 else dismissals_of self.old pair + 1) else dismissals_of self.old pair) }
        ensures full { (result ≡ Err StoreFault.Full) ↔ ((completes_embargo self.old (feature, key) ≡ true) × IsFull self.old.entries (feature, key)) }
        ensures err { OnErr result (self.new ≡ self.old) }
    {
        same_pairs_are_one();
        if !counts_over(self.rows.get(feature, &key)) {
            return Ok(false);
        }
        let count = self.dismissals(feature, &key) + 1;
        if count >= EMBARGO_DISMISSALS {
            let life = Life::Until(now.get() + EMBARGO_SPAN);
            return match self.set(feature, key, State::Denied, life) {
                Ok(()) => Ok(true),
                Err(fault) => Err(fault),
            };
        }
        if self.dismissals.put(feature, key, u64::from(count)).is_err() {
            return Err(StoreFault::Memory);
        }
        Ok(false)
    }

    /// The least moment up to this one at which an entry ends, with the least place that has it.
    /// Unlike the other calls it costs as many steps as there are entries before that place.
    pub fn due(&self, upto: u64) -> Option<(u64, usize)>
        ensures { IsDue self.now.entries upto result }
    {
        let first = self.rows.first_due(upto)?;
        Some((first.by, self.rows.index_of(first.place)))
    }

    /// Takes the entry out that is due first up to a moment, as `due` names it, and gives it with the moment at which
    /// it ended. The other entries keep their order, and how often pairs were dismissed stays.
    /// It costs a logarithm of the entries.
    pub fn take_due(&mut self, upto: u64) -> Option<(u64, Entry)>
        ensures none { IfNone result (IsDue self.old.entries upto None) }
        ensures due { IfSome result (λ taken. IsDueEntry self.old.entries upto taken.0 taken.1) }
        ensures ends { IfSome result (λ taken. taken.1.life ≡ life.Until taken.0) }
        ensures own { IfSome result (λ taken. entry_of self.old.entries (pair_of taken.1) ≡ Some taken.1) }
        ensures list { IfSome result (λ taken. self.new.entries ≡ without (pair_of taken.1) self.old.entries) }
        ensures found { IfSome result (λ taken. (pair : Pair) → entry_of self.new.entries pair ≡ if is_same_pair (pair_of taken.1) pair then None else entry_of self.old.entries pair) }
        ensures fewer { IfSome result (λ taken. length self.new.entries + 1 ≡ length self.old.entries) }
        ensures unchanged { IfNone result (self.new ≡ self.old) }
        ensures dismissals { self.new.dismissals ≡ self.old.dismissals }
    {
        same_pairs_are_one();
        let first = self.rows.first_due(upto)?;
        let entry = self.rows.take(first.place)?;
        Some((first.by, entry))
    }

    /// Takes the entry of a pair out, and says whether there was one. The other entries keep their order.
    pub fn clear(&mut self, feature: Feature, key: &Key) -> bool
        ensures list { self.new.entries ≡ without (feature, key.now) self.old.entries }
        ensures found { (pair : Pair) → entry_of self.new.entries pair ≡ if is_same_pair (feature, key.now) pair then None else entry_of self.old.entries pair }
        ensures there { result ≡ is_some (entry_of self.old.entries (feature, key.now)) }
        ensures fewer { IsTrue result → length self.new.entries + 1 ≡ length self.old.entries }
        ensures dismissals { self.new.dismissals ≡ self.old.dismissals }
    {
        same_pairs_are_one();
        match self.rows.place_of(feature, key) {
            Some(place) => is_there(self.rows.take(place)),
            None => false,
        }
    }

    /// Takes the entries out that hold while a top document is current, and gives their pairs in order. The other
    /// entries keep their order, and how often pairs were dismissed stays.
    /// `AllocError` where memory wants; all is then as before.
    /// It costs a logarithm of the entries for each that it takes out.
    pub fn end_page(&mut self, doc: DocNo) -> Result<Vec<(Feature, Key)>, AllocError>
        ensures pairs { IfOk result (λ pairs. pairs.items ≡ pairs_of_page doc self.old.entries) }
        ensures apart { IfOk result (λ pairs. AreApart pairs.items) }
        ensures listed { IfOk result (λ pairs. (pair : Pair) → is_listed pair pairs.items ≡ has_life is_page_of doc (entry_of self.old.entries pair)) }
        ensures list { OnOk result (self.new.entries ≡ without_page doc self.old.entries) }
        ensures found { OnOk result ((pair : Pair) → entry_of self.new.entries pair ≡ if has_life is_page_of doc (entry_of self.old.entries pair) then None else entry_of self.old.entries pair) }
        ensures dismissals { self.new.dismissals ≡ self.old.dismissals }
        ensures err { OnErr result (self.new ≡ self.old) }
    {
        same_pairs_are_one();
        let pairs = self.rows.pairs_of_page(self.alloc, doc)?;
        self.clear_all(&pairs);
        Ok(pairs)
    }

    // Takes the entries of the pairs out.
    fn clear_all(&mut self, pairs: &[(Feature, Key)])
        ensures list { self.new.entries ≡ without_all pairs.now self.old.entries }
        ensures dismissals { self.new.dismissals ≡ self.old.dismissals }
    {
        for (feature, key) in pairs {
            self.clear(*feature, key);
        }
    }
}

// Whether a dismissal of a pair with this entry counts.
fn counts_over(found: Option<&Entry>) -> bool
    ensures { result ≡ counts_over (option_copied found.entry) }
{
    match found {
        Some(entry) => match entry.state {
            State::Prompt => true,
            State::Granted => false,
            State::Denied => false,
        },
        None => true,
    }
}

// Whether there is an entry, which is let go.
fn is_there(entry: Option<Entry>) -> bool
    ensures { result ≡ is_some entry }
{
    entry.is_some()
}
