//! `set`: what is stored for a pair of a feature and a key is set.
ghost use Rattle.std.specs.Prelude.{◌≡◌, ◌∷◌, ◌&&◌, ℕ, nat_le, not, Some, IfOk, IsTrue, OnOk, length};
ghost use Rattle.pe_base.specs.declared.limits.TheConstants.{STORE_LIMIT};
ghost use Rattle.pe_events.specs.declared.event.Event.TheVariants as event;
ghost use Rattle.pe_events.specs.Fitting.{is_span_or_none};
ghost use Rattle.pe_store.specs.Entries.{StoreValue, IsFull};
ghost use Rattle.pe_changes.specs.Parts.{IsStore, IsStatuses, AreGoverned};
ghost use Rattle.pe_changes.specs.StoreSteps.{IsSet, IsLapsed};
ghost use Rattle.pe_rules.specs.Causes.{entries};
ghost use Rattle.pe_rules.specs.Changes.{changes_after};
ghost use Rattle.pe_rules.specs.History.{History, RepliedHistory, Step};
ghost use Rattle.pe_rules.specs.Settings.{has_entry, holds, life_for, setting_by};
ghost use Rattle.pe_engine.specs.Giving.{GivesOrigin, GivesOriginOrNone, GivesKey, GivesPair};
ghost use Rattle.pe_engine.specs.Prompting.{setting_for};
ghost use Rattle.pe_engine.specs.Replying.{steps_of, timed, IsReplied};
ghost use Rattle.pe_engine.specs.Rows.{blocks};
ghost use Rattle.pe_engine.specs.StandsFor.{StandsFor};

use crate::attribute::place_named;
use crate::engine::{Engine, Made};
use crate::laws::engine_laws;
use crate::refusal::Refusal;
use crate::replies::Replies;
use pe_base::{Millis, STORE_LIMIT, State, Steps};
use pe_changes::changes_of_setting;
use pe_events::{Answer, Cause, Change};
use pe_features::{Feature, KeyKind};
use pe_lines::{OptionalText, Text};
use pe_origin::Origin;
use pe_store::{Key, Life, StoreFault};
use std::alloc::{AllocError, Global};
use std::sync::ledger::Ledger;

/// The tuple origin of an origin word, or why it is refused.
#[tactic(auto, unfolding(pe_rules::specs::Origins::place_or_none))]
fn origin_named(alloc: Global, word: &[u8]) -> Result<Origin, Refusal>
    ensures { GivesOrigin word.now result }
{
    let place = match place_named(alloc, word) {
        Ok(place) => place,
        Err(refusal) => return Err(refusal),
    };
    match place.tuple {
        Some(tuple) => Ok(Origin::Tuple(tuple)),
        None => Err(Refusal::For(Cause::Url)),
    }
}

/// The tuple origin of an origin word, where there is one.
pub(crate) fn origin_given(
    alloc: Global,
    word: &OptionalText<'_>,
) -> Result<Option<Origin>, Refusal>
    ensures { GivesOriginOrNone word.now result }
{
    match word.get() {
        Some(word) => match origin_named(alloc, word) {
            Ok(origin) => Ok(Some(origin)),
            Err(refusal) => Err(refusal),
        },
        None => Ok(None),
    }
}

/// The key that one origin or two name for a feature; None for a feature without a permission, and
/// where its kind of key has not as many origins.
fn key_named(feature: Feature, first: Origin, second: Option<Origin>) -> Option<Key>
    ensures { GivesKey feature first second result }
{
    match feature.key_kind() {
        Some(KeyKind::Single) => match second {
            Some(_) => None,
            None => Some(Key::One(first)),
        },
        Some(KeyKind::Pair) => match second {
            Some(second) => Some(Key::Pair(first, second)),
            None => None,
        },
        None => None,
    }
}

/// The pair that the words of a setting name, or why they are refused: an origin word without a tuple
/// origin comes before the name of a feature.
fn pair_named(
    alloc: Global,
    feature: &[u8],
    first: &[u8],
    second: &OptionalText<'_>,
) -> Result<(Feature, Key), Refusal>
    ensures { GivesPair feature.now first.now second.now result }
{
    let first = match origin_named(alloc, first) {
        Ok(origin) => origin,
        Err(refusal) => return Err(refusal),
    };
    let second = match origin_given(alloc, second) {
        Ok(origin) => origin,
        Err(refusal) => return Err(refusal),
    };
    let Some(feature) = Feature::by_name(feature) else {
        return Err(Refusal::For(Cause::Feature));
    };
    let Some(key) = key_named(feature, first, second) else {
        return Err(Refusal::For(Cause::Feature));
    };
    Ok((feature, key))
}

/// How long a setting holds that is made at this time: for a span of milliseconds, or forever.
fn life_for(now: Millis, span: Option<u64>) -> Life
    requires { IsTrue (is_span_or_none span) }
    ensures { result ≡ life_for now span }
{
    match span {
        Some(span) => Life::Until(now.get() + span),
        None => Life::Forever,
    }
}

impl Engine {
    /// Whether a setting of this pair would make an entry in a store of as many as there may be. Where it
    /// would not, the pair finds room also once entries ended.
    pub(crate) fn exceeds_store<L: Ledger>(
        &self,
        feature: Feature,
        key: &Key,
        steps: &mut Steps<L>,
    ) -> bool
        ensures limit { (H : History) → StandsFor self.now H
            → result ≡ (not (has_entry (steps_of self.now H) (feature, key.now)) && nat_le STORE_LIMIT (length (entries (steps_of self.now H)))) }
        ensures room { (to : ℕ) (later : StoreValue) → IsLapsed to self.now.store later → IsFull later.entries (feature, key.now) → IsTrue result }
    {
        engine_laws();
        self.store.is_one_per_pair();
        if self.store.len() < STORE_LIMIT {
            return false;
        }
        self.store.get(feature, key, steps).is_none()
    }

    /// Sets what is stored for a pair at this time, in a store that has room for it. The changes are those
    /// that the setting brings.
    pub(crate) fn store_setting<L: Ledger>(
        &mut self,
        feature: Feature,
        key: Key,
        state: State,
        life: Life,
        now: Millis,
        steps: &mut Steps<L>,
    ) -> Result<Vec<Change>, AllocError>
        requires room { IsFull self.old.store.entries (feature, key) → ⊥ }
        ensures rest { OnOk result (self.new ≡ record self.old { store = self.new.store }) }
        ensures set { OnOk result (IsSet (setting_for (feature, key) (state, life)) self.old.store self.new.store) }
        ensures changes { (T : RepliedHistory) (s : Step) → setting_by s.time s.event T ≡ Some (setting_for (feature, key) (state, life)) → IsTrue (holds (s ∷ T) now life)
            → IsStore T now self.old.store → IsStatuses T self.old.statuses → AreGoverned T (λ x. x.doc) blocks self.old.frames.entries self.old.statuses.live
            → IfOk result (λ changes. changes.items ≡ changes_after T (s ∷ T) now) }
    {
        let after = changes_of_setting(
            self.alloc,
            &self.store,
            &self.statuses,
            &self.frames,
            feature,
            &key,
            state,
            now,
            steps,
        )?;
        match self.store.set(feature, key, state, life) {
            Ok(()) => Ok(after),
            Err(StoreFault::Memory) => Err(AllocError),
            Err(StoreFault::Full) => unreachable!(),
        }
    }

    /// Sets what is stored for the pair that a feature's name and one origin word or two name
    /// (Permissions, "set a permission store entry"): for a span of milliseconds, or forever.
    pub(crate) fn set<L: Ledger>(
        &mut self,
        now: Millis,
        feature: &Text<'_>,
        first: &Text<'_>,
        second: &OptionalText<'_>,
        state: State,
        span: Option<u64>,
        steps: &mut Steps<L>,
    ) -> Result<Replies, Refusal>
        requires span { IsTrue (is_span_or_none span) }
        ensures { (H : History) → StandsFor self.old H
            → IsReplied self.old self.new H (timed now (event.SetState feature.now first.now second.now state span)) result }
    {
        engine_laws();
        self.next(now)?;
        let (feature, key) = match pair_named(
            self.alloc,
            feature.as_slice(),
            first.as_slice(),
            second,
        ) {
            Ok(pair) => pair,
            Err(refusal) => return Err(refusal),
        };
        if self.exceeds_store(feature, &key, steps) {
            return Err(Refusal::For(Cause::LimitStore));
        }
        let before = self.pass(now, steps)?;
        let life = life_for(now, span);
        let after = self.store_setting(feature, key, state, life, now, steps)?;
        self.note(now, Made::Nothing)?;
        Ok(Replies {
            before,
            answer: Answer::Done,
            after,
        })
    }
}
