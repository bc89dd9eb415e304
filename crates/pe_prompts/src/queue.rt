//! The pending prompts of a page.
ghost use Rattle.std.specs.Prelude.{◌≡◌, ℕ, nat_eq, None, Some, true, false, ◌++◌, ◌≤◌, ◌<◌, [], ◌∷◌, OnOk, OnErr, IfOk, IfErr, IsSome, IsTrue, ◌↔◌, length, option_copied};
ghost use Rattle.std.specs.Map.{remove_entry};
ghost use Rattle.pe_base.specs.declared.limits.TheConstants.{EVENT_LIMIT};
ghost use Rattle.pe_store.specs.Numbers.{IsChangedFor};
ghost use Rattle.pe_prompts.specs.Pending.{prompt_in, pair_of, is_first, number_for, joined, left};
ghost use Rattle.pe_prompts.specs.Indexed.{pairs_in};

use crate::waiting::Waiting;
use pe_arena::DocRef;
use pe_base::{DocNo, FrameNo, PENDING_LIMIT, PromptNo};
use pe_features::Feature;
use pe_store::{Key, PairNumbers, same_pairs_are_one};
use std::alloc::{AllocError, Global};
use std::collections::BTreeMap;
use std::marker::Model;

/// A pending prompt.
#[derive(Drop)]
pub struct Prompt {
    /// The top frame of the page that asks.
    pub page: FrameNo,
    /// The feature that is asked for.
    pub feature: Feature,
    /// The key under which the answer is kept.
    pub key: Key,
    /// The requests that wait for the answer.
    pub waiting: Waiting,
}

impl Prompt {
    // A prompt with one request. `AllocError` where memory wants.
    pub(crate) fn asked(
        alloc: Global,
        page: FrameNo,
        feature: Feature,
        key: Key,
        asker: DocRef,
    ) -> Result<Prompt, AllocError>
        ensures { IfOk result (λ prompt. prompt ≡ record { page = page; feature = feature; key = key; waiting = asker ∷ [] }) }
    {
        let mut waiting = Waiting::new(alloc);
        waiting.push(asker)?;
        Ok(Prompt {
            page,
            feature,
            key,
            waiting,
        })
    }
}

/// The pending prompts of a page: by their numbers, and the number of each pair that one of them asks for.
#[derive(Drop)]
pub(crate) struct Queue {
    prompts: BTreeMap<PromptNo, Prompt>,
    pairs: PairNumbers,
}

impl Model for Queue {
    ghost use Rattle.std.specs.Prelude.{◌≤◌, length};
    ghost use Rattle.pe_base.specs.declared.limits.TheConstants.{PENDING_LIMIT};
    ghost use Rattle.pe_prompts.specs.Pending.{Pending};

    ghost Value = { Pending };

    ghost view = { λ q. q.prompts.entries };

    ghost use Rattle.pe_prompts.specs.Indexed.{IsIndex};

    ghost invariant = { λ q. (length q.prompts.entries ≤ PENDING_LIMIT) × IsIndex q.prompts.entries q.pairs };
}

// Puts a request behind those of the prompt. `AllocError` where memory wants.
fn join_in(
    prompts: &mut BTreeMap<PromptNo, Prompt>,
    number: PromptNo,
    asker: DocRef,
) -> Result<(), AllocError>
    ensures ok { OnOk result (prompts.new.entries ≡ joined number asker prompts.old.entries) }
    ensures err { OnErr result (prompts.new.entries ≡ prompts.old.entries) }
{
    match prompts.get_mut(&number) {
        Some(prompt) => prompt.waiting.push(asker),
        None => Ok(()),
    }
}

// Drops the document's requests for the prompt, and says whether it is left with none.
fn drop_in(prompts: &mut BTreeMap<PromptNo, Prompt>, number: PromptNo, doc: DocNo) -> bool
    ensures kept { result ≡ false → prompts.new.entries ≡ left number doc prompts.old.entries }
    ensures emptied { result ≡ true → remove_entry (nat_eq number) prompts.new.entries ≡ left number doc prompts.old.entries }
    ensures len { length prompts.new.entries ≡ length prompts.old.entries }
    ensures pairs { pairs_in prompts.new.entries ≡ pairs_in prompts.old.entries }
{
    match prompts.get_mut(&number) {
        Some(prompt) => {
            prompt.waiting.drop_of(doc);
            prompt.waiting.is_empty()
        }
        None => false,
    }
}

// Puts a prompt behind the others. It is handed back where memory wants.
fn put(
    prompts: &mut BTreeMap<PromptNo, Prompt>,
    number: PromptNo,
    prompt: Prompt,
) -> Result<(), Prompt>
    requires { (k : ℕ) → IsSome (prompt_in k prompts.old.entries) → k < number }
    ensures ok { OnOk result (prompts.new.entries ≡ prompts.old.entries ++ (number, prompt) ∷ []) }
    ensures err { OnErr result (prompts.new.entries ≡ prompts.old.entries) }
    ensures back { IfErr result (λ p. p ≡ prompt) }
{
    match prompts.insert(number, prompt) {
        Ok(old) => {
            let_go(old);
            Ok(())
        }
        Err(refused) => {
            let (_, prompt) = refused.value;
            Err(prompt)
        }
    }
}

// Takes a prompt out.
fn take(prompts: &mut BTreeMap<PromptNo, Prompt>, number: PromptNo) -> Option<Prompt>
    ensures prompt { result ≡ prompt_in number prompts.old.entries }
    ensures rest { prompts.new.entries ≡ remove_entry (nat_eq number) prompts.old.entries }
    ensures gone { prompt_in number prompts.new.entries ≡ None }
{
    prompts.remove(&number)
}

// Notes the number under the prompt's pair. `AllocError` where memory wants.
fn note(pairs: &mut PairNumbers, number: PromptNo, prompt: &Prompt) -> Result<(), AllocError>
    ensures ok { OnOk result (IsChangedFor (pair_of prompt.now) (Some number) pairs.old pairs.new) }
    ensures err { OnErr result (pairs.new ≡ pairs.old) }
    ensures low { 1 ≤ number }
    ensures high { number ≤ EVENT_LIMIT }
{
    let position = u64::from(number.get());
    let key = prompt.key.copy()?;
    pairs.put(prompt.feature, key, position)
}

// The prompt of a number that the index has.
fn numbered(number: u64) -> PromptNo
    requires low { 1 ≤ number }
    requires high { number ≤ EVENT_LIMIT }
    ensures { result ≡ number }
{
    PromptNo::of(number as u32)
}

// Lets a prompt go.
fn let_go(_prompt: Option<Prompt>) {}

impl Queue {
    /// No prompt. Nothing is allocated.
    pub fn new(alloc: Global) -> Queue
        ensures { result ≡ [] }
    {
        Queue {
            prompts: BTreeMap::new(alloc),
            pairs: PairNumbers::new(alloc),
        }
    }

    /// How many there are.
    pub fn len(&self) -> u32
        ensures value { result ≡ length self.now }
        ensures small { result ≤ PENDING_LIMIT }
    {
        self.prompts.len() as u32
    }

    /// Whether there is none.
    pub fn is_empty(&self) -> bool
        ensures { IsTrue result ↔ (self.now ≡ []) }
    {
        self.prompts.is_empty()
    }

    /// Whether the prompt is the oldest.
    pub fn is_first(&self, number: PromptNo) -> bool
        ensures { result ≡ is_first number self.now }
    {
        match self.prompts.first_key_value() {
            Some((first, _)) => number == *first,
            None => false,
        }
    }

    /// The prompt of the number.
    pub fn get(&self, number: PromptNo) -> Option<&Prompt>
        ensures { option_copied result ≡ prompt_in number self.now }
    {
        self.prompts.get(&number)
    }

    /// The number of the prompt that asks for the feature under the key. One look-up.
    pub fn number_for(&self, feature: Feature, key: &Key) -> Option<PromptNo>
        ensures { result ≡ number_for (feature, key.now) self.now }
    {
        match self.pairs.number(feature, key) {
            Some(number) => Some(numbered(number)),
            None => None,
        }
    }

    /// Puts a prompt behind the others, of which none asks for the same. `AllocError` where memory wants.
    pub fn push(&mut self, number: PromptNo, prompt: Prompt) -> Result<(), AllocError>
        requires above { (k : ℕ) → IsSome (prompt_in k self.old) → k < number }
        requires alone { number_for (prompt.feature, prompt.key) self.old ≡ None }
        requires room { length self.old < PENDING_LIMIT }
        ensures ok { OnOk result (self.new ≡ self.old ++ (number, prompt) ∷ []) }
        ensures err { OnErr result (self.new ≡ self.old) }
    {
        same_pairs_are_one();
        note(&mut self.pairs, number, &prompt)?;
        let Err(prompt) = put(&mut self.prompts, number, prompt) else {
            return Ok(());
        };
        self.pairs.remove(prompt.feature, &prompt.key);
        let_go(Some(prompt));
        Err(AllocError)
    }

    /// Puts a request behind those of the prompt, if it is there. `AllocError` where memory wants.
    pub fn join(&mut self, number: PromptNo, asker: DocRef) -> Result<(), AllocError>
        ensures ok { OnOk result (self.new ≡ joined number asker self.old) }
        ensures err { OnErr result (self.new ≡ self.old) }
    {
        join_in(&mut self.prompts, number, asker)
    }

    /// Takes the prompt out, if it is there.
    pub fn remove(&mut self, number: PromptNo)
        ensures rest { self.new ≡ remove_entry (nat_eq number) self.old }
        ensures gone { prompt_in number self.new ≡ None }
    {
        same_pairs_are_one();
        let Some(prompt) = take(&mut self.prompts, number) else {
            return;
        };
        self.pairs.remove(prompt.feature, &prompt.key);
        let_go(Some(prompt));
    }

    /// Drops the document's requests for the prompt, which is gone if no other waits.
    pub fn drop_of(&mut self, number: PromptNo, doc: DocNo)
        ensures { self.new ≡ left number doc self.old }
    {
        if drop_in(&mut self.prompts, number, doc) {
            self.remove(number);
        }
    }
}
