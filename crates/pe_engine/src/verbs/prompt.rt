//! `request` and `answer`: prompts for a permission.
ghost use Rattle.std.specs.Prelude.{◌≡◌, ◌+◌, ◌<◌, ◌≤◌, ◌++◌, ◌∷◌, ◌&&◌, [], ℕ, List, Option, nat_le, false, Some, None, IfOk, IfErr, IsSome, IsTrue, OnOk, not, is_some, is_none, length, option_map};
ghost use Rattle.pe_base.specs.declared.limits.TheConstants.{EVENT_LIMIT, PENDING_LIMIT, STORE_LIMIT};
ghost use Rattle.pe_base.specs.declared.state.State.{State};
ghost use Rattle.pe_store.specs.declared.key.Life.{Life};
ghost use Rattle.pe_store.specs.Entries.{StoreValue, IsFull, completes_embargo};
ghost use Rattle.pe_events.specs.declared.answer.Answer.TheVariants as answer;
ghost use Rattle.pe_events.specs.declared.event.Event.TheVariants as event;
ghost use Rattle.pe_engine.specs.declared.engine.Made.TheVariants as made;
ghost use Rattle.pe_events.specs.Fitting.{is_fitting, is_life};
ghost use Rattle.pe_features.specs.Features.{feature_named, key_of};
ghost use Rattle.pe_frames.specs.Forest.{entry_of};
ghost use Rattle.pe_prompts.specs.Pending.{pair_of};
ghost use Rattle.pe_prompts.specs.Queues.{asked_of, pending, pending_of, prompt_at};
ghost use Rattle.pe_requests.specs.PromptSteps.{IsAsking, answer_of_asked};
ghost use Rattle.pe_changes.specs.Parts.{IsStore, IsStatuses, AreGoverned};
ghost use Rattle.pe_changes.specs.StoreSteps.{IsSet, IsDismissed, IsLapsed};
ghost use Rattle.pe_rules.specs.Causes.{entries, is_prompt_state};
ghost use Rattle.pe_rules.specs.Changes.{changes_after};
ghost use Rattle.pe_rules.specs.Current.{document_in};
ghost use Rattle.pe_rules.specs.History.{History, RepliedHistory, Step};
ghost use Rattle.pe_rules.specs.PermissionState.{permission_state};
ghost use Rattle.pe_rules.specs.Replies.{state_replied};
ghost use Rattle.pe_rules.specs.Settings.{life_of_answer, is_undecided, embargo_for, stored_state, setting_by, holds, has_entry};
ghost use Rattle.pe_engine.specs.Causes.{named_cause};
ghost use Rattle.pe_engine.specs.Objects.{handle_at};
ghost use Rattle.pe_engine.specs.Prompting.{made_by_request, setting_for, HasPrompted, HasAnswered, IsDecided, FitsStore};
ghost use Rattle.pe_engine.specs.Replying.{steps_of, timed, IsChecked, IsReplied};
ghost use Rattle.pe_engine.specs.Rows.{blocks};
ghost use Rattle.pe_engine.specs.StandsFor.{StandsFor};
ghost use Rattle.pe_events.specs.declared.event.EventLife.{EventLife};
ghost use Rattle.pe_events.specs.declared.event.Outcome.{Outcome};

use crate::decision::stored_at;
use crate::engine::{Engine, Made};
use crate::laws::engine_laws;
use crate::refusal::Refusal;
use crate::replies::Replies;
use crate::verbs::query::powerful;
use crate::verdict::{key_for, permission_state};
use pe_arena::{DocRef, Handle};
use pe_base::{
    DocNo, EMBARGO_DISMISSALS, EMBARGO_SPAN, FrameNo, Millis, PENDING_LIMIT, PromptNo, State, Steps,
};
use pe_events::{Answer, Cause, Change, EventLife, Outcome};
use pe_features::Feature;
use pe_prompts::{AnswerFault, Asked, Prompt};
use pe_store::{Key, Life, StoreFault};
use std::alloc::AllocError;
use std::sync::ledger::Ledger;

/// What a request asks for, and the state that it finds.
#[derive(Drop)]
struct Asking {
    page: FrameNo,
    feature: Feature,
    key: Key,
    asker: DocRef,
    state: State,
}

/// What an answer decides: the pair of its prompt, with the state and the life that it sets for it, by
/// name or as an embargo, if it does.
#[derive(Drop)]
struct Decision {
    prompt: PromptNo,
    feature: Feature,
    key: Key,
    set: Option<(State, Life)>,
}

/// What a request made that was told this.
fn made_by_asked(asked: &Asked) -> Made
    ensures { (number : ℕ) (join : Option ℕ) → asked.now ≡ asked_of number join → result ≡ made_by_request join }
{
    match asked {
        Asked::New(_) => Made::Prompt,
        Asked::Joined(_) => Made::Nothing,
    }
}

/// The answer to a request that was told this.
fn answer_of_asked(asked: Asked) -> Answer
    ensures { result ≡ answer_of_asked asked }
{
    match asked {
        Asked::New(prompt) => Answer::PromptMade { prompt },
        Asked::Joined(prompt) => Answer::PromptJoined { prompt },
    }
}

/// The state that an outcome tells; of a dismissal prompt, also where it is an embargo.
fn state_replied(outcome: Outcome) -> State
    ensures { result ≡ state_replied outcome }
{
    match outcome {
        Outcome::Allow => State::Granted,
        Outcome::Block => State::Denied,
        Outcome::Dismiss => State::Prompt,
    }
}

/// How long what an answer at this time sets holds, where the prompt's page has this top document.
fn life_of_answer(now: Millis, life: EventLife, top: Option<DocNo>) -> Life
    requires { IsTrue (is_life Outcome.Allow life) }
    ensures { result ≡ life_of_answer now life top }
{
    match life {
        EventLife::Forever => Life::Forever,
        EventLife::For(span) => Life::Until(now.get() + span),
        EventLife::Once => match top {
            Some(top) => Life::Page(top),
            None => Life::Until(0),
        },
    }
}

/// Whether nothing or prompt is stored.
fn is_undecided(stored: Option<State>) -> bool
    ensures { result ≡ is_undecided stored }
{
    match stored {
        None => true,
        Some(State::Prompt) => true,
        Some(State::Granted) => false,
        Some(State::Denied) => false,
    }
}

impl Engine {
    /// What a request of the document that the live frame shows asks for a feature, and the state that it
    /// finds at a time that is not before the clock.
    fn asking<L: Ledger>(
        &self,
        now: Millis,
        h: Handle,
        feature: Feature,
        steps: &mut Steps<L>,
    ) -> Result<Asking, AllocError>
        requires live { IsSome (entry_of self.now.frames.entries h) }
        requires keyed { IsSome (key_of feature) }
        ensures feature { IfOk result (λ a. a.feature ≡ feature) }
        ensures asks { (H : History) (f : ℕ) (name : List ℕ) → StandsFor self.now H → handle_at self.now.made f ≡ Some h → feature_named name ≡ Some feature
            → IfOk result (λ a. IsAsking (steps_of self.now H) f name a.asker.doc a.page (a.feature, a.key)) }
        ensures state { (H : History) (f : ℕ) → StandsFor self.now H → self.now.clock ≤ now → handle_at self.now.made f ≡ Some h
            → IfOk result (λ a. a.state ≡ permission_state (steps_of self.now H) now a.asker.doc a.feature) }
    {
        engine_laws();
        let page = self.page_of(h, steps);
        let row = self.row(h, steps);
        let key = key_for(row, feature).unwrap();
        let stored = stored_at(&self.store, feature, key, now, steps);
        let state = permission_state(row, feature, stored);
        let key = key.copy()?;
        Ok(Asking {
            page,
            feature,
            key,
            asker: DocRef {
                at: h,
                doc: row.doc,
            },
            state,
        })
    }

    /// Whether a request would make a prompt in a page of as many pending ones as there may be.
    fn exceeds_pending(&self, asking: &Asking) -> bool
        ensures { result ≡ (is_prompt_state (Some asking.now.state) && is_none (pending_of self.now.prompts asking.now.page (asking.now.feature, asking.now.key)) && nat_le PENDING_LIMIT (length (pending self.now.prompts asking.now.page))) }
    {
        match asking.state {
            State::Prompt => {
                self.prompts.pending(asking.page) >= PENDING_LIMIT
                    && self
                        .prompts
                        .pending_of(asking.page, asking.feature, &asking.key)
                        .is_none()
            }
            State::Granted | State::Denied => false,
        }
    }

    /// Puts a request at this time to the pending prompt of its pair in its page, or to the new one of this
    /// number where there is none, and notes what it made.
    fn ask(&mut self, now: Millis, number: PromptNo, asking: Asking) -> Result<Answer, AllocError>
        requires number { number ≡ length self.old.made + 1 }
        requires few { length self.old.made < EVENT_LIMIT }
        ensures { IfOk result (HasPrompted self.old self.new now number asking.page (asking.feature, asking.key) asking.asker) }
    {
        engine_laws();
        self.made.reserve(1)?;
        let Ok(asked) = self.prompts.request(
            number,
            asking.page,
            asking.feature,
            asking.key,
            asking.asker,
        )
        else {
            return Err(AllocError);
        };
        self.made.push_reserved(made_by_asked(&asked));
        self.clock = now;
        Ok(answer_of_asked(asked))
    }

    /// Answers a request that found this state, which is not prompt.
    fn state_found(&mut self, now: Millis, state: State) -> Result<Answer, AllocError>
        requires few { length self.old.made < EVENT_LIMIT }
        ensures answer { IfOk result (λ said. said ≡ answer.Stated state) }
        ensures noted { OnOk result (self.new ≡ record self.old { clock = now; made = self.old.made ++ made.Nothing ∷ [] }) }
    {
        self.note(now, Made::Nothing)?;
        Ok(Answer::Stated { state })
    }

    /// Answers a request at this time by the state that it found, or, where that is prompt, by the prompt
    /// of this number that it makes, or the one that it joins.
    fn answer_request(
        &mut self,
        now: Millis,
        number: PromptNo,
        asking: Asking,
    ) -> Result<Answer, AllocError>
        requires number { number ≡ length self.old.made + 1 }
        requires few { length self.old.made < EVENT_LIMIT }
        ensures { IfOk result (HasAnswered asking.state self.old self.new now number asking.page (asking.feature, asking.key) asking.asker) }
    {
        match asking.state {
            State::Prompt => self.ask(now, number, asking),
            State::Granted => self.state_found(now, State::Granted),
            State::Denied => self.state_found(now, State::Denied),
        }
    }

    /// Requests a permission for the document of the frame of this number (Permissions, "request
    /// permission to use").
    pub(crate) fn request<L: Ledger>(
        &mut self,
        now: Millis,
        frame: u32,
        name: &[u8],
        steps: &mut Steps<L>,
    ) -> Result<Replies, Refusal>
        ensures { (H : History) → StandsFor self.old H → IsReplied self.old self.new H (timed now (event.Request frame name.now)) result }
    {
        engine_laws();
        let (number, h) = self.next_in(now, frame)?;
        let Some(feature) = powerful(name) else {
            return Err(Refusal::For(Cause::Feature));
        };
        let asking = self.asking(now, h, feature, steps)?;
        if self.exceeds_pending(&asking) {
            return Err(Refusal::For(Cause::LimitPending));
        }
        let before = self.pass(now, steps)?;
        let answer = self.answer_request(now, PromptNo::of(number), asking)?;
        Ok(Replies {
            before,
            answer,
            after: Vec::new(self.alloc),
        })
    }

    /// The top document of a page: the one that its top frame shows.
    fn top_document<L: Ledger>(&self, page: FrameNo, steps: &mut Steps<L>) -> Option<DocNo>
        ensures { (H : History) → StandsFor self.now H → result ≡ document_in (steps_of self.now H) page }
    {
        engine_laws();
        let h = self.handle(page.get())?;
        let node = self.frames.node(h, steps)?;
        Some(node.doc.get().doc)
    }

    /// Whether a dismissal of a pair at a time that is not before the clock is an embargo.
    fn is_embargo<L: Ledger>(
        &self,
        feature: Feature,
        key: &Key,
        now: Millis,
        steps: &mut Steps<L>,
    ) -> bool
        ensures embargo { (H : History) → StandsFor self.now H → self.now.clock ≤ now → result ≡ is_some (embargo_for now (steps_of self.now H) (feature, key.now)) }
        ensures later { (later : StoreValue) → IsLapsed now self.now.store later → result ≡ completes_embargo later (feature, key.now) }
    {
        engine_laws();
        if !is_undecided(stored_at(&self.store, feature, key, now, steps)) {
            return false;
        }
        self.store.dismissals(feature, key) + 1 == EMBARGO_DISMISSALS
    }

    /// The state and the life that an answer at this time to the prompt sets for its pair, if it does.
    fn decided<L: Ledger>(
        &self,
        asked: &Prompt,
        outcome: Outcome,
        life: EventLife,
        now: Millis,
        steps: &mut Steps<L>,
    ) -> Option<(State, Life)>
        requires { IsTrue (is_life outcome life) }
        ensures decided { (H : History) (k : ℕ) → StandsFor self.now H → self.now.clock ≤ now → prompt_at self.now.prompts k ≡ Some asked.now
            → IsDecided (steps_of self.now H) now k outcome life (pair_of asked.now) result }
        ensures dismissed { result ≡ None → (later : StoreValue) → IsLapsed now self.now.store later → completes_embargo later (pair_of asked.now) ≡ false }
    {
        engine_laws();
        match outcome {
            Outcome::Allow => Some((
                State::Granted,
                life_of_answer(now, life, self.top_document(asked.page, steps)),
            )),
            Outcome::Block => Some((
                State::Denied,
                life_of_answer(now, life, self.top_document(asked.page, steps)),
            )),
            Outcome::Dismiss => {
                if !self.is_embargo(asked.feature, &asked.key, now, steps) {
                    return None;
                }
                Some((State::Denied, Life::Until(now.get() + EMBARGO_SPAN)))
            }
        }
    }

    /// The shown prompt of this number, or the first cause against it.
    fn shown(&self, number: u32) -> Result<&Prompt, Cause>
        ensures cause { (H : History) (out : Outcome) (given : EventLife) → StandsFor self.now H → IfErr result (λ why. named_cause (steps_of self.now H) (event.Answered number out given) ≡ Some why) }
        ensures none { (H : History) (out : Outcome) (given : EventLife) → StandsFor self.now H → IfOk result (λ p. named_cause (steps_of self.now H) (event.Answered number out given) ≡ None) }
        ensures at { IfOk result (λ p. prompt_at self.now.prompts number ≡ Some p.now) }
        ensures least { OnOk result (1 ≤ number) }
        ensures most { OnOk result (number ≤ EVENT_LIMIT) }
    {
        engine_laws();
        if number == 0 {
            return Err(Cause::Unknown);
        }
        if number as usize > self.made.len() {
            return Err(Cause::Unknown);
        }
        match self.prompts.shown(PromptNo::of(number)) {
            Ok(asked) => Ok(asked),
            Err(AnswerFault::Settled) => Err(Cause::Settled),
            Err(AnswerFault::Closed) => Err(Cause::Closed),
            Err(AnswerFault::NotShown) => Err(Cause::NotShown),
            Err(AnswerFault::Unknown) => Err(Cause::Unknown),
            Err(AnswerFault::Memory) => unreachable!(),
        }
    }

    /// Whether what an answer decides for a pair would make an entry in a store of as many as there may
    /// be.
    fn exceeds_by<L: Ledger>(
        &self,
        feature: Feature,
        key: &Key,
        decided: &Option<(State, Life)>,
        steps: &mut Steps<L>,
    ) -> bool
        ensures limit { (H : History) → StandsFor self.now H
            → result ≡ (is_some decided.now && (not (has_entry (steps_of self.now H) (feature, key.now)) && nat_le STORE_LIMIT (length (entries (steps_of self.now H))))) }
        ensures room { (x : State × Life) (to : ℕ) (later : StoreValue) → decided.now ≡ Some x → IsLapsed to self.now.store later → IsFull later.entries (feature, key.now) → IsTrue result }
    {
        match decided {
            Some(_) => self.exceeds_store(feature, key, steps),
            None => false,
        }
    }

    /// What an answer at this time to the prompt of this number decides, or the first cause against it.
    fn check_answer<L: Ledger>(
        &self,
        now: Millis,
        number: u32,
        outcome: Outcome,
        life: EventLife,
        steps: &mut Steps<L>,
    ) -> Result<Decision, Refusal>
        requires { IsTrue (is_life outcome life) }
        ensures checked { (H : History) → StandsFor self.now H → IsChecked self.now H (timed now (event.Answered number outcome life)) result }
        ensures decided { (H : History) → StandsFor self.now H → IfOk result (λ d. IsDecided (steps_of self.now H) now number outcome life (d.feature, d.key) d.set) }
        ensures fits { IfOk result (λ d. (later : StoreValue) → IsLapsed now self.now.store later → FitsStore later (d.feature, d.key) d.set) }
        ensures number { IfOk result (λ d. d.prompt ≡ number) }
        ensures late { OnOk result (self.now.clock ≤ now) }
        ensures few { OnOk result (length self.now.made < EVENT_LIMIT) }
    {
        engine_laws();
        self.next(now)?;
        let asked = match self.shown(number) {
            Ok(asked) => asked,
            Err(cause) => return Err(Refusal::For(cause)),
        };
        let set = self.decided(asked, outcome, life, now, steps);
        if self.exceeds_by(asked.feature, &asked.key, &set, steps) {
            return Err(Refusal::For(Cause::LimitStore));
        }
        let key = asked.key.copy()?;
        Ok(Decision {
            prompt: PromptNo::of(number),
            feature: asked.feature,
            key,
            set,
        })
    }

    /// Sets what an answer at this time decided for its pair, or counts the dismissal, which is no embargo.
    /// The changes are those that the setting brings.
    fn store_decided<L: Ledger>(
        &mut self,
        feature: Feature,
        key: Key,
        decided: Option<(State, Life)>,
        now: Millis,
        steps: &mut Steps<L>,
    ) -> Result<Vec<Change>, AllocError>
        requires fits { FitsStore self.old.store (feature, key) decided }
        ensures rest { OnOk result (self.new ≡ record self.old { store = self.new.store }) }
        ensures set { (x : State × Life) → decided ≡ Some x → OnOk result (IsSet (setting_for (feature, key) x) self.old.store self.new.store) }
        ensures dismissed { decided ≡ None → OnOk result (IsDismissed (feature, key) now self.old.store self.new.store) }
        ensures changes { (T : RepliedHistory) (s : Step) (x : State × Life) → decided ≡ Some x → setting_by s.time s.event T ≡ Some (setting_for (feature, key) x) → IsTrue (holds (s ∷ T) now x.1)
            → IsStore T now self.old.store → IsStatuses T self.old.statuses → AreGoverned T (λ y. y.doc) blocks self.old.frames.entries self.old.statuses.live
            → IfOk result (λ changes. changes.items ≡ changes_after T (s ∷ T) now) }
        ensures none { decided ≡ None → IfOk result (λ changes. changes.items ≡ []) }
    {
        let Some((state, life)) = decided else {
            return match self.store.dismissed(feature, key, now) {
                Ok(_) => Ok(Vec::new(self.alloc)),
                Err(StoreFault::Memory) => Err(AllocError),
                Err(StoreFault::Full) => unreachable!(),
            };
        };
        self.store_setting(feature, key, state, life, now, steps)
    }

    /// Answers the shown prompt of this number (Permissions, "request permission to use"): it is settled,
    /// and what the user chose is set for its pair, or the dismissal is counted.
    pub(crate) fn answer_prompt<L: Ledger>(
        &mut self,
        now: Millis,
        number: u32,
        outcome: Outcome,
        life: EventLife,
        steps: &mut Steps<L>,
    ) -> Result<Replies, Refusal>
        requires fitting { IsTrue (is_fitting (event.Answered number outcome life)) }
        ensures { (H : History) → StandsFor self.old H → IsReplied self.old self.new H (timed now (event.Answered number outcome life)) result }
    {
        engine_laws();
        let Decision {
            prompt,
            feature,
            key,
            set,
        } = match self.check_answer(now, number, outcome, life, steps) {
            Ok(decision) => decision,
            Err(refusal) => return Err(refusal),
        };
        let before = self.pass(now, steps)?;
        let after = self.store_decided(feature, key, set, now, steps)?;
        let Ok(requests) = self.prompts.answer(prompt) else {
            return Err(Refusal::Memory);
        };
        // So many requests have no room in memory.
        if requests.len() > u32::MAX as usize {
            return Err(Refusal::Memory);
        }
        let count = requests.len() as u32;
        self.note(now, Made::Nothing)?;
        Ok(Replies {
            before,
            answer: Answer::Settled {
                count,
                state: state_replied(outcome),
            },
            after,
        })
    }
}
