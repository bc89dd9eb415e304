//! One event after another.
ghost use Rattle.std.specs.Prelude.{◌≡◌, ◌+◌, ◌*◌, ◌≤◌, ℕ, List, true, IfOk, IsTrue, OnOk, OnErr, [], ◌∷◌};
ghost use Rattle.pe_base.specs.declared.denial.Denial.{Denial};
ghost use Rattle.pe_events.specs.declared.answer.Answer.TheVariants as answer;
ghost use Rattle.pe_events.specs.declared.event.Event.TheVariants as event;
ghost use Rattle.pe_events.specs.declared.reason.Reason.TheVariants as reason;
ghost use Rattle.pe_rules.specs.Muting.{muted};
ghost use Rattle.pe_rules.specs.Replies.{is_regular};
ghost use Rattle.pe_isolation.specs.PageEvents.{is_of_page};
ghost use Rattle.pe_engine.specs.Isolation.{IsMutedReply};
ghost use Rattle.pe_engine.specs.Costs.{consumed_by_use, IsWithin};
ghost use Rattle.pe_engine.specs.Promises.{IsAllowedIn, IsDeniedIn, AreOfLive};
ghost use Rattle.pe_engine.specs.Replying.{timed, steps_of, is_plain, IsAnswer, IsReplied};
ghost use Rattle.pe_engine.specs.Stepping.{IsReply};

use crate::engine::Engine;
use crate::laws::engine_laws;
use crate::refusal::Refusal;
use crate::replies::Replies;
use pe_base::{Millis, Steps};
use pe_events::{Answer, Cause, Event, Stamped};
use pe_isolation::isolation_laws;
use std::alloc::AllocError;
use std::sync::ledger::Ledger;

impl Engine {
    ghost use Rattle.pe_rules.specs.History.{History};
    ghost use Rattle.pe_engine.specs.StandsFor.{StandsFor};

    /// Answers an event of a plain verb, which brings no change by itself, or says why it is not
    /// accepted.
    fn answer<L: Ledger>(
        &mut self,
        stamped: &Stamped<'_>,
        steps: &mut Steps<L>,
    ) -> Result<Answer, Refusal>
        requires plain { IsTrue (is_plain stamped.now.event) }
        ensures answered { (H : History) → StandsFor self.old H → IsAnswer self.old self.new H (timed stamped.now.time stamped.now.event) result }
        ensures cost { (H : History) → StandsFor self.old H → IsWithin self.old.duration (steps_of self.old H) stamped.now.time stamped.now.event steps.old steps.new }
    {
        let now = Millis::of(stamped.time);
        match &stamped.event {
            Event::OpenPage { url, header } => self.open(now, url, header),
            Event::Embed {
                parent,
                src,
                place,
                allow,
                sandbox,
                fullscreen,
                srcdoc,
                header,
            } => self.embed(
                now,
                *parent,
                src,
                place,
                allow,
                sandbox,
                *fullscreen,
                *srcdoc,
                header,
                steps,
            ),
            Event::Attr { frame, name, value } => self.attr(now, *frame, *name, value, steps),
            Event::Input { frame, kind } => self.input(now, *frame, *kind, steps),
            Event::Ask { frame } => self.state(now, *frame, steps),
            Event::History { frame } => self.history(now, *frame, steps),
            Event::PolicyOf { frame, feature } => self.policy(
                now,
                *frame,
                feature.as_slice(),
                steps,
            ),
            Event::Features { frame } => self.features(now, *frame, steps),
            Event::UseCall { frame, call } => self.use_call(now, *frame, call.as_slice(), steps),
            Event::Tick => self.tick(now),
            Event::Navigate { .. }
            | Event::Close { .. }
            | Event::Query { .. }
            | Event::DropStatus { .. }
            | Event::Request { .. }
            | Event::Answered { .. }
            | Event::SetState { .. }
            | Event::Post { .. }
            | Event::Deliver { .. } => unreachable!(),
        }
    }

    /// Takes the event of a plain verb, and then lets its time pass for the store.
    fn reply_after_time<L: Ledger>(
        &mut self,
        stamped: &Stamped<'_>,
        steps: &mut Steps<L>,
    ) -> Result<Replies, Refusal>
        requires plain { IsTrue (is_plain stamped.now.event) }
        ensures replied { (H : History) → StandsFor self.old H → IsReplied self.old self.new H (timed stamped.now.time stamped.now.event) result }
        ensures cost { (H : History) → StandsFor self.old H → stamped.now.time ≡ self.old.clock → IsWithin self.old.duration (steps_of self.old H) stamped.now.time stamped.now.event steps.old steps.new }
    {
        engine_laws();
        let answer = match self.answer(stamped, steps) {
            Ok(answer) => answer,
            Err(refusal) => return Err(refusal),
        };
        let before = self.lapse(Millis::of(stamped.time), steps)?;
        Ok(Replies {
            before,
            answer,
            after: Vec::new(self.alloc),
        })
    }

    /// Takes an event, or says why it is not accepted.
    fn accept<L: Ledger>(
        &mut self,
        stamped: &Stamped<'_>,
        steps: &mut Steps<L>,
    ) -> Result<Replies, Refusal>
        ensures replied { (H : History) → StandsFor self.old H → IsReplied self.old self.new H (timed stamped.now.time stamped.now.event) result }
        ensures cost { (H : History) → StandsFor self.old H → stamped.now.time ≡ self.old.clock → IsWithin self.old.duration (steps_of self.old H) stamped.now.time stamped.now.event steps.old steps.new }
    {
        let now = Millis::of(stamped.time);
        match &stamped.event {
            Event::Navigate { frame, url, header } => {
                self.navigate(now, *frame, url, header, steps)
            }
            Event::Close { frame } => self.close(now, *frame, steps),
            Event::Request { frame, feature } => self.request(
                now,
                *frame,
                feature.as_slice(),
                steps,
            ),
            Event::Answered {
                prompt,
                outcome,
                life,
            } => self.answer_prompt(now, *prompt, *outcome, *life, steps),
            Event::SetState {
                feature,
                first,
                second,
                state,
                span,
            } => self.set(now, feature, first, second, *state, *span, steps),
            Event::Query { frame, feature } => self.query(now, *frame, feature.as_slice(), steps),
            Event::DropStatus { status } => self.drop_status(now, *status, steps),
            Event::Post {
                sender,
                target,
                origin,
                capability,
            } => self.post(now, *sender, *target, origin, capability.as_slice(), steps),
            Event::Deliver { message } => self.deliver(now, *message, steps),
            Event::OpenPage { .. }
            | Event::Embed { .. }
            | Event::Attr { .. }
            | Event::Input { .. }
            | Event::Ask { .. }
            | Event::History { .. }
            | Event::PolicyOf { .. }
            | Event::Features { .. }
            | Event::UseCall { .. }
            | Event::Tick => self.reply_after_time(stamped, steps),
        }
    }

    /// The reply to an event that is refused.
    fn refused(&self, cause: Cause) -> Replies
        ensures answer { result.answer ≡ answer.Refused cause }
        ensures before { result.before.items ≡ [] }
        ensures after { result.after.items ≡ [] }
    {
        Replies {
            before: Vec::new(self.alloc),
            answer: Answer::Refused { cause },
            after: Vec::new(self.alloc),
        }
    }

    /// The reply to an event.
    fn reply<L: Ledger>(
        &mut self,
        stamped: &Stamped<'_>,
        steps: &mut Steps<L>,
    ) -> Result<Replies, AllocError>
        ensures replied { (H : History) → StandsFor self.old H → IfOk result (IsReply self.old self.new H (timed stamped.now.time stamped.now.event)) }
        ensures once_failed { self.old.failed ≡ true → OnOk result ⊥ × (self.new ≡ self.old) }
        ensures fails { OnErr result (self.new.failed ≡ true) }
        ensures cost { (H : History) → StandsFor self.old H → stamped.now.time ≡ self.old.clock → IsWithin self.old.duration (steps_of self.old H) stamped.now.time stamped.now.event steps.old steps.new }
    {
        if self.failed {
            return Err(AllocError);
        }
        match self.accept(stamped, steps) {
            Ok(replies) => Ok(replies),
            Err(Refusal::For(cause)) => Ok(self.refused(cause)),
            Err(Refusal::Memory) => {
                self.failed = true;
                Err(AllocError)
            }
        }
    }

    /// Takes an event. It is accepted, and answered after those before it, or refused for the first
    /// cause that applies, which changes nothing. A refusal is `Ok` with `Answer::Refused`; both lists are
    /// then empty. `AllocError` where memory wants, now or in an earlier call.
    pub fn step<L: Ledger>(
        &mut self,
        stamped: &Stamped<'_>,
        steps: &mut Steps<L>,
    ) -> Result<Replies, AllocError>
        ensures replied { (H : History) → StandsFor self.old H → IfOk result (IsReply self.old self.new H (timed stamped.now.time stamped.now.event)) }
        ensures once_failed { self.old.failed ≡ true → OnOk result ⊥ × (self.new ≡ self.old) }
        ensures fails { OnErr result (self.new.failed ≡ true) }

        // Where no time passes, `policy` costs one step; `use` costs three, and two more for each document
        // whose user activation it consumes.
        ensures policy_cost { (H : History) (frame : ℕ) (name : List ℕ) → StandsFor self.old H → stamped.now.time ≡ self.old.clock → stamped.now.event ≡ event.PolicyOf frame name
            → steps.new ≤ steps.old + 1 }
        ensures use_cost { (H : History) (frame : ℕ) (name : List ℕ) → StandsFor self.old H → stamped.now.time ≡ self.old.clock → stamped.now.event ≡ event.UseCall frame name
            → steps.new ≤ steps.old + 3 + 2 * consumed_by_use self.old.duration (steps_of self.old H) stamped.now.time frame name }

        // Each change names a status that is live: one that the time brings before the event, and one that
        // the event brings before it and, where it is accepted, after it.
        ensures before { (H : History) → StandsFor self.old H → IfOk result (λ r. AreOfLive (steps_of self.old H) r.before.items) }
        ensures after { (H : History) → StandsFor self.old H
            → IfOk result (λ r. AreOfLive (steps_of self.old H) r.after.items × AreOfLive (steps_of self.old (timed stamped.now.time stamped.now.event ∷ H)) r.after.items) }

        // A page is told the same whatever inputs, uses, posts, deliveries and history actions other pages have.
        ensures isolated { (H : History) (top : ℕ) → StandsFor self.old H → IsTrue (is_of_page (steps_of self.old H) top stamped.now.event)
            → IfOk result (IsMutedReply self.old.duration top H (timed stamped.now.time stamped.now.event)) }
        ensures muted { (H : History) (top : ℕ) → StandsFor self.old H → IsTrue (is_regular self.old.duration (muted self.old.duration top H)) }

        // What the policy's answers say of each document from the page's top one down.
        ensures allowed { (H : History) (frame : ℕ) (name : List ℕ) → StandsFor self.old H → stamped.now.event ≡ event.PolicyOf frame name
            → IfOk result (λ r. r.answer ≡ answer.Allowed → IsAllowedIn (steps_of self.old H) frame name) }
        ensures denied { (H : History) (frame : ℕ) (name : List ℕ) (why : Denial) → StandsFor self.old H → stamped.now.event ≡ event.PolicyOf frame name
            → IfOk result (λ r. r.answer ≡ answer.Denied (reason.Policy why) → IsDeniedIn (steps_of self.old H) frame name why) }
    {
        engine_laws();
        isolation_laws();
        self.reply(stamped, steps)
    }
}
