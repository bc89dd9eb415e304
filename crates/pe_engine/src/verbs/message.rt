//! `post` and `deliver`: delegating messages.
ghost use Rattle.std.specs.Prelude.{◌≡◌, ◌+◌, ◌<◌, ◌≤◌, ℕ, List, Option, Some, None, IfOk, IfErr, IfSome, IfNone, IsSome, OnOk, length};
ghost use Rattle.pe_base.specs.declared.limits.TheConstants.{EVENT_LIMIT};
ghost use Rattle.pe_delegation.specs.Posted.{message, deliver_fault};
ghost use Rattle.pe_events.specs.declared.answer.Answer.TheVariants as answer;
ghost use Rattle.pe_events.specs.declared.event.Event.TheVariants as event;
ghost use Rattle.pe_features.specs.Capabilities.{capability_named};
ghost use Rattle.pe_frames.specs.Forest.{entry_of};
ghost use Rattle.pe_messages.specs.Parts.{cause_of_fault, answer_by_delivery};
ghost use Rattle.pe_rules.specs.History.{History};
ghost use Rattle.pe_rules.specs.Causes.{cause_of};
ghost use Rattle.pe_rules.specs.Current.{document_in};
ghost use Rattle.pe_rules.specs.Embedders.{page_of_frame};
ghost use Rattle.pe_rules.specs.Replies.{answer_of, post_reason};
ghost use Rattle.pe_engine.specs.Causes.{named_cause};
ghost use Rattle.pe_engine.specs.Objects.{handle_at};
ghost use Rattle.pe_engine.specs.Posting.{IsPosting, HasPosted, HasReceived, HasSettled};
ghost use Rattle.pe_engine.specs.Replying.{timed, steps_of, IsChecked, IsReplied};
ghost use Rattle.pe_engine.specs.StandsFor.{StandsFor};

use crate::engine::{Engine, Made};
use crate::kept_row::KeptRow;
use crate::laws::engine_laws;
use crate::refusal::Refusal;
use crate::replies::Replies;
use crate::verbs::policy::why_denied;
use crate::verbs::set::origin_given;
use pe_activation::{consume, transient};
use pe_arena::{DocRef, Handle};
use pe_base::{EVENT_LIMIT, FrameNo, MESSAGE_LIMIT, MessageNo, Millis, Steps};
use pe_delegation::{DeliverFault, Delivery};
use pe_events::{Answer, Cause, Reason};
use pe_features::Capability;
use pe_frames::Frames;
use pe_lines::OptionalText;
use pe_origin::Origin;
use std::alloc::AllocError;
use std::sync::ledger::Ledger;

/// What a post looks up.
#[derive(Drop)]
pub(crate) struct Posting {
    /// The number of the message.
    pub(crate) number: u32,
    /// The frame of its sender.
    pub(crate) at: Handle,
    /// The page of its sender.
    pub(crate) page: FrameNo,
    /// The document to which it goes.
    pub(crate) target: DocRef,
    /// The origin that it names, if it names one.
    pub(crate) origin: Option<Origin>,
    /// The capability that it delegates.
    pub(crate) capability: Capability,
}

/// The number of a message, where there can be one.
fn number_of(message: u32) -> Option<MessageNo>
    ensures some { IfSome result (λ no. no ≡ message) }
    ensures none { IfNone result (1 ≤ message → EVENT_LIMIT < message) }
{
    if message < 1 || message > EVENT_LIMIT {
        return None;
    }
    Some(MessageNo::of(message))
}

/// The cause for which a delivery is refused.
fn cause_of_fault(fault: DeliverFault) -> Cause
    ensures { result ≡ cause_of_fault fault }
{
    match fault {
        DeliverFault::Unknown => Cause::Unknown,
        DeliverFault::Settled => Cause::Settled,
    }
}

/// What a delivery is answered.
fn answer_by_delivery(delivery: Delivery) -> Answer
    ensures { result ≡ answer_by_delivery delivery }
{
    match delivery {
        Delivery::Put(_, _) => Answer::Delivered,
        Delivery::Gone => Answer::DroppedGone,
        Delivery::OtherOrigin => Answer::DroppedOther,
    }
}

/// Notes the time of a delivery in the row of the document that it gives a capability.
fn receive<L: Ledger>(
    frames: &mut Frames<KeptRow>,
    delivery: &Delivery,
    now: Millis,
    steps: &mut Steps<L>,
)
    ensures received { HasReceived delivery.now now frames.old frames.new }
    ensures made { frames.new.made ≡ frames.old.made }
{
    let Delivery::Put(target, capability) = delivery else {
        return;
    };
    if let Some(row) = frames.doc_mut(target.at, steps) {
        row.note(*capability, Some(now));
    }
}

impl Engine {
    /// The handles of the live frames of these numbers; the error says that no event made one of them,
    /// or else that one is no longer live.
    fn both(&self, sender: u32, target: u32) -> Result<(Handle, Handle), Cause>
        ensures cause { (H : History) (named : Option (List ℕ)) (capability : List ℕ) → StandsFor self.now H
            → IfErr result (λ why. named_cause (steps_of self.now H) (event.Post sender target named capability) ≡ Some why) }
        ensures none { (H : History) (named : Option (List ℕ)) (capability : List ℕ) → StandsFor self.now H
            → IfOk result (λ hs. named_cause (steps_of self.now H) (event.Post sender target named capability) ≡ None) }
        ensures sender { IfOk result (λ hs. handle_at self.now.made sender ≡ Some hs.0) }
        ensures target { IfOk result (λ hs. handle_at self.now.made target ≡ Some hs.1) }
        ensures from { IfOk result (λ hs. IsSome (entry_of self.now.frames.entries hs.0)) }
        ensures to { IfOk result (λ hs. IsSome (entry_of self.now.frames.entries hs.1)) }
    {
        engine_laws();
        let Some(from) = self.handle(sender) else {
            return Err(Cause::Unknown);
        };
        let Some(to) = self.handle(target) else {
            return Err(Cause::Unknown);
        };
        if self.frames.top(from).is_none() {
            return Err(Cause::Closed);
        }
        if self.frames.top(to).is_none() {
            return Err(Cause::Closed);
        }
        Ok((from, to))
    }

    /// What a post looks up; the error is the first of its causes.
    fn posting<L: Ledger>(
        &self,
        now: Millis,
        sender: u32,
        target: u32,
        named: &OptionalText<'_>,
        capability: &[u8],
        steps: &mut Steps<L>,
    ) -> Result<Posting, Refusal>
        ensures lookup { IfOk result (IsPosting self.now sender target named.now capability.now) }
        ensures late { IfOk result (λ x. self.now.clock ≤ now) }
        ensures cause { (H : History) → StandsFor self.now H → IsChecked self.now H (timed now (event.Post sender target named.now capability.now)) result }
        ensures page { (H : History) → StandsFor self.now H → IfOk result (λ x. page_of_frame (steps_of self.now H) sender ≡ Some x.page) }
        ensures document { (H : History) → StandsFor self.now H → IfOk result (λ x. document_in (steps_of self.now H) target ≡ Some x.target.doc) }
    {
        engine_laws();
        let number = match self.next(now) {
            Ok(number) => number,
            Err(cause) => return Err(Refusal::For(cause)),
        };
        let (at, to) = match self.both(sender, target) {
            Ok(both) => both,
            Err(cause) => return Err(Refusal::For(cause)),
        };
        let origin = match origin_given(self.alloc, named) {
            Ok(origin) => origin,
            Err(refusal) => return Err(refusal),
        };
        let Some(capability) = Capability::by_name(capability) else {
            return Err(Refusal::For(Cause::Capability));
        };
        let page = self.page_of(at, steps);
        if self.page_of(to, steps) != page {
            return Err(Refusal::For(Cause::OtherPage));
        }
        if self.messages.waiting(page) >= MESSAGE_LIMIT {
            return Err(Refusal::For(Cause::LimitPending));
        }
        Ok(Posting {
            number,
            at,
            page,
            target: DocRef {
                at: to,
                doc: self.row(to, steps).doc,
            },
            origin,
            capability,
        })
    }

    /// What the document of the live frame lacks at this time for a post that names an origin, if
    /// anything: the policy allows the capability's feature, and there is transient activation.
    fn lacks<L: Ledger>(
        &self,
        h: Handle,
        capability: Capability,
        now: Millis,
        steps: &mut Steps<L>,
    ) -> Option<Reason>
        requires live { IsSome (entry_of self.now.frames.entries h) }
        ensures { (H : History) (f d : ℕ) (word name : List ℕ) → StandsFor self.now H → handle_at self.now.made f ≡ Some h → document_in (steps_of self.now H) f ≡ Some d → capability_named name ≡ Some capability
            → result ≡ post_reason self.now.duration (steps_of self.now H) now d (Some word) name }
    {
        engine_laws();
        let row = self.row(h, steps);
        if let Some(denial) = why_denied(&row.policy, capability.feature_of()) {
            return Some(Reason::Policy(denial));
        }
        if !transient(row.stamp, now, self.duration) {
            return Some(Reason::NoTransient);
        }
        None
    }

    /// The reply to a post that is denied, and makes nothing.
    fn deny_post<L: Ledger>(
        &mut self,
        now: Millis,
        reason: Reason,
        steps: &mut Steps<L>,
    ) -> Result<Replies, Refusal>
        requires few { length self.old.made < EVENT_LIMIT }
        ensures { (H : History) (sender target : ℕ) (named : Option (List ℕ)) (capability : List ℕ) → StandsFor self.old H → self.old.clock ≤ now
            → cause_of (steps_of self.old H) now (event.Post sender target named capability) ≡ None
            → answer_of self.old.duration (steps_of self.old H) now (event.Post sender target named capability) ≡ answer.Denied reason
            → IsReplied self.old self.new H (timed now (event.Post sender target named capability)) result }
    {
        engine_laws();
        let before = self.pass(now, steps)?;
        self.note(now, Made::Nothing)?;
        Ok(Replies {
            before,
            answer: Answer::Denied { reason },
            after: Vec::new(self.alloc),
        })
    }

    /// Adds a message of this number, and notes that the event at this time made it.
    fn add_message(
        &mut self,
        now: Millis,
        number: u32,
        page: FrameNo,
        target: DocRef,
        origin: Origin,
        capability: Capability,
    ) -> Result<MessageNo, AllocError>
        requires number { number ≡ length self.old.made + 1 }
        requires few { number ≤ EVENT_LIMIT }
        ensures number { IfOk result (λ no. no ≡ number) }
        ensures posted { OnOk result (HasPosted self.old self.new now number (message page target origin capability)) }
    {
        self.made.reserve(1)?;
        let no = MessageNo::of(number);
        let Ok(()) = self.messages.post(no, page, target, origin, capability) else {
            return Err(AllocError);
        };
        self.made.push_reserved(Made::Message);
        self.clock = now;
        Ok(no)
    }

    /// A message of the document of one frame to that of another, which delegates a capability (HTML
    /// Standard, "window post message steps"; Capability Delegation): it consumes the user activation of
    /// the page.
    pub(crate) fn post<L: Ledger>(
        &mut self,
        now: Millis,
        sender: u32,
        target: u32,
        named: &OptionalText<'_>,
        capability: &[u8],
        steps: &mut Steps<L>,
    ) -> Result<Replies, Refusal>
        ensures { (H : History) → StandsFor self.old H → IsReplied self.old self.new H (timed now (event.Post sender target named.now capability.now)) result }
    {
        engine_laws();
        let found = match self.posting(now, sender, target, named, capability, steps) {
            Ok(found) => found,
            Err(refusal) => return Err(refusal),
        };
        let Posting {
            number,
            at,
            page,
            target,
            origin,
            capability,
        } = found;
        let Some(origin) = origin else {
            return self.deny_post(now, Reason::TargetAny, steps);
        };
        if let Some(reason) = self.lacks(at, capability, now, steps) {
            return self.deny_post(now, reason, steps);
        }
        let before = self.pass(now, steps)?;
        consume(&mut self.frames, at, steps).unwrap();
        let message = self.add_message(now, number, page, target, origin, capability)?;
        Ok(Replies {
            before,
            answer: Answer::MessageMade { message },
            after: Vec::new(self.alloc),
        })
    }

    /// The number of a message that waits; the error is the first cause against its delivery at this
    /// time.
    fn awaited(&self, now: Millis, message: u32) -> Result<MessageNo, Cause>
        ensures cause { (H : History) → StandsFor self.now H → IfErr result (λ why. cause_of (steps_of self.now H) now (event.Deliver message) ≡ Some why) }
        ensures none { (H : History) → StandsFor self.now H → IfOk result (λ no. cause_of (steps_of self.now H) now (event.Deliver message) ≡ None) }
        ensures number { IfOk result (λ no. no ≡ message) }
        ensures waits { IfOk result (λ no. deliver_fault self.now.messages no ≡ None) }
        ensures few { IfOk result (λ no. length self.now.made < EVENT_LIMIT) }
        ensures late { IfOk result (λ no. self.now.clock ≤ now) }
    {
        engine_laws();
        if let Err(cause) = self.next(now) {
            return Err(cause);
        }
        let Some(no) = number_of(message) else {
            return Err(Cause::Unknown);
        };
        match self.messages.find(no) {
            Ok(_) => Ok(no),
            Err(fault) => Err(cause_of_fault(fault)),
        }
    }

    /// Delivers a message that waits at this time: it waits no longer, whatever comes of it.
    fn settle<L: Ledger>(&mut self, no: MessageNo, now: Millis, steps: &mut Steps<L>) -> Delivery
        requires waits { deliver_fault self.old.messages no ≡ None }
        ensures { HasSettled self.old self.new no now result }
    {
        let delivery = self.messages.deliver(no, &self.frames, steps).unwrap();
        receive(&mut self.frames, &delivery, now, steps);
        delivery
    }

    /// Delivers the message of this number to its document, which is given the capability where it is
    /// current and of the origin that the message names (HTML Standard, "window post message steps";
    /// Capability Delegation).
    pub(crate) fn deliver<L: Ledger>(
        &mut self,
        now: Millis,
        message: u32,
        steps: &mut Steps<L>,
    ) -> Result<Replies, Refusal>
        ensures { (H : History) → StandsFor self.old H → IsReplied self.old self.new H (timed now (event.Deliver message)) result }
    {
        engine_laws();
        let no = self.awaited(now, message)?;
        let before = self.pass(now, steps)?;
        let delivery = self.settle(no, now, steps);
        self.note(now, Made::Nothing)?;
        Ok(Replies {
            before,
            answer: answer_by_delivery(delivery),
            after: Vec::new(self.alloc),
        })
    }
}
