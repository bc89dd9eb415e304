//! The messages of all pages.
ghost use Rattle.std.specs.Prelude.{◌≡◌, ◌↔◌, ◌<◌, ◌≤◌, ◌+◌, ◌++◌, ◌||◌, ℕ, nat_eq, true, [], ◌∷◌, IsTrue, IfOk, OnOk, OnErr, None, Some, Err, option_map, if◌then◌else◌, vec_len, slice_set};
ghost use Rattle.std.specs.Result.{result_err};
ghost use Rattle.pe_base.specs.declared.limits.TheConstants.{MESSAGE_LIMIT};
ghost use Rattle.pe_counts.specs.Counts.{count_of};
ghost use Rattle.pe_delegation.specs.Posted.{message, message_of, was_given, deliver_fault, waiting_count, without, delivery_of, IsInOrder};

use crate::addressed::Addressed;
use crate::delivery::{Delivery, delivery_of};
use crate::given::place_of;
use crate::message::{DeliverFault, Message, PostFault};
use crate::slot::Slot;
use pe_arena::DocRef;
use pe_base::{FrameNo, MESSAGE_LIMIT, MessageNo, Steps};
use pe_counts::PageCounts;
use pe_features::Capability;
use pe_frames::Frames;
use pe_origin::Origin;
use std::alloc::Global;
use std::marker::Model;
use std::sync::ledger::Ledger;

/// The delegating messages of a session. A message waits until a delivery names it, whatever comes of
/// that, and also where its page is closed. A message is found by its number, at the cost of a logarithm
/// of how many were ever posted; one that is settled leaves its number and an empty slot.
#[derive(Drop)]
pub struct Messages {
    // The numbers that were given, rising, and what is kept of the message of each.
    given: Vec<MessageNo>,
    slots: Vec<Slot>,
    // How many messages of each page wait.
    pages: PageCounts,
}

impl Model for Messages {
    ghost use Rattle.pe_delegation.specs.Posted.{Posted};

    ghost Value = { Posted };

    ghost use Rattle.pe_counts.specs.Counts.{count_of};
    ghost use Rattle.pe_delegation.specs.Kept.{waiting_in, IsKept};

    ghost view = { λ m. record { waiting = waiting_in m.given.items m.slots.items; given = m.given.items } };

    ghost invariant = { λ m. IsKept m.given.items m.slots.items (count_of m.pages) };
}

// Whether as many messages of the page wait as may.
fn is_full(pages: &PageCounts, page: FrameNo) -> bool
    ensures { IsTrue result ↔ (count_of pages.now page ≡ MESSAGE_LIMIT) }
{
    pages.get(page) == MESSAGE_LIMIT
}

// Settles the message at the place.
fn settle_at(slots: &mut Vec<Slot>, place: usize)
    requires { place < vec_len slots.old }
    ensures { slots.new.items ≡ slice_set slots.old.items place None }
{
    slots[place].settle();
}

// Lets go of a message that was not posted.
fn let_go(_slot: Slot) {}

impl Messages {
    /// No message.
    pub fn new(alloc: Global) -> Messages
        ensures { result ≡ record { waiting = []; given = [] } }
    {
        Messages {
            given: Vec::new(alloc),
            slots: Vec::new(alloc),
            pages: PageCounts::new(alloc),
        }
    }

    /// How many messages of the page wait: those that no delivery settled.
    pub fn waiting(&self, page: FrameNo) -> u32
        ensures value { result ≡ waiting_count page self.now.waiting }
        ensures bound { result ≤ MESSAGE_LIMIT }
    {
        self.pages.get(page)
    }

    /// The waiting message of this number. The refusals are those of `deliver`.
    pub fn find(&self, message: MessageNo) -> Result<&Message, DeliverFault>
        ensures found { IfOk result (λ m. message_of self.now.waiting message ≡ Some m.now) }
        ensures fault { result_err result ≡ deliver_fault self.now message }
        ensures order { IsInOrder self.now.waiting }
    {
        let Some(place) = place_of(&self.given, message) else {
            return Err(DeliverFault::Unknown);
        };
        match self.slots[place].get() {
            Some(found) => Ok(found),
            None => Err(DeliverFault::Settled),
        }
    }

    /// Posts a message to the document, for a document of the origin alone. It waits from then on.
    ///
    /// Errors: `TooMany` exactly where 256 messages of the page wait; `Memory` where memory wants.
    pub fn post(
        &mut self,
        no: MessageNo,
        page: FrameNo,
        target: DocRef,
        origin: Origin,
        capability: Capability,
    ) -> Result<(), PostFault>
        requires { (k : ℕ) → was_given self.old.given k ≡ true → k < no }
        ensures waiting { OnOk result (self.new.waiting ≡ self.old.waiting ++ (no, message page target origin capability) ∷ []) }
        ensures given { OnOk result (self.new.given ≡ self.old.given ++ no ∷ []) }
        ensures found { OnOk result ((k : ℕ) → message_of self.new.waiting k ≡ if nat_eq no k then Some (message page target origin capability) else message_of self.old.waiting k) }
        ensures known { OnOk result ((k : ℕ) → was_given self.new.given k ≡ (nat_eq no k || was_given self.old.given k)) }
        ensures too_many { (result ≡ Err PostFault.TooMany) ↔ (waiting_count page self.old.waiting ≡ MESSAGE_LIMIT) }
        ensures err { OnErr result (self.new ≡ self.old) }
    {
        if is_full(&self.pages, page) {
            return Err(PostFault::TooMany);
        }
        if self.given.reserve(1).is_err() || self.slots.reserve(1).is_err() {
            return Err(PostFault::Memory);
        }
        let message = Message {
            page,
            target,
            origin,
            capability,
        };
        let Ok(slot) = Slot::of(*self.slots.allocator(), message) else {
            return Err(PostFault::Memory);
        };
        let Ok(()) = self.pages.add(page) else {
            let_go(slot);
            return Err(PostFault::Memory);
        };
        self.given.push_reserved(no);
        self.slots.push_reserved(slot);
        Ok(())
    }

    /// Delivers the message, which is settled then, whatever comes of it: it is dropped as `Gone` exactly
    /// where the frame of its target does not show that document any more, else as `OtherOrigin` exactly
    /// where the document is not of the origin that the message names. One tick. It takes no memory.
    ///
    /// Errors, in order: `Unknown` where no message of this number was posted; `Settled` where it was
    /// delivered or dropped before.
    pub fn deliver<D: Addressed, L: Ledger>(
        &mut self,
        message: MessageNo,
        frames: &Frames<D>,
        steps: &mut Steps<L>,
    ) -> Result<Delivery, DeliverFault>
        ensures delivery { IfOk result (λ d. Some d ≡ option_map (delivery_of D.doc_no D.origin_of frames.now.entries) (message_of self.old.waiting message)) }
        ensures waiting { OnOk result (self.new.waiting ≡ without message self.old.waiting) }
        ensures given { OnOk result (self.new.given ≡ self.old.given) }
        ensures found { OnOk result ((k : ℕ) → message_of self.new.waiting k ≡ if nat_eq message k then None else message_of self.old.waiting k) }
        ensures cost { OnOk result (steps.new ≡ steps.old + 1) }
        ensures fault { result_err result ≡ deliver_fault self.old message }
        ensures err { OnErr result ((self.new ≡ self.old) × (steps.new ≡ steps.old)) }
    {
        let Some(place) = place_of(&self.given, message) else {
            return Err(DeliverFault::Unknown);
        };
        let Some(found) = self.slots[place].get() else {
            return Err(DeliverFault::Settled);
        };
        let page = found.page;
        let delivery = delivery_of(found, frames, steps);
        settle_at(&mut self.slots, place);
        self.pages.take(page);
        Ok(delivery)
    }
}
