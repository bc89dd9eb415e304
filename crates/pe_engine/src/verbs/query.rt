//! `query` and `drop`: the permission statuses that a document asks for.
ghost use Rattle.std.specs.Prelude.{◌≡◌, IfOk, IfErr, IfSome, IfNone, IsSome, Some, None, false, true, ℕ, length};
ghost use Rattle.pe_events.specs.declared.event.Event.TheVariants as event;
ghost use Rattle.pe_features.specs.Features.{feature_named, key_of};
ghost use Rattle.pe_frames.specs.Forest.{entry_of};
ghost use Rattle.pe_status.specs.Registry.{AreBelow};
ghost use Rattle.pe_rules.specs.Causes.{lacks_key};
ghost use Rattle.pe_rules.specs.Embedders.{page_of_frame};
ghost use Rattle.pe_rules.specs.History.{History};
ghost use Rattle.pe_rules.specs.Replies.{replied};
ghost use Rattle.pe_engine.specs.Causes.{named_cause};
ghost use Rattle.pe_engine.specs.Objects.{handle_at};
ghost use Rattle.pe_engine.specs.Registering.{HasRegistered};
ghost use Rattle.pe_engine.specs.Replying.{timed, IsReplied};
ghost use Rattle.pe_engine.specs.StandsFor.{StandsFor};

use crate::decision::stored_at;
use crate::engine::{Engine, Made};
use crate::laws::engine_laws;
use crate::refusal::Refusal;
use crate::replies::Replies;
use crate::verdict::{key_for, permission_state};
use pe_arena::{DocRef, Handle};
use pe_base::{FrameNo, Millis, STATUS_LIMIT, State, StatusNo, Steps};
use pe_events::{Answer, Cause};
use pe_features::Feature;
use pe_status::ReleaseFault;
use std::alloc::AllocError;
use std::sync::ledger::Ledger;

/// The feature of this name, where it has a permission (Permissions, "powerful feature").
pub(crate) fn powerful(name: &[u8]) -> Option<Feature>
    ensures named { IfSome result (λ f. feature_named name.now ≡ Some f) }
    ensures keyed { IfSome result (λ f. IsSome (key_of f)) }
    ensures some { IfSome result (λ f. lacks_key name.now ≡ false) }
    ensures none { IfNone result (lacks_key name.now ≡ true) }
{
    let feature = Feature::by_name(name)?;
    feature.key_kind()?;
    Some(feature)
}

impl Engine {
    /// The page of a live frame: its top frame.
    pub(crate) fn page_of<L: Ledger>(&self, h: Handle, steps: &mut Steps<L>) -> FrameNo
        requires live { IsSome (entry_of self.now.frames.entries h) }
        ensures { (H : History) (f : ℕ) → StandsFor self.now H → handle_at self.now.made f ≡ Some h → page_of_frame (replied self.now.duration H) f ≡ Some result }
    {
        engine_laws();
        self.frames.is_counted_in_tree_order();
        let top = self.frames.top(h).unwrap();
        self.frames.node(top, steps).unwrap().frame
    }

    /// Registers a permission status of the document that the live frame shows, and gives the state of
    /// the permission there at the clock.
    fn register<L: Ledger>(
        &mut self,
        no: StatusNo,
        page: FrameNo,
        h: Handle,
        feature: Feature,
        steps: &mut Steps<L>,
    ) -> Result<State, AllocError>
        requires live { IsSome (entry_of self.old.frames.entries h) }
        requires keyed { IsSome (key_of feature) }
        requires newest { no ≡ length self.old.made }
        requires below { AreBelow no self.old.statuses.given }
        ensures { IfOk result (HasRegistered self.old self.new no page h feature) }
    {
        engine_laws();
        let row = self.row(h, steps);
        let doc = DocRef {
            at: h,
            doc: row.doc,
        };
        let key = key_for(row, feature).unwrap();
        let stored = stored_at(&self.store, feature, key, self.clock, steps);
        let state = permission_state(row, feature, stored);
        let own = key.copy()?;
        let Ok(_) = self.statuses.query(no, page, doc, feature, own) else {
            return Err(AllocError);
        };
        Ok(state)
    }

    /// Makes a permission status of the document of the frame of this number (Permissions, "query()").
    pub(crate) fn query<L: Ledger>(
        &mut self,
        now: Millis,
        frame: u32,
        name: &[u8],
        steps: &mut Steps<L>,
    ) -> Result<Replies, Refusal>
        ensures { (H : History) → StandsFor self.old H → IsReplied self.old self.new H (timed now (event.Query frame name.now)) result }
    {
        engine_laws();
        let (number, h) = self.next_in(now, frame)?;
        let Some(feature) = powerful(name) else {
            return Err(Refusal::For(Cause::Feature));
        };
        let page = self.page_of(h, steps);
        if self.statuses.live(page) >= STATUS_LIMIT {
            return Err(Refusal::For(Cause::LimitStatuses));
        }
        let status = StatusNo::of(number);
        let before = self.pass(now, steps)?;
        self.note(now, Made::Status)?;
        let state = self.register(status, page, h, feature, steps)?;
        Ok(Replies {
            before,
            answer: Answer::StatusMade { status, state },
            after: Vec::new(self.alloc),
        })
    }

    /// The live status of this number; the error says that no event made it, or that it is no longer
    /// live.
    fn status(&self, number: u32) -> Result<StatusNo, Cause>
        ensures cause { (H : History) → StandsFor self.now H → IfErr result (λ why. named_cause (replied self.now.duration H) (event.DropStatus number) ≡ Some why) }
        ensures none { (H : History) → StandsFor self.now H → IfOk result (λ no. named_cause (replied self.now.duration H) (event.DropStatus number) ≡ None) }
        ensures number { IfOk result (λ no. no ≡ number) }
    {
        engine_laws();
        if number == 0 {
            return Err(Cause::Unknown);
        }
        if number as usize > self.made.len() {
            return Err(Cause::Unknown);
        }
        let no = StatusNo::of(number);
        match self.statuses.find(no) {
            Ok(_) => Ok(no),
            Err(ReleaseFault::Unknown) => Err(Cause::Unknown),
            Err(ReleaseFault::Closed) => Err(Cause::Closed),
        }
    }

    /// Ends the permission status of this number, which the script does not keep any longer.
    pub(crate) fn drop_status<L: Ledger>(
        &mut self,
        now: Millis,
        number: u32,
        steps: &mut Steps<L>,
    ) -> Result<Replies, Refusal>
        ensures { (H : History) → StandsFor self.old H → IsReplied self.old self.new H (timed now (event.DropStatus number)) result }
    {
        engine_laws();
        self.next(now)?;
        let status = self.status(number)?;
        let before = self.pass(now, steps)?;
        let _ = self.statuses.release(status);
        self.note(now, Made::Nothing)?;
        Ok(Replies {
            before,
            answer: Answer::Done,
            after: Vec::new(self.alloc),
        })
    }
}
