//! `use`: a document makes a call.
ghost use Rattle.std.specs.Prelude.{◌≡◌, ◌+◌, ◌*◌, ◌≤◌, None, IsSome, IfSome};
ghost use Rattle.pe_frames.specs.Forest.{entry_of, page_size, top_of, with_doc};
ghost use Rattle.pe_events.specs.declared.event.Event.TheVariants as event;
ghost use Rattle.pe_rules.specs.History.{History};
ghost use Rattle.pe_rules.specs.Replies.{answer_of_verdict};
ghost use Rattle.pe_engine.specs.Costs.{consumed_by_use, taken_of};
ghost use Rattle.pe_engine.specs.Replying.{steps_of, timed, IsAnswer};
ghost use Rattle.pe_engine.specs.Rows.{with_delivery};
ghost use Rattle.pe_engine.specs.StandsFor.{StandsFor};
ghost use Rattle.pe_engine.specs.Using.{HasTaken};

use crate::engine::{Engine, Made};
use crate::kept_row::KeptRow;
use crate::laws::engine_laws;
use crate::refusal::Refusal;
use pe_activation::consume;
use pe_arena::Handle;
use pe_base::{Millis, Steps};
use pe_events::{Answer, Cause, Verdict, Via};
use pe_features::{Call, Capability, Gate};
use pe_frames::Frames;
use std::sync::ledger::Ledger;

/// Spends the capability in the document that the frame shows (Capability Delegation, "delegated
/// capability").
fn spend<L: Ledger>(
    frames: &mut Frames<KeptRow>,
    h: Handle,
    capability: Capability,
    steps: &mut Steps<L>,
)
    ensures spent { IfSome (entry_of frames.old.entries h) (λ e. frames.new ≡ with_doc frames.old h (record e.doc { delivered = with_delivery capability None e.doc.delivered })) }
    ensures cost { steps.new ≡ steps.old + 1 }
{
    if let Some(row) = frames.doc_mut(h, steps) {
        row.note(capability, None);
    }
}

/// Takes what a use of this verdict takes in the live frame of this handle: what met it, the page's
/// transient activation, where the call consumes it, or the capability.
fn take<L: Ledger>(
    frames: &mut Frames<KeptRow>,
    h: Handle,
    gate: Gate,
    verdict: &Verdict,
    steps: &mut Steps<L>,
)
    requires live { IsSome (entry_of frames.old.entries h) }
    ensures taken { HasTaken gate verdict.now h frames.old frames.new }
    ensures cost { IfSome (entry_of frames.old.entries h) (λ e. steps.new ≤ steps.old + 1 + 2 * taken_of gate verdict.now (page_size frames.old.entries (top_of e))) }
{
    match verdict {
        Verdict::Allowed(Via::Transient) => {
            if gate.consumes {
                consume(frames, h, steps).unwrap();
            }
        }
        Verdict::Allowed(Via::Delegated) => {
            if let Some(capability) = gate.capability {
                spend(frames, h, capability, steps);
            }
        }
        Verdict::Allowed(Via::Free) | Verdict::Denied(_) => {}
    }
}

/// What `use` is answered.
fn answer_of_verdict(verdict: Verdict) -> Answer
    ensures { result ≡ answer_of_verdict verdict }
{
    match verdict {
        Verdict::Allowed(_) => Answer::Allowed,
        Verdict::Denied(reason) => Answer::Denied { reason },
    }
}

impl Engine {
    /// The use of a call by the document of the frame of this number (HTML Standard, "APIs gated by user
    /// activation"; Permissions, "get the current permission state"). An allowed use takes what met it.
    pub(crate) fn use_call<L: Ledger>(
        &mut self,
        now: Millis,
        frame: u32,
        name: &[u8],
        steps: &mut Steps<L>,
    ) -> Result<Answer, Refusal>
        ensures answered { (H : History) → StandsFor self.old H → IsAnswer self.old self.new H (timed now (event.UseCall frame name.now)) result }
        ensures cost { (H : History) → StandsFor self.old H → steps.new ≤ steps.old + 3 + 2 * consumed_by_use self.old.duration (steps_of self.old H) now frame name.now }
    {
        engine_laws();
        let (_, h) = self.next_in(now, frame)?;
        let Some(call) = Call::by_name(name) else {
            return Err(Refusal::For(Cause::Call));
        };
        let verdict = self.judge(h, call, now, steps);
        take(&mut self.frames, h, call.gate_of(), &verdict, steps);
        self.note(now, Made::Nothing)?;
        Ok(answer_of_verdict(verdict))
    }
}
