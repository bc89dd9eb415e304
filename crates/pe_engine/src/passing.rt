//! Time that passes.
ghost use Rattle.std.specs.Prelude.{◌≡◌, ◌≤◌, IfOk, OnOk};
ghost use Rattle.pe_rules.specs.History.{RepliedHistory, History, clock};
ghost use Rattle.pe_rules.specs.Changes.{changes_before};
ghost use Rattle.pe_changes.specs.Parts.{IsStore, IsStatuses, AreGoverned};
ghost use Rattle.pe_changes.specs.StoreSteps.{IsLapsed};
ghost use Rattle.pe_engine.specs.Replying.{HasPassed};
ghost use Rattle.pe_engine.specs.Rows.{blocks};
ghost use Rattle.pe_engine.specs.StandsFor.{StandsFor};

use crate::engine::Engine;
use crate::laws::engine_laws;
use pe_base::{Millis, Steps};
use pe_changes::lapse;
use pe_events::Change;
use std::alloc::AllocError;
use std::sync::ledger::Ledger;

impl Engine {
    /// Takes the entries out of the store that end by this time, and gives the changes that this brings,
    /// by moment and then by the number of the status.
    pub(crate) fn lapse<L: Ledger>(
        &mut self,
        now: Millis,
        steps: &mut Steps<L>,
    ) -> Result<Vec<Change>, AllocError>
        ensures rest { OnOk result (self.new ≡ record self.old { store = self.new.store }) }
        ensures changes { (T : RepliedHistory) → clock T ≤ now → IsStore T (clock T) self.old.store → IsStatuses T self.old.statuses
            → AreGoverned T (λ x. x.doc) blocks self.old.frames.entries self.old.statuses.live → IfOk result (λ changes. changes.items ≡ changes_before T now) }
        ensures stands { (T : RepliedHistory) → clock T ≤ now → IsStore T (clock T) self.old.store → OnOk result (IsStore T now self.new.store) }
        ensures lapsed { OnOk result (IsLapsed now self.old.store self.new.store) }
        ensures idle { (T : RepliedHistory) → IsStore T now self.old.store → steps.new ≡ steps.old }
    {
        lapse(
            self.alloc,
            &mut self.store,
            &self.statuses,
            &self.frames,
            now,
            steps,
        )
    }

    /// Lets the time pass for the store up to that of an event against which there is no cause, before it
    /// takes effect. The changes are those that the time brings.
    pub(crate) fn pass<L: Ledger>(
        &mut self,
        now: Millis,
        steps: &mut Steps<L>,
    ) -> Result<Vec<Change>, AllocError>
        ensures rest { OnOk result (self.new ≡ record self.old { store = self.new.store }) }
        ensures passed { (H : History) → StandsFor self.old H → self.old.clock ≤ now → IfOk result (HasPassed self.old self.new H now) }
        ensures lapsed { OnOk result (IsLapsed now self.old.store self.new.store) }
    {
        engine_laws();
        self.lapse(now, steps)
    }
}
