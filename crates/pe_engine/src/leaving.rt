//! What documents that go take along.
ghost use Rattle.std.specs.Prelude.{◌≡◌, ◌∷◌, [], ℕ, Some, IsTrue, IfOk, OnOk};
ghost use Rattle.pe_rules.specs.History.{Step, History};
ghost use Rattle.pe_rules.specs.Current.{ends, document_in};
ghost use Rattle.pe_rules.specs.Changes.{changes_after};
ghost use Rattle.pe_rules.specs.Replies.{replied, is_regular};
ghost use Rattle.pe_changes.specs.Parts.{IsStore, IsStatuses, AreGoverned};
ghost use Rattle.pe_changes.specs.StoreSteps.{IsEnded};
ghost use Rattle.pe_prompts.specs.Queues.{pending};
ghost use Rattle.pe_requests.specs.PromptSteps.{left_by_all};
ghost use Rattle.pe_engine.specs.Leaving.{numbers_of, without_documents};
ghost use Rattle.pe_engine.specs.Rows.{blocks};

use crate::engine::Engine;
use crate::kept_row::KeptRow;
use pe_base::{DocNo, Millis, Steps};
use pe_changes::changes_of_end;
use pe_events::Change;
use pe_prompts::Prompts;
use pe_status::Statuses;
use std::alloc::AllocError;
use std::sync::ledger::Ledger;

/// Ends the statuses of these documents.
fn end_statuses(statuses: &mut Statuses, gone: &[KeptRow])
    ensures live { statuses.new.live ≡ without_documents (numbers_of gone.now) statuses.old.live }
    ensures given { statuses.new.given ≡ statuses.old.given }
{
    for row in gone {
        statuses.gone(row.get().doc);
    }
}

/// Drops the requests of these documents.
fn drop_requests(prompts: &mut Prompts, gone: &[KeptRow])
    ensures given { prompts.new.given ≡ prompts.old.given }
    ensures pending { (page : ℕ) → pending prompts.new page ≡ left_by_all (numbers_of gone.now) (pending prompts.old page) }
{
    for row in gone {
        prompts.gone(row.get().doc);
    }
}

impl Engine {
    /// Ends what these documents had, which their frames do not show any more: their statuses, their
    /// requests, and the entries that hold while the first of them is current, which is the one whose frame the event names
    /// (Permissions, "lifetime"). The changes are those of the statuses that stay.
    pub(crate) fn leave<L: Ledger>(
        &mut self,
        first: DocNo,
        gone: &[KeptRow],
        now: Millis,
        steps: &mut Steps<L>,
    ) -> Result<Vec<Change>, AllocError>
        ensures rest { OnOk result (self.new ≡ record self.old { store = self.new.store; statuses = self.new.statuses; prompts = self.new.prompts }) }
        ensures live { OnOk result (self.new.statuses.live ≡ without_documents (numbers_of gone.now) self.old.statuses.live) }
        ensures given { OnOk result (self.new.statuses.given ≡ self.old.statuses.given) }
        ensures prompts { OnOk result (self.new.prompts.given ≡ self.old.prompts.given) }
        ensures pending { OnOk result ((page : ℕ) → pending self.new.prompts page ≡ left_by_all (numbers_of gone.now) (pending self.old.prompts page)) }
        ensures store { OnOk result (IsEnded first self.old.store self.new.store) }
        ensures changes { (duration : ℕ) (H : History) (s : Step) (f : ℕ) → IsTrue (is_regular duration H) → IsTrue (ends (f ∷ []) s.event) → document_in (replied duration H) f ≡ Some first
            → IsStore (replied duration H) now self.old.store → IsStatuses (s ∷ replied duration H) self.new.statuses
            → AreGoverned (s ∷ replied duration H) (λ x. x.doc) blocks self.new.frames.entries self.new.statuses.live
            → IfOk result (λ changes. changes.items ≡ changes_after (replied duration H) (s ∷ replied duration H) now) }
    {
        end_statuses(&mut self.statuses, gone);
        drop_requests(&mut self.prompts, gone);
        let ended = self.store.end_page(first)?;
        changes_of_end(self.alloc, &ended, &self.statuses, &self.frames, now, steps)
    }
}
