//! `close`: a frame is closed with all below it.
ghost use Rattle.pe_events.specs.declared.event.Event.TheVariants as event;
ghost use Rattle.pe_rules.specs.History.{History};
ghost use Rattle.pe_engine.specs.Replying.{timed, IsReplied};
ghost use Rattle.pe_engine.specs.StandsFor.{StandsFor};

use crate::engine::{Engine, Made};
use crate::laws::engine_laws;
use crate::refusal::Refusal;
use crate::replies::Replies;
use pe_base::{Millis, Steps};
use pe_events::Answer;
use std::sync::ledger::Ledger;

impl Engine {
    /// Closes the frame of this number (HTML Standard, "destroy a child navigable", "close a top-level
    /// traversable").
    pub(crate) fn close<L: Ledger>(
        &mut self,
        now: Millis,
        frame: u32,
        steps: &mut Steps<L>,
    ) -> Result<Replies, Refusal>
        ensures { (H : History) → StandsFor self.old H → IsReplied self.old self.new H (timed now (event.Close frame)) result }
    {
        engine_laws();
        let (_, h) = self.next_in(now, frame)?;
        let first = self.row(h, steps).doc;
        let before = self.pass(now, steps)?;
        self.frames.is_counted_in_tree_order();
        let Ok(gone) = self.frames.close(h) else {
            return Err(Refusal::Memory);
        };
        let after = self.leave(first, &gone, now, steps)?;
        self.note(now, Made::Nothing)?;
        Ok(Replies {
            before,
            answer: Answer::Done,
            after,
        })
    }
}
