//! `history`: a document takes a history action.
ghost use Rattle.pe_events.specs.declared.event.Event.TheVariants as event;
ghost use Rattle.pe_rules.specs.History.{History};
ghost use Rattle.pe_engine.specs.Replying.{timed, IsAnswer};
ghost use Rattle.pe_engine.specs.StandsFor.{StandsFor};

use crate::engine::{Engine, Made};
use crate::laws::engine_laws;
use crate::refusal::Refusal;
use pe_activation::{consume_history, history_active};
use pe_base::{Millis, Steps};
use pe_events::{Answer, Reason};
use std::sync::ledger::Ledger;

impl Engine {
    /// A history action of the document of the frame of this number, which consumes the history-action
    /// activation of its page (HTML Standard, "history-action activation-consuming API").
    pub(crate) fn history<L: Ledger>(
        &mut self,
        now: Millis,
        frame: u32,
        steps: &mut Steps<L>,
    ) -> Result<Answer, Refusal>
        ensures { (H : History) → StandsFor self.old H → IsAnswer self.old self.new H (timed now (event.History frame)) result }
    {
        engine_laws();
        let (_, h) = self.next_in(now, frame)?;
        let row = self.row(h, steps);
        if !history_active(row.stamp, row.second) {
            self.note(now, Made::Nothing)?;
            return Ok(Answer::Denied {
                reason: Reason::NoHistory,
            });
        }
        consume_history(&mut self.frames, h, steps).unwrap();
        self.note(now, Made::Nothing)?;
        Ok(Answer::Allowed)
    }
}
