//! `input`: the user gives an input in a frame.
ghost use Rattle.pe_events.specs.declared.event.Event.TheVariants as event;
ghost use Rattle.pe_rules.specs.History.{History};
ghost use Rattle.pe_engine.specs.Replying.{timed, IsAnswer};
ghost use Rattle.pe_engine.specs.StandsFor.{StandsFor};

use crate::engine::{Engine, Made};
use crate::laws::engine_laws;
use crate::refusal::Refusal;
use pe_activation::{notify, triggers};
use pe_base::{InputKind, Millis, Steps};
use pe_events::Answer;
use std::sync::ledger::Ledger;

impl Engine {
    /// An input in the document of the frame of this number: where its kind triggers, it activates that
    /// document, those above it, and those below it that are same origin with it (HTML Standard,
    /// "activation notification").
    pub(crate) fn input<L: Ledger>(
        &mut self,
        now: Millis,
        frame: u32,
        kind: InputKind,
        steps: &mut Steps<L>,
    ) -> Result<Answer, Refusal>
        ensures { (H : History) → StandsFor self.old H → IsAnswer self.old self.new H (timed now (event.Input frame kind)) result }
    {
        engine_laws();
        let (_, h) = self.next_in(now, frame)?;
        if !triggers(kind) {
            self.note(now, Made::Nothing)?;
            return Ok(Answer::Ignored);
        }
        let count = notify(&mut self.frames, h, now, steps).unwrap();
        self.note(now, Made::Nothing)?;
        Ok(Answer::Activated { count })
    }
}
