//! `state` and `tick`: the user activation of a document, and the time that passes.
ghost use Rattle.std.specs.Prelude.{◌≡◌};
ghost use Rattle.pe_base.specs.Activation.{is_sticky, is_transient};
ghost use Rattle.pe_events.specs.declared.answer.Answer.TheVariants as answer;
ghost use Rattle.pe_events.specs.declared.event.Event.TheVariants as event;
ghost use Rattle.pe_rules.specs.History.{History};
ghost use Rattle.pe_engine.specs.Replying.{timed, IsAnswer};
ghost use Rattle.pe_engine.specs.StandsFor.{StandsFor};

use crate::engine::{Engine, Made};
use crate::laws::engine_laws;
use crate::refusal::Refusal;
use crate::row::Row;
use pe_activation::{sticky, transient};
use pe_base::{Millis, Steps};
use pe_events::Answer;
use std::sync::ledger::Ledger;

/// The user activation that a row tells at this time, where transient activation lasts for so many
/// milliseconds.
fn activity(row: &Row, now: Millis, duration: u32) -> Answer
    ensures { result ≡ answer.Activity (is_sticky row.now.stamp) (is_transient duration now row.now.stamp) }
{
    Answer::Activity {
        sticky: sticky(row.stamp),
        transient: transient(row.stamp, now, duration),
    }
}

impl Engine {
    /// The user activation of the document of the frame of this number (HTML Standard, "the
    /// UserActivation interface").
    pub(crate) fn state<L: Ledger>(
        &mut self,
        now: Millis,
        frame: u32,
        steps: &mut Steps<L>,
    ) -> Result<Answer, Refusal>
        ensures { (H : History) → StandsFor self.old H → IsAnswer self.old self.new H (timed now (event.Ask frame)) result }
    {
        engine_laws();
        let (_, h) = self.next_in(now, frame)?;
        let answer = activity(self.row(h, steps), now, self.duration);
        self.note(now, Made::Nothing)?;
        Ok(answer)
    }

    /// Time goes on.
    pub(crate) fn tick(&mut self, now: Millis) -> Result<Answer, Refusal>
        ensures { (H : History) → StandsFor self.old H → IsAnswer self.old self.new H (timed now event.Tick) result }
    {
        engine_laws();
        self.next(now)?;
        self.note(now, Made::Nothing)?;
        Ok(Answer::Done)
    }
}
