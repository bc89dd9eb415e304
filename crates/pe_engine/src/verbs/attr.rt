//! `attr`: an attribute of a frame is set or removed.
ghost use Rattle.std.specs.Prelude.{◌≡◌, IfSome};
ghost use Rattle.pe_events.specs.declared.event.Event.TheVariants as event;
ghost use Rattle.pe_frames.specs.Forest.{entry_of, with_doc};
ghost use Rattle.pe_rules.specs.History.{History};
ghost use Rattle.pe_engine.specs.Changing.{with_attribute};
ghost use Rattle.pe_engine.specs.Replying.{timed, IsAnswer};
ghost use Rattle.pe_engine.specs.StandsFor.{StandsFor};

use crate::attribute::{Attribute, attribute_given};
use crate::engine::{Engine, Made};
use crate::kept_row::KeptRow;
use crate::laws::engine_laws;
use crate::refusal::Refusal;
use pe_arena::Handle;
use pe_base::{Millis, Steps};
use pe_events::{Answer, AttrName};
use pe_frames::Frames;
use pe_lines::OptionalText;
use std::sync::ledger::Ledger;

/// Gives the frame this attribute.
fn give<L: Ledger>(
    frames: &mut Frames<KeptRow>,
    h: Handle,
    attribute: Attribute,
    steps: &mut Steps<L>,
)
    ensures { IfSome (entry_of frames.old.entries h) (λ e. frames.new ≡ with_doc frames.old h (record e.doc { attributes = with_attribute attribute e.doc.attributes })) }
{
    if let Some(row) = frames.doc_mut(h, steps) {
        row.give(attribute);
    }
}

impl Engine {
    /// Sets an attribute of the frame of this number, or removes it where there is no value (HTML
    /// Standard, "the iframe element"). It acts on the next document that is made in the frame.
    pub(crate) fn attr<L: Ledger>(
        &mut self,
        now: Millis,
        frame: u32,
        name: AttrName,
        value: &OptionalText<'_>,
        steps: &mut Steps<L>,
    ) -> Result<Answer, Refusal>
        ensures { (H : History) → StandsFor self.old H → IsAnswer self.old self.new H (timed now (event.Attr frame name value.now)) result }
    {
        engine_laws();
        let (_, h) = self.next_in(now, frame)?;
        let attribute = match attribute_given(self.alloc, name, value) {
            Ok(attribute) => attribute,
            Err(refusal) => return Err(refusal),
        };
        give(&mut self.frames, h, attribute, steps);
        self.note(now, Made::Nothing)?;
        Ok(Answer::Done)
    }
}
