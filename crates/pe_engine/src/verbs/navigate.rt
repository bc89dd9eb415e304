//! `nav`: a frame is navigated.
ghost use Rattle.std.specs.Prelude.{◌≡◌, ◌+◌, ◌≤◌, ◌∷◌, IfOk, IfSome, IsSome, Some, List, ℕ, length};
ghost use Rattle.std.specs.Option.{option_copied};
ghost use Rattle.pe_base.specs.declared.limits.TheConstants.{EVENT_LIMIT};
ghost use Rattle.pe_events.specs.declared.event.Event.TheVariants as event;
ghost use Rattle.pe_frames.specs.Forest.{entry_of, with_doc};
ghost use Rattle.pe_origin.specs.Places.{place_at};
ghost use Rattle.pe_rules.specs.History.{History, StepAnswer};
ghost use Rattle.pe_rules.specs.Replies.{replied};
ghost use Rattle.pe_engine.specs.Making.{IsNew};
ghost use Rattle.pe_engine.specs.Objects.{handle_at};
ghost use Rattle.pe_engine.specs.Replying.{timed, IsReplied};
ghost use Rattle.pe_engine.specs.Rows.{no_kept_attributes, IsSettled, IsEmbedder};
ghost use Rattle.pe_engine.specs.StandsFor.{StandsFor};

use crate::attribute::place_named;
use crate::engine::{Engine, Made};
use crate::kept_row::KeptRow;
use crate::laws::engine_laws;
use crate::making::{child_row, top_row};
use crate::refusal::Refusal;
use crate::replies::Replies;
use crate::row::{Attributes, Row};
use pe_arena::Handle;
use pe_base::{DocNo, Millis, Steps};
use pe_events::Answer;
use pe_frames::Frames;
use pe_lines::{OptionalText, Text};
use pe_origin::Place;
use std::alloc::AllocError;
use std::sync::ledger::Ledger;

/// Takes the attributes out of the row of a live frame, and leaves none.
fn take_attributes<L: Ledger>(
    frames: &mut Frames<KeptRow>,
    h: Handle,
    steps: &mut Steps<L>,
) -> Attributes
    ensures taken { IfSome (entry_of frames.old.entries h) (λ e. (result ≡ e.doc.attributes)
        × (frames.new ≡ with_doc frames.old h (record e.doc { attributes = no_kept_attributes }))) }
    ensures made { frames.new.made ≡ frames.old.made }
{
    match frames.doc_mut(h, steps) {
        Some(row) => row.take_attributes(),
        None => Attributes::none(),
    }
}

impl Engine {
    /// The row of the document that embeds that of the live frame; None for a top frame.
    fn embedder<'e, L: Ledger>(&'e self, h: Handle, steps: &mut Steps<L>) -> Option<&'e Row>
        ensures { (H : History) (f : ℕ) → StandsFor self.now H → handle_at self.now.made f ≡ Some h → IsSome (entry_of self.now.frames.entries h)
            → IsEmbedder (replied self.now.duration H) f (option_copied result) }
    {
        engine_laws();
        let Some(parent) = self.frames.parent(h) else {
            return None;
        };
        let Some(node) = self.frames.node(parent, steps) else {
            return None;
        };
        Some(node.doc.get())
    }

    /// The row of the next document of a live frame, with no attributes yet.
    fn next_row<L: Ledger>(
        &self,
        number: u32,
        h: Handle,
        place: Place,
        header: Option<&[u8]>,
        steps: &mut Steps<L>,
    ) -> Result<KeptRow, AllocError>
        requires low { 1 ≤ number }
        requires few { number ≤ EVENT_LIMIT }
        requires live { IsSome (entry_of self.now.frames.entries h) }
        ensures new { IfOk result (IsNew number) }
        ensures settled { (H : History) (now f : ℕ) (url : List ℕ) (item : StepAnswer) → StandsFor self.now H → handle_at self.now.made f ≡ Some h
            → place_at url ≡ Some place → number ≡ length self.now.made + 1
            → IfOk result (IsSettled (record { time = now; event = event.Navigate f url (option_copied header.entry); item = item } ∷ replied self.now.duration H)) }
    {
        engine_laws();
        match self.embedder(h, steps) {
            Some(embedder) => {
                let attributes = &self.row(h, steps).attributes;
                child_row(
                    self.alloc, embedder, number, place, false, header, attributes,
                )
            }
            None => top_row(self.alloc, number, place, header),
        }
    }

    /// Navigates the frame of this number to a URL, with this header of its response (HTML Standard,
    /// "navigate").
    pub(crate) fn navigate<L: Ledger>(
        &mut self,
        now: Millis,
        frame: u32,
        url: &Text<'_>,
        header: &OptionalText<'_>,
        steps: &mut Steps<L>,
    ) -> Result<Replies, Refusal>
        ensures { (H : History) → StandsFor self.old H → IsReplied self.old self.new H (timed now (event.Navigate frame url.now header.now)) result }
    {
        engine_laws();
        let (number, h) = self.next_in(now, frame)?;
        let place = match place_named(self.alloc, url.as_slice()) {
            Ok(place) => place,
            Err(refusal) => return Err(refusal),
        };
        let Ok(mut row) = self.next_row(number, h, place, header.get(), steps) else {
            return Err(Refusal::Memory);
        };
        let origin = row.get().origin.copy()?;
        let first = self.row(h, steps).doc;
        let before = self.pass(now, steps)?;
        row.set_attributes(take_attributes(&mut self.frames, h, steps));
        self.frames.is_counted_in_tree_order();
        let Ok(gone) = self.frames.navigate(h, row) else {
            return Err(Refusal::Memory);
        };
        let after = self.leave(first, &gone, now, steps)?;
        self.note(now, Made::Doc)?;
        Ok(Replies {
            before,
            answer: Answer::DocMade {
                doc: DocNo::of(number),
                origin,
            },
            after,
        })
    }
}
