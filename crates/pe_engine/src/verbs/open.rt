//! `open` and `embed`: pages are opened, and frames embedded.
ghost use Rattle.std.specs.Prelude.{◌≡◌, ◌+◌, ◌-◌, ◌^◌, ◌<◌, ◌≤◌, [], IfOk, OnOk, IsSome, Some, None, List, Bool, Option, ℕ, length, unwrap_or};
ghost use Rattle.pe_base.specs.declared.limits.TheConstants.{EVENT_LIMIT};
ghost use Rattle.pe_events.specs.declared.answer.Answer.TheVariants as answer;
ghost use Rattle.pe_events.specs.declared.event.Event.TheVariants as event;
ghost use Rattle.pe_frames.specs.Forest.{entry_of, path_of, page_count, embed_fault};
ghost use Rattle.pe_origin.specs.declared.place.PlaceKind.TheVariants as kind;
ghost use Rattle.pe_rules.specs.History.{History};
ghost use Rattle.pe_engine.specs.Changing.{HasOpened};
ghost use Rattle.pe_engine.specs.Embedding.{limit_cause, IsEmbedding};
ghost use Rattle.pe_engine.specs.Objects.{handle_at};
ghost use Rattle.pe_engine.specs.Replying.{steps_of, timed, IsAnswer, IsChecked};
ghost use Rattle.pe_rules.specs.Causes.{count_in_page, live_frames};
ghost use Rattle.pe_rules.specs.Embedders.{depth};
ghost use Rattle.pe_engine.specs.StandsFor.{StandsFor};

use crate::attribute::{place_given, place_named, value_given};
use crate::engine::{Engine, Made};
use crate::kept_row::KeptRow;
use crate::laws::engine_laws;
use crate::making::{child_row, top_row};
use crate::refusal::Refusal;
use crate::row::Attributes;
use pe_arena::Handle;
use pe_base::{DEPTH_LIMIT, DocNo, FRAME_LIMIT, FrameNo, Millis, PAGE_LIMIT, Steps};
use pe_events::{Answer, Cause};
use pe_lines::{OptionalText, Text};
use pe_origin::{Origin, Place, PlaceKind};
use std::alloc::AllocError;
use std::sync::ledger::Ledger;

/// That a frame and its document, both of this number, were made.
fn frame_made(number: u32, origin: Origin) -> Answer
    requires low { 1 ≤ number }
    requires high { number ≤ EVENT_LIMIT }
    ensures { result ≡ answer.FrameMade number number origin }
{
    Answer::FrameMade {
        frame: FrameNo::of(number),
        doc: DocNo::of(number),
        origin,
    }
}

/// An equal place of its own. `AllocError` where memory wants.
fn copy_of(place: &Place) -> Result<Place, AllocError>
    ensures { IfOk result (λ copy. copy ≡ place.now) }
{
    let tuple = match &place.tuple {
        Some(tuple) => Some(tuple.copy()?),
        None => None,
    };
    Ok(Place {
        kind: place.kind,
        tuple,
    })
}

/// The place of an embedded document: the given one, else that of `src`, else about:blank.
fn document_place(place: Option<Place>, src: &Option<Place>) -> Result<Place, AllocError>
    ensures { IfOk result (λ found. found ≡ unwrap_or place (unwrap_or src.now (record { kind = kind.Blank; tuple = None }))) }
{
    if let Some(place) = place {
        return Ok(place);
    }
    match src {
        Some(src) => copy_of(src),
        None => Ok(Place {
            kind: PlaceKind::Blank,
            tuple: None,
        }),
    }
}

/// What an embedding looks up.
#[derive(Drop)]
pub struct Embedding {
    /// The number of the new frame.
    pub number: u32,
    /// The handle of its parent.
    pub at: Handle,
    /// What the URL in `src` names.
    pub src: Option<Place>,
    /// The place of the document.
    pub place: Place,
}

impl Engine {
    /// Opens a page at a URL, with this header of its response (HTML Standard, "creating a new top-level
    /// traversable").
    pub(crate) fn open(
        &mut self,
        now: Millis,
        url: &Text<'_>,
        header: &OptionalText<'_>,
    ) -> Result<Answer, Refusal>
        ensures { (H : History) → StandsFor self.old H → IsAnswer self.old self.new H (timed now (event.OpenPage url.now header.now)) result }
    {
        engine_laws();
        let number = self.next(now)?;
        let place = match place_named(self.alloc, url.as_slice()) {
            Ok(place) => place,
            Err(refusal) => return Err(refusal),
        };
        if self.frames.pages() >= PAGE_LIMIT {
            return Err(Refusal::For(Cause::LimitPages));
        }
        let Ok(row) = top_row(self.alloc, number, place, header.get()) else {
            return Err(Refusal::Memory);
        };
        let origin = row.get().origin.copy()?;
        self.add_page(now, number, row)?;
        Ok(frame_made(number, origin))
    }

    /// Adds a page whose top frame has this number, and shows the document of this row.
    fn add_page(&mut self, now: Millis, number: u32, row: KeptRow) -> Result<(), AllocError>
        requires number { number ≡ length self.old.made + 1 }
        requires few { number ≤ EVENT_LIMIT }
        ensures { OnOk result (HasOpened self.old self.new now [] number row) }
    {
        self.made.reserve(1)?;
        let Ok(h) = self.frames.open_page(FrameNo::of(number), row) else {
            return Err(AllocError);
        };
        self.made.push_reserved(Made::Frame(h));
        self.clock = now;
        Ok(())
    }

    /// Adds a frame of this number below a live one, which shows the document of this row.
    fn add_child(
        &mut self,
        now: Millis,
        parent: Handle,
        number: u32,
        row: KeptRow,
    ) -> Result<(), AllocError>
        requires number { number ≡ length self.old.made + 1 }
        requires few { number ≤ EVENT_LIMIT }
        ensures { OnOk result (HasOpened self.old self.new now (path_of self.old.frames.entries parent) number row) }
    {
        self.made.reserve(1)?;
        let Ok(h) = self.frames.embed(parent, FrameNo::of(number), row) else {
            return Err(AllocError);
        };
        self.made.push_reserved(Made::Frame(h));
        self.clock = now;
        Ok(())
    }

    /// The limit that a frame below this live one would pass: of the depth, or of the page's frames.
    fn limit_below<L: Ledger>(&self, h: Handle, steps: &mut Steps<L>) -> Option<Cause>
        requires live { IsSome (entry_of self.now.frames.entries h) }
        ensures { (H : History) (f : ℕ) → StandsFor self.now H → handle_at self.now.made f ≡ Some h
            → result ≡ limit_cause (depth (steps_of self.now H) f) (count_in_page (steps_of self.now H) f (live_frames (steps_of self.now H))) }
    {
        if self.frames.node(h, steps).unwrap().depth >= DEPTH_LIMIT {
            return Some(Cause::LimitDepth);
        }
        if self.frames.page_size(h).unwrap() >= FRAME_LIMIT {
            return Some(Cause::LimitFrames);
        }
        None
    }

    /// What an embedding looks up: the number of the frame, the handle of its parent, and the places of
    /// `src` and of the document.
    fn embedding<L: Ledger>(
        &self,
        now: Millis,
        parent: u32,
        src: &OptionalText<'_>,
        place: &OptionalText<'_>,
        steps: &mut Steps<L>,
    ) -> Result<Embedding, Refusal>
        ensures lookup { IfOk result (IsEmbedding self.now parent src.now place.now) }
        ensures cause { (H : History) (allow sandbox header : Option (List ℕ)) (fullscreen srcdoc : Bool) → StandsFor self.now H
            → IsChecked self.now H (timed now (event.Embed parent src.now place.now allow sandbox fullscreen srcdoc header)) result }
    {
        engine_laws();
        let (number, at) = self.next_in(now, parent)?;
        let src = match place_given(self.alloc, src) {
            Ok(src) => src,
            Err(refusal) => return Err(refusal),
        };
        let place = match place_given(self.alloc, place) {
            Ok(place) => place,
            Err(refusal) => return Err(refusal),
        };
        if let Some(cause) = self.limit_below(at, steps) {
            return Err(Refusal::For(cause));
        }
        let place = document_place(place, &src)?;
        Ok(Embedding {
            number,
            at,
            src,
            place,
        })
    }

    /// Embeds a frame in the document of the frame of this number (HTML Standard, "create a new child
    /// navigable"), with the attributes of its element; `place` is the URL of its document where that is
    /// not `src`.
    pub(crate) fn embed<L: Ledger>(
        &mut self,
        now: Millis,
        parent: u32,
        src: &OptionalText<'_>,
        place: &OptionalText<'_>,
        allow: &OptionalText<'_>,
        sandbox: &OptionalText<'_>,
        fullscreen: bool,
        srcdoc: bool,
        header: &OptionalText<'_>,
        steps: &mut Steps<L>,
    ) -> Result<Answer, Refusal>
        ensures { (H : History) → StandsFor self.old H
            → IsAnswer self.old self.new H (timed now (event.Embed parent src.now place.now allow.now sandbox.now fullscreen srcdoc header.now)) result }
    {
        engine_laws();
        let found = match self.embedding(now, parent, src, place, steps) {
            Ok(found) => found,
            Err(refusal) => return Err(refusal),
        };
        let attributes = Attributes {
            src: found.src,
            srcdoc,
            allow: value_given(self.alloc, allow)?,
            sandbox: value_given(self.alloc, sandbox)?,
            fullscreen,
        };
        let row = self.row(found.at, steps);
        let Ok(mut row) = child_row(
            self.alloc,
            row,
            found.number,
            found.place,
            srcdoc,
            header.get(),
            &attributes,
        ) else {
            return Err(Refusal::Memory);
        };
        row.set_attributes(attributes);
        let origin = row.get().origin.copy()?;
        self.add_child(now, found.at, found.number, row)?;
        Ok(frame_made(found.number, origin))
    }
}
