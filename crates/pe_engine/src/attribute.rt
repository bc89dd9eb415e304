//! Attributes of frames, as events give them.
ghost use Rattle.std.specs.Prelude.{◌≡◌, IfOk};
ghost use Rattle.pe_engine.specs.Changing.{with_attribute};
ghost use Rattle.pe_engine.specs.Giving.{GivesPlace, GivesPlaceOrNone, GivesAttribute};

use crate::refusal::Refusal;
use crate::row::Attributes;
use pe_base::Bytes;
use pe_events::{AttrName, Cause};
use pe_lines::OptionalText;
use pe_origin::{Place, PlaceFault, read_place};
use std::alloc::{AllocError, Global};

/// An attribute of a frame, with its value as it is kept.
#[derive(Drop)]
pub enum Attribute {
    /// What the URL in `src` names; None where it is removed.
    Src(Option<Place>),
    /// Whether `srcdoc` stands.
    Srcdoc(bool),
    /// The value of `allow`; None where it is removed.
    Allow(Option<Bytes>),
    /// The value of `sandbox`; None where it is removed.
    Sandbox(Option<Bytes>),
    /// Whether `allowfullscreen` stands.
    Fullscreen(bool),
}

/// The place that a URL names, or why it is refused.
pub(crate) fn place_named(alloc: Global, url: &[u8]) -> Result<Place, Refusal>
    ensures { GivesPlace url.now result }
{
    match read_place(alloc, url) {
        Ok(place) => Ok(place),
        Err(PlaceFault::NotAUrl) => Err(Refusal::For(Cause::Url)),
        Err(PlaceFault::Memory) => Err(Refusal::Memory),
    }
}

/// The place that a URL names, where there is one.
pub(crate) fn place_given(alloc: Global, url: &OptionalText<'_>) -> Result<Option<Place>, Refusal>
    ensures { GivesPlaceOrNone url.now result }
{
    match url.get() {
        Some(url) => match place_named(alloc, url) {
            Ok(place) => Ok(Some(place)),
            Err(refusal) => Err(refusal),
        },
        None => Ok(None),
    }
}

/// A copy of a value, where there is one. `AllocError` where memory wants.
pub(crate) fn value_given(
    alloc: Global,
    value: &OptionalText<'_>,
) -> Result<Option<Bytes>, AllocError>
    ensures { IfOk result (λ bytes. bytes ≡ value.now) }
{
    match value.get() {
        Some(bytes) => Ok(Some(Bytes::copy_of(alloc, bytes)?)),
        None => Ok(None),
    }
}

/// The attribute of this name and value, as it is kept, or why it is refused.
pub(crate) fn attribute_given(
    alloc: Global,
    name: AttrName,
    value: &OptionalText<'_>,
) -> Result<Attribute, Refusal>
    ensures { GivesAttribute name value.now result }
{
    match name {
        AttrName::Src => Ok(Attribute::Src(place_given(alloc, value)?)),
        AttrName::Srcdoc => Ok(Attribute::Srcdoc(value.is_some())),
        AttrName::Allow => match value_given(alloc, value) {
            Ok(value) => Ok(Attribute::Allow(value)),
            Err(AllocError) => Err(Refusal::Memory),
        },
        AttrName::Sandbox => match value_given(alloc, value) {
            Ok(value) => Ok(Attribute::Sandbox(value)),
            Err(AllocError) => Err(Refusal::Memory),
        },
        AttrName::Fullscreen => Ok(Attribute::Fullscreen(value.is_some())),
    }
}

impl Attributes {
    /// Gives this attribute.
    pub(crate) fn give(&mut self, attribute: Attribute)
        ensures { self.new ≡ with_attribute attribute self.old }
    {
        match attribute {
            Attribute::Src(place) => self.src = place,
            Attribute::Srcdoc(stands) => self.srcdoc = stands,
            Attribute::Allow(value) => self.allow = value,
            Attribute::Sandbox(value) => self.sandbox = value,
            Attribute::Fullscreen(stands) => self.fullscreen = stands,
        }
    }
}
