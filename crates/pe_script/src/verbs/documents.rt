//! Verbs that load documents, and attributes of frames.
ghost use Rattle.std.specs.Prelude.{option_and_then};
ghost use Rattle.pe_script.specs.Answering.{Gives};
ghost use Rattle.pe_script.specs.Verbs.{read_open, read_embed, read_nav, read_attr};

use crate::names::{attribute_name, text_unless};
use crate::numerals::object;
use crate::options::{read_headers, read_options};
use crate::reading::LineFault;
use crate::words::three;
use pe_events::Event;
use pe_lines::WordReader;
use std::alloc::Global;

/// `open URL` and headers.
pub fn read_open<'a>(alloc: Global, mut words: WordReader<'a>) -> Result<Event<'a>, LineFault>
    ensures { Gives (option_and_then read_open words.entry.words) result }
{
    let Some(url) = words.next() else {
        return Err(LineFault::Syntax);
    };
    let header = read_headers(alloc, words)?;
    let Ok(url) = url.text(alloc) else {
        return Err(LineFault::Memory);
    };
    Ok(Event::OpenPage { url, header })
}

/// `embed F SRC` and options, where the bare `none` is no source.
pub fn read_embed<'a>(alloc: Global, mut words: WordReader<'a>) -> Result<Event<'a>, LineFault>
    ensures { Gives (option_and_then read_embed words.entry.words) result }
{
    let Some(frame) = words.next() else {
        return Err(LineFault::Syntax);
    };
    let Some(src) = words.next() else {
        return Err(LineFault::Syntax);
    };
    let Some(parent) = object(&frame, b'f') else {
        return Err(LineFault::Syntax);
    };
    let Ok(src) = text_unless(alloc, b"none", &src) else {
        return Err(LineFault::Memory);
    };
    let given = read_options(alloc, words)?;
    given.embedding(parent, src)
}

/// `nav F URL` and headers.
pub fn read_nav<'a>(alloc: Global, mut words: WordReader<'a>) -> Result<Event<'a>, LineFault>
    ensures { Gives (option_and_then read_nav words.entry.words) result }
{
    let Some(frame) = words.next() else {
        return Err(LineFault::Syntax);
    };
    let Some(url) = words.next() else {
        return Err(LineFault::Syntax);
    };
    let Some(frame) = object(&frame, b'f') else {
        return Err(LineFault::Syntax);
    };
    let header = read_headers(alloc, words)?;
    let Ok(url) = url.text(alloc) else {
        return Err(LineFault::Memory);
    };
    Ok(Event::Navigate { frame, url, header })
}

/// `attr F NAME VALUE`, where the bare `none` removes the attribute.
pub fn read_attr<'a>(alloc: Global, words: WordReader<'a>) -> Result<Event<'a>, LineFault>
    ensures { Gives (option_and_then read_attr words.entry.words) result }
{
    let Some((frame, name, value)) = three(words) else {
        return Err(LineFault::Syntax);
    };
    let Some(frame) = object(&frame, b'f') else {
        return Err(LineFault::Syntax);
    };
    let Some(name) = attribute_name(&name) else {
        return Err(LineFault::Syntax);
    };
    let Ok(value) = text_unless(alloc, b"none", &value) else {
        return Err(LineFault::Memory);
    };
    Ok(Event::Attr { frame, name, value })
}
