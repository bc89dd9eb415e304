//! Verbs on messages, and on time alone.
ghost use Rattle.std.specs.Prelude.{option_and_then};
ghost use Rattle.pe_script.specs.Answering.{Gives};
ghost use Rattle.pe_script.specs.Verbs.{read_post, read_deliver, read_tick};

use crate::names::{bare_text, text_unless};
use crate::numerals::object;
use crate::reading::LineFault;
use crate::words::{four, one};
use pe_events::Event;
use pe_lines::WordReader;
use std::alloc::Global;

/// `post F G ORIGIN CAPABILITY`, where the bare `*` is any origin.
pub fn read_post<'a>(alloc: Global, words: WordReader<'a>) -> Result<Event<'a>, LineFault>
    ensures { Gives (option_and_then read_post words.entry.words) result }
{
    let Some((sender, target, origin, capability)) = four(words) else {
        return Err(LineFault::Syntax);
    };
    let Some(sender) = object(&sender, b'f') else {
        return Err(LineFault::Syntax);
    };
    let Some(target) = object(&target, b'f') else {
        return Err(LineFault::Syntax);
    };
    let Some(capability) = bare_text(&capability) else {
        return Err(LineFault::Syntax);
    };
    let Ok(origin) = text_unless(alloc, b"*", &origin) else {
        return Err(LineFault::Memory);
    };
    Ok(Event::Post {
        sender,
        target,
        origin,
        capability,
    })
}

/// `deliver M`.
pub fn read_deliver<'a>(words: WordReader<'a>) -> Result<Event<'a>, LineFault>
    ensures { Gives (option_and_then read_deliver words.entry.words) result }
{
    let Some(message) = one(words) else {
        return Err(LineFault::Syntax);
    };
    let Some(message) = object(&message, b'm') else {
        return Err(LineFault::Syntax);
    };
    Ok(Event::Deliver { message })
}

/// `tick`.
pub fn read_tick<'a>(words: WordReader<'a>) -> Result<Event<'a>, LineFault>
    ensures { Gives (option_and_then read_tick words.entry.words) result }
{
    if !words.is_done() {
        return Err(LineFault::Syntax);
    }
    Ok(Event::Tick)
}
