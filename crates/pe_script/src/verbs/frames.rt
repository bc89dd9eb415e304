//! Verbs on one frame.
ghost use Rattle.std.specs.Prelude.{◌≡◌, ℕ, List, Option, option_and_then, option_map};
ghost use Rattle.pe_events.specs.declared.event.Event.{Event};
ghost use Rattle.pe_events.specs.declared.event.Event.TheVariants as event;
ghost use Rattle.pe_script.specs.Answering.{Gives};
ghost use Rattle.pe_script.specs.Verbs.{read_on_frame, read_with_name, read_input};

use crate::names::{bare_text, input_kind};
use crate::numerals::object;
use crate::reading::LineFault;
use crate::words::{one, two};
use pe_events::Event;
use pe_lines::{Text, WordReader};

/// The frame that a verb has behind it, and nothing else.
fn frame_alone(words: WordReader<'_>) -> Option<u32>
    ensures { (make : ℕ → Event) → option_map make result ≡ option_and_then (read_on_frame make) words.entry.words }
{
    object(&one(words)?, b'f')
}

/// The frame and the bare name that a verb has behind it, and nothing else.
fn frame_and_name<'a>(words: WordReader<'a>) -> Option<(u32, Text<'a>)>
    ensures { (make : ℕ → List ℕ → Event) → option_map (λ pair. make pair.0 pair.1) result ≡ option_and_then (read_with_name make) words.entry.words }
{
    let (frame, name) = two(words)?;
    let frame = object(&frame, b'f')?;
    let name = bare_text(&name)?;
    Some((frame, name))
}

/// `close F`.
pub fn read_close<'a>(words: WordReader<'a>) -> Result<Event<'a>, LineFault>
    ensures { Gives (option_and_then (read_on_frame event.Close) words.entry.words) result }
{
    let Some(frame) = frame_alone(words) else {
        return Err(LineFault::Syntax);
    };
    Ok(Event::Close { frame })
}

/// `state F`.
pub fn read_state<'a>(words: WordReader<'a>) -> Result<Event<'a>, LineFault>
    ensures { Gives (option_and_then (read_on_frame event.Ask) words.entry.words) result }
{
    let Some(frame) = frame_alone(words) else {
        return Err(LineFault::Syntax);
    };
    Ok(Event::Ask { frame })
}

/// `history F`.
pub fn read_history<'a>(words: WordReader<'a>) -> Result<Event<'a>, LineFault>
    ensures { Gives (option_and_then (read_on_frame event.History) words.entry.words) result }
{
    let Some(frame) = frame_alone(words) else {
        return Err(LineFault::Syntax);
    };
    Ok(Event::History { frame })
}

/// `features F`.
pub fn read_features<'a>(words: WordReader<'a>) -> Result<Event<'a>, LineFault>
    ensures { Gives (option_and_then (read_on_frame event.Features) words.entry.words) result }
{
    let Some(frame) = frame_alone(words) else {
        return Err(LineFault::Syntax);
    };
    Ok(Event::Features { frame })
}

/// `policy F FEATURE`.
pub fn read_policy<'a>(words: WordReader<'a>) -> Result<Event<'a>, LineFault>
    ensures { Gives (option_and_then (read_with_name event.PolicyOf) words.entry.words) result }
{
    let Some((frame, feature)) = frame_and_name(words) else {
        return Err(LineFault::Syntax);
    };
    Ok(Event::PolicyOf { frame, feature })
}

/// `use F CALL`.
pub fn read_use<'a>(words: WordReader<'a>) -> Result<Event<'a>, LineFault>
    ensures { Gives (option_and_then (read_with_name event.UseCall) words.entry.words) result }
{
    let Some((frame, call)) = frame_and_name(words) else {
        return Err(LineFault::Syntax);
    };
    Ok(Event::UseCall { frame, call })
}

/// `query F FEATURE`.
pub fn read_query<'a>(words: WordReader<'a>) -> Result<Event<'a>, LineFault>
    ensures { Gives (option_and_then (read_with_name event.Query) words.entry.words) result }
{
    let Some((frame, feature)) = frame_and_name(words) else {
        return Err(LineFault::Syntax);
    };
    Ok(Event::Query { frame, feature })
}

/// `request F FEATURE`.
pub fn read_request<'a>(words: WordReader<'a>) -> Result<Event<'a>, LineFault>
    ensures { Gives (option_and_then (read_with_name event.Request) words.entry.words) result }
{
    let Some((frame, feature)) = frame_and_name(words) else {
        return Err(LineFault::Syntax);
    };
    Ok(Event::Request { frame, feature })
}

/// `input F KIND`.
pub fn read_input<'a>(words: WordReader<'a>) -> Result<Event<'a>, LineFault>
    ensures { Gives (option_and_then read_input words.entry.words) result }
{
    let Some((frame, kind)) = two(words) else {
        return Err(LineFault::Syntax);
    };
    let Some(frame) = object(&frame, b'f') else {
        return Err(LineFault::Syntax);
    };
    let Some(kind) = input_kind(&kind) else {
        return Err(LineFault::Syntax);
    };
    Ok(Event::Input { frame, kind })
}
