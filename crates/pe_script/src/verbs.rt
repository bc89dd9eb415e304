//! What the words behind each verb say.
ghost use Rattle.std.specs.Prelude.{option_and_then};
ghost use Rattle.pe_script.specs.Answering.{Gives};
ghost use Rattle.pe_script.specs.Readers.{reader_of};

mod documents;
mod frames;
mod messages;
mod permissions;

use crate::names::Verb;
use crate::reading::LineFault;
use documents::{read_attr, read_embed, read_nav, read_open};
use frames::{
    read_close, read_features, read_history, read_input, read_policy, read_query, read_request,
    read_state, read_use,
};
use messages::{read_deliver, read_post, read_tick};
use pe_events::Event;
use pe_lines::WordReader;
use permissions::{read_answer, read_drop, read_set};
use std::alloc::Global;

/// The event that the words behind a verb say; `Syntax` where they say none. `Memory` is taken only for
/// escapes and several headers.
pub fn read_behind<'a>(
    alloc: Global,
    verb: Verb,
    words: WordReader<'a>,
) -> Result<Event<'a>, LineFault>
    ensures { Gives (option_and_then (reader_of verb) words.entry.words) result }
{
    match verb {
        Verb::Open => read_open(alloc, words),
        Verb::Embed => read_embed(alloc, words),
        Verb::Nav => read_nav(alloc, words),
        Verb::Attr => read_attr(alloc, words),
        Verb::Close => read_close(words),
        Verb::Input => read_input(words),
        Verb::State => read_state(words),
        Verb::History => read_history(words),
        Verb::Policy => read_policy(words),
        Verb::Features => read_features(words),
        Verb::Use => read_use(words),
        Verb::Query => read_query(words),
        Verb::Drop => read_drop(words),
        Verb::Request => read_request(words),
        Verb::Answer => read_answer(words),
        Verb::Set => read_set(alloc, words),
        Verb::Post => read_post(alloc, words),
        Verb::Deliver => read_deliver(words),
        Verb::Tick => read_tick(words),
    }
}
