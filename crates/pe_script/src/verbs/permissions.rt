//! Verbs on statuses, prompts and the permission store.
ghost use Rattle.std.specs.Prelude.{◌≡◌, ◌∷◌, [], IfOk, option_and_then, option_map};
ghost use Rattle.pe_lines.specs.Words.{Word};
ghost use Rattle.pe_script.specs.Answering.{Gives};
ghost use Rattle.pe_script.specs.Verbs.{read_drop, read_life, read_outcome, read_answer, read_setting, read_set};
ghost use Rattle.pe_script.specs.Taking.{span_for, setting_words, span_given};

use crate::names::{bare_text, is_keyword, lasting_outcome, state};
use crate::numerals::{object, span};
use crate::reading::LineFault;
use crate::words::one;
use pe_base::State;
use pe_events::{Event, EventLife, Outcome};
use pe_lines::{OptionalText, Text, WordReader, WordSpan};
use std::alloc::{AllocError, Global};

/// `drop S`.
pub fn read_drop<'a>(words: WordReader<'a>) -> Result<Event<'a>, LineFault>
    ensures { Gives (option_and_then read_drop words.entry.words) result }
{
    let Some(status) = one(words) else {
        return Err(LineFault::Syntax);
    };
    let Some(status) = object(&status, b's') else {
        return Err(LineFault::Syntax);
    };
    Ok(Event::DropStatus { status })
}

/// `once`.
fn once(word: &WordSpan<'_>) -> Option<EventLife>
    ensures { result ≡ read_life (word.now ∷ []) }
{
    if !is_keyword(word, b"once") {
        return None;
    }
    Some(EventLife::Once)
}

/// The span of `for MS`, in milliseconds.
fn span_for(keyword: &WordSpan<'_>, ms: &WordSpan<'_>) -> Option<u64>
    ensures { result ≡ span_for keyword.now ms.now }
{
    if !is_keyword(keyword, b"for") {
        return None;
    }
    span(ms)
}

/// LIFE: nothing, `once` or `for MS`.
fn read_life(mut words: WordReader<'_>) -> Option<EventLife>
    ensures { result ≡ option_and_then read_life words.entry.words }
{
    if words.is_done() {
        return Some(EventLife::Forever);
    }
    let keyword = words.next()?;
    if words.is_done() {
        return once(&keyword);
    }
    let span = span_for(&keyword, &one(words)?)?;
    Some(EventLife::For(span))
}

/// What a prompt is answered where no life is given.
fn outcome_alone<'a>(prompt: u32, word: &WordSpan<'_>) -> Result<Event<'a>, LineFault>
    ensures { Gives (read_outcome prompt word.now []) result }
{
    if is_keyword(word, b"dismiss") {
        return Ok(Event::Answered {
            prompt,
            outcome: Outcome::Dismiss,
            life: EventLife::Forever,
        });
    }
    let Some(outcome) = lasting_outcome(word) else {
        return Err(LineFault::Syntax);
    };
    Ok(Event::Answered {
        prompt,
        outcome,
        life: EventLife::Forever,
    })
}

/// What a prompt is answered: `allow` or `block` with a life, or `dismiss` alone.
fn read_outcome<'a>(
    prompt: u32,
    word: &WordSpan<'_>,
    words: WordReader<'a>,
) -> Result<Event<'a>, LineFault>
    ensures { Gives (option_and_then (read_outcome prompt word.now) words.entry.words) result }
{
    if words.is_done() {
        return outcome_alone(prompt, word);
    }
    let Some(outcome) = lasting_outcome(word) else {
        return Err(LineFault::Syntax);
    };
    let Some(life) = read_life(words) else {
        return Err(LineFault::Syntax);
    };
    Ok(Event::Answered {
        prompt,
        outcome,
        life,
    })
}

/// `answer P allow LIFE`, `answer P block LIFE` or `answer P dismiss`.
pub fn read_answer<'a>(mut words: WordReader<'a>) -> Result<Event<'a>, LineFault>
    ensures { Gives (option_and_then read_answer words.entry.words) result }
{
    let Some(prompt) = words.next() else {
        return Err(LineFault::Syntax);
    };
    let Some(word) = words.next() else {
        return Err(LineFault::Syntax);
    };
    let Some(prompt) = object(&prompt, b'p') else {
        return Err(LineFault::Syntax);
    };
    read_outcome(prompt, &word, words)
}

/// The words of a setting behind its first origin.
#[derive(Drop)]
struct SettingWords<'a> {
    second: Option<WordSpan<'a>>,
    state: WordSpan<'a>,
    span: Option<(WordSpan<'a>, WordSpan<'a>)>,
}

/// The words behind the first origin: a second one or none, a state, and `for MS` or nothing.
fn setting_words<'a>(mut words: WordReader<'a>) -> Option<SettingWords<'a>>
    ensures { result ≡ option_and_then setting_words words.entry.words }
{
    let first = words.next()?;
    if words.is_done() {
        return Some(SettingWords {
            second: None,
            state: first,
            span: None,
        });
    }
    let second = words.next()?;
    if words.is_done() {
        return Some(SettingWords {
            second: Some(first),
            state: second,
            span: None,
        });
    }
    let third = words.next()?;
    if words.is_done() {
        return Some(SettingWords {
            second: None,
            state: first,
            span: Some((second, third)),
        });
    }
    let fourth = one(words)?;
    Some(SettingWords {
        second: Some(first),
        state: second,
        span: Some((third, fourth)),
    })
}

/// The span of `for MS`, in milliseconds, or none where nothing is said of it.
fn span_given(span: Option<(WordSpan<'_>, WordSpan<'_>)>) -> Option<Option<u64>>
    ensures { result ≡ span_given span.entry }
{
    match span {
        Some((keyword, ms)) => Some(Some(span_for(&keyword, &ms)?)),
        None => Some(None),
    }
}

/// The text of a word that may be there.
fn text_given<'a>(alloc: Global, word: Option<WordSpan<'a>>) -> Result<OptionalText<'a>, AllocError>
    ensures { IfOk result (λ text. text ≡ option_map (λ (w : Word). w.text) word.entry) }
{
    match word {
        Some(word) => Ok(OptionalText::of(word.text(alloc)?)),
        None => Ok(OptionalText::none()),
    }
}

/// What stands behind the feature of `set`.
fn read_setting<'a>(
    alloc: Global,
    feature: Text<'a>,
    mut words: WordReader<'a>,
) -> Result<Event<'a>, LineFault>
    ensures { Gives (option_and_then (read_setting feature.entry) words.entry.words) result }
{
    let Some(first) = words.next() else {
        return Err(LineFault::Syntax);
    };
    let Some(setting) = setting_words(words) else {
        return Err(LineFault::Syntax);
    };
    let Some(span) = span_given(setting.span) else {
        return Err(LineFault::Syntax);
    };
    let Some(state) = state(&setting.state) else {
        return Err(LineFault::Syntax);
    };
    let Ok(first) = first.text(alloc) else {
        return Err(LineFault::Memory);
    };
    let Ok(second) = text_given(alloc, setting.second) else {
        return Err(LineFault::Memory);
    };
    Ok(Event::SetState {
        feature,
        first,
        second,
        state,
        span,
    })
}

/// `set FEATURE ORIGIN STATE` or `set FEATURE ORIGIN ORIGIN STATE`, each with `for MS` or without.
pub fn read_set<'a>(alloc: Global, mut words: WordReader<'a>) -> Result<Event<'a>, LineFault>
    ensures { Gives (option_and_then read_set words.entry.words) result }
{
    let Some(feature) = words.next() else {
        return Err(LineFault::Syntax);
    };
    let Some(feature) = bare_text(&feature) else {
        return Err(LineFault::Syntax);
    };
    read_setting(alloc, feature, words)
}
