//! The keywords of a script line, and the bare words that they are.
ghost use Rattle.std.specs.Prelude.{◌≡◌, IfOk, bytes_eq, find, map, option_map};
ghost use Rattle.pe_script.specs.Numerals.{bare};
ghost use Rattle.pe_script.specs.Names.{is_keyword, named_in, input_kinds, states, attribute_names, keyword_in};
ghost use Rattle.pe_script.specs.Verbs.{lasting_outcomes, text_unless, verbs};
ghost use Rattle.pe_script.specs.Readers.{reader_of};

use pe_base::{InputKind, State};
use pe_events::{AttrName, Outcome};
use pe_lines::{OptionalText, Text, WordSpan};
use std::alloc::{AllocError, Global};

/// The kinds of input.
const INPUT_KINDS: [(&str, InputKind); 12] = [
    ("keydown", InputKind::Keydown),
    ("keydown-escape", InputKind::KeydownEscape),
    ("keydown-reserved", InputKind::KeydownReserved),
    ("mousedown", InputKind::Mousedown),
    ("mousemove", InputKind::Mousemove),
    ("pointerdown-mouse", InputKind::PointerdownMouse),
    ("pointerdown-pen", InputKind::PointerdownPen),
    ("pointerdown-touch", InputKind::PointerdownTouch),
    ("pointerup-mouse", InputKind::PointerupMouse),
    ("pointerup-pen", InputKind::PointerupPen),
    ("pointerup-touch", InputKind::PointerupTouch),
    ("touchend", InputKind::Touchend),
];

/// The permission states.
const STATES: [(&str, State); 3] = [
    ("granted", State::Granted),
    ("denied", State::Denied),
    ("prompt", State::Prompt),
];

/// The attributes of a frame.
const ATTRIBUTE_NAMES: [(&str, AttrName); 5] = [
    ("src", AttrName::Src),
    ("srcdoc", AttrName::Srcdoc),
    ("allow", AttrName::Allow),
    ("sandbox", AttrName::Sandbox),
    ("fullscreen", AttrName::Fullscreen),
];

/// The outcomes that have a life.
const LASTING_OUTCOMES: [(&str, Outcome); 2] = [
    ("allow", Outcome::Allow),
    ("block", Outcome::Block),
];

/// The verbs.
#[derive(Clone, Copy)]
pub enum Verb {
    /// A page is opened.
    Open,
    /// A frame is embedded.
    Embed,
    /// A frame is navigated.
    Nav,
    /// An attribute is set or removed.
    Attr,
    /// A frame is closed.
    Close,
    /// The user gives an input.
    Input,
    /// The activation is asked for.
    State,
    /// A history action is taken.
    History,
    /// It is asked whether a feature is allowed.
    Policy,
    /// The allowed features are asked for.
    Features,
    /// A call is made.
    Use,
    /// A permission is queried.
    Query,
    /// A status object is dropped.
    Drop,
    /// A permission is requested.
    Request,
    /// A prompt is answered.
    Answer,
    /// A permission is set.
    Set,
    /// A message is posted.
    Post,
    /// A message is delivered.
    Deliver,
    /// Time goes on.
    Tick,
}

/// The names of the verbs.
const VERBS: [(&str, Verb); 19] = [
    ("open", Verb::Open),
    ("embed", Verb::Embed),
    ("nav", Verb::Nav),
    ("attr", Verb::Attr),
    ("close", Verb::Close),
    ("input", Verb::Input),
    ("state", Verb::State),
    ("history", Verb::History),
    ("policy", Verb::Policy),
    ("features", Verb::Features),
    ("use", Verb::Use),
    ("query", Verb::Query),
    ("drop", Verb::Drop),
    ("request", Verb::Request),
    ("answer", Verb::Answer),
    ("set", Verb::Set),
    ("post", Verb::Post),
    ("deliver", Verb::Deliver),
    ("tick", Verb::Tick),
];

/// The text of a bare word.
pub fn bare_text<'a>(word: &WordSpan<'a>) -> Option<Text<'a>>
    ensures { result ≡ bare word.now }
{
    Some(Text::lent(word.bare()?))
}

/// Whether the word is bare and this keyword.
pub fn is_keyword(word: &WordSpan<'_>, keyword: &[u8]) -> bool
    ensures { result ≡ is_keyword keyword.now word.now }
{
    match word.bare() {
        Some(text) => text == keyword,
        None => false,
    }
}

/// The first row of this name, compared byte for byte.
fn row_named<T: Copy>(table: &[(&'static str, T)], name: &[u8]) -> Option<(&'static str, T)>
    ensures { result ≡ find (λ row. bytes_eq row.0.now name.now) table.now }
{
    table.iter().copied().find(|row| row.0.as_bytes() == name)
}

/// The value of the first row of this name.
pub fn named_in<T: Copy>(table: &[(&'static str, T)], name: &[u8]) -> Option<T>
    ensures { result ≡ named_in (map (λ row. (row.0.now, row.1)) table.now) name.now }
{
    match row_named(table, name) {
        Some(row) => Some(row.1),
        None => None,
    }
}

/// The state that a bare word names.
pub fn state(word: &WordSpan<'_>) -> Option<State>
    ensures { result ≡ keyword_in states word.now }
{
    named_in(&STATES, word.bare()?)
}

/// The kind of input that a bare word names.
pub fn input_kind(word: &WordSpan<'_>) -> Option<InputKind>
    ensures { result ≡ keyword_in input_kinds word.now }
{
    named_in(&INPUT_KINDS, word.bare()?)
}

/// The attribute that a bare word names.
pub fn attribute_name(word: &WordSpan<'_>) -> Option<AttrName>
    ensures { result ≡ keyword_in attribute_names word.now }
{
    named_in(&ATTRIBUTE_NAMES, word.bare()?)
}

/// The outcome with a life that a bare word names.
pub fn lasting_outcome(word: &WordSpan<'_>) -> Option<Outcome>
    ensures { result ≡ keyword_in lasting_outcomes word.now }
{
    named_in(&LASTING_OUTCOMES, word.bare()?)
}

/// The verb that a bare word names.
pub fn verb_named(word: &WordSpan<'_>) -> Option<Verb>
    ensures { option_map reader_of result ≡ keyword_in verbs word.now }
{
    named_in(&VERBS, word.bare()?)
}

/// The text of a word, or none for a bare keyword that stands for its absence. `AllocError` where
/// memory wants, which only an escape takes.
pub fn text_unless<'a>(
    alloc: Global,
    keyword: &[u8],
    word: &WordSpan<'a>,
) -> Result<OptionalText<'a>, AllocError>
    ensures { IfOk result (λ text. text ≡ text_unless keyword.now word.now) }
{
    if is_keyword(word, keyword) {
        return Ok(OptionalText::none());
    }
    let text = word.text(alloc)?;
    Ok(OptionalText::of(text))
}
