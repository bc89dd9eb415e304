//! The options of a script line: each a name, and a text behind most.
ghost use Rattle.std.specs.Prelude.{◌≡◌, ◌≤◌, ◌∷◌, IfOk, Some, None, option_and_then, option_map, is_some, true, false, not};
ghost use Rattle.pe_script.specs.Names.{keyword_in};
ghost use Rattle.pe_script.specs.Verbs.{option_names, header_behind, no_options, options, headers, only_header, embedding};
ghost use Rattle.pe_script.specs.Answering.{Gives};
ghost use Rattle.pe_script.specs.OptionSteps.{options_left, if_taken, told_name, with_option};

use crate::names::{is_keyword, named_in};
use crate::reading::LineFault;
use pe_events::Event;
use pe_lines::{OptionalText, Text, WordReader, WordSpan};
use std::alloc::{AllocError, Global};
use std::marker::Model;
use std::mem::replace;

/// The options that take a text.
#[derive(Clone, Copy)]
enum OptionName {
    /// The URL of the document, where that is not `src`.
    At,
    /// The attribute `allow`.
    Allow,
    /// The attribute `sandbox`.
    Sandbox,
    /// A header line of the response.
    Header,
}

/// The names of the options that take a text.
const OPTION_NAMES: [(&str, OptionName); 4] = [
    ("at", OptionName::At),
    ("allow", OptionName::Allow),
    ("sandbox", OptionName::Sandbox),
    ("header", OptionName::Header),
];

/// The options that were given so far, each with its text.
#[derive(Drop)]
pub struct Options<'a> {
    place: OptionalText<'a>,
    allow: OptionalText<'a>,
    sandbox: OptionalText<'a>,
    fullscreen: bool,
    srcdoc: bool,
    header: OptionalText<'a>,
}

impl<'a> Model for Options<'a> {
    ghost use Rattle.std.specs.Prelude.{None};
    ghost use Rattle.pe_script.specs.Verbs.{Options};

    ghost Value = { Options };

    ghost view = { λ o. record { place = o.place; allow = o.allow; sandbox = o.sandbox; fullscreen = o.fullscreen; srcdoc = o.srcdoc; header = o.header; waiting = None } };
}

/// The option that a bare word names.
fn option_name(word: &WordSpan<'_>) -> Option<OptionName>
    ensures { option_map told_name result ≡ keyword_in option_names word.now }
{
    named_in(&OPTION_NAMES, word.bare()?)
}

/// Sets a flag, unless it is set already; answers whether it was not.
fn set_once(flag: &mut bool) -> bool
    ensures set { flag.new ≡ true }
    ensures once { result ≡ not flag.old }
{
    let is_first = !*flag;
    *flag = true;
    is_first
}

/// Puts a text into its place, unless one is there; answers whether none was.
fn put_once<'a>(place: &mut OptionalText<'a>, text: Text<'a>) -> bool
    ensures first { place.old ≡ None → (result ≡ true) × (place.new ≡ Some text.entry) }
    ensures second { is_some place.old ≡ true → (result ≡ false) × (place.new ≡ place.old) }
{
    if place.is_some() {
        return false;
    }
    *place = OptionalText::of(text);
    true
}

/// The header with one more line behind it. `AllocError` where memory wants, which the first takes none of.
fn header_behind<'a>(
    alloc: Global,
    header: OptionalText<'a>,
    text: Text<'a>,
) -> Result<OptionalText<'a>, AllocError>
    ensures { IfOk result (λ joined. joined ≡ header_behind header.entry text.entry) }
{
    match header.into_text() {
        None => Ok(OptionalText::of(text)),
        Some(before) => {
            let joined = Text::joined(alloc, before, b", ", text.as_slice())?;
            Ok(OptionalText::of(joined))
        }
    }
}

impl<'a> Options<'a> {
    /// No options.
    fn none() -> Options<'a>
        ensures { result ≡ no_options }
    {
        Options {
            place: OptionalText::none(),
            allow: OptionalText::none(),
            sandbox: OptionalText::none(),
            fullscreen: false,
            srcdoc: false,
            header: OptionalText::none(),
        }
    }

    /// Takes the text of an option; answers whether it may stand here.
    fn put(&mut self, alloc: Global, option: OptionName, text: Text<'a>) -> Result<bool, AllocError>
        ensures { IfOk result (λ taken. with_option option text.entry self.old ≡ if_taken taken self.new) }
    {
        match option {
            OptionName::At => Ok(put_once(&mut self.place, text)),
            OptionName::Allow => Ok(put_once(&mut self.allow, text)),
            OptionName::Sandbox => Ok(put_once(&mut self.sandbox, text)),
            OptionName::Header => {
                self.header = header_behind(
                    alloc,
                    replace(&mut self.header, OptionalText::none()),
                    text,
                )?;
                Ok(true)
            }
        }
    }

    /// Takes the option of this name, with its text from the words behind it; answers whether it may
    /// stand here.
    fn read_option(
        &mut self,
        alloc: Global,
        name: &WordSpan<'_>,
        words: &mut WordReader<'a>,
    ) -> Result<bool, AllocError>
        ensures taken { IfOk result (λ taken.
            options_left (Some self.old) (option_map (λ more. name.now ∷ more) words.old.words) ≡ options_left (if_taken taken self.new) words.new.words) }
        ensures fewer { words.new.bytes ≤ words.old.bytes }
    {
        if is_keyword(name, b"fullscreen") {
            return Ok(set_once(&mut self.fullscreen));
        }
        if is_keyword(name, b"srcdoc") {
            return Ok(set_once(&mut self.srcdoc));
        }
        let Some(option) = option_name(name) else {
            return Ok(false);
        };
        let Some(text) = words.next() else {
            return Ok(false);
        };
        let text = text.text(alloc)?;
        self.put(alloc, option, text)
    }

    /// The header, where nothing else stands among the options.
    pub fn only_header(self) -> Option<OptionalText<'a>>
        ensures { result ≡ only_header self.entry }
    {
        if self.place.is_some() || self.allow.is_some() || self.sandbox.is_some() {
            return None;
        }
        if self.fullscreen || self.srcdoc {
            return None;
        }
        Some(self.header)
    }

    /// The embedding of a source, or of none, in the document of a frame, where the options go together:
    /// a place goes with a source and without `srcdoc`, and a header without `srcdoc`.
    pub fn embedding(self, parent: u32, src: OptionalText<'a>) -> Result<Event<'a>, LineFault>
        ensures { Gives (embedding parent src.entry self.entry) result }
    {
        if self.place.is_some() && (!src.is_some() || self.srcdoc) {
            return Err(LineFault::Syntax);
        }
        if self.header.is_some() && self.srcdoc {
            return Err(LineFault::Syntax);
        }
        Ok(Event::Embed {
            parent,
            src,
            place: self.place,
            allow: self.allow,
            sandbox: self.sandbox,
            fullscreen: self.fullscreen,
            srcdoc: self.srcdoc,
            header: self.header,
        })
    }
}

/// The options that the words give, in any order; `Syntax` where one is unknown, has no text, or stands
/// twice. `Memory` is taken only for escapes and several headers.
pub fn read_options<'a>(alloc: Global, mut words: WordReader<'a>) -> Result<Options<'a>, LineFault>
    ensures { Gives (option_and_then options words.entry.words) result }
{
    let mut given = Options::none();
    while let Some(name) = words.next() {
        let Ok(taken) = given.read_option(alloc, &name, &mut words) else {
            return Err(LineFault::Memory);
        };
        if !taken {
            return Err(LineFault::Syntax);
        }
    }
    if !words.is_done() {
        return Err(LineFault::Syntax);
    }
    Ok(given)
}

/// The header that any number of `header TEXT` give, and none where there are none; `Syntax` where other
/// words stand among them. `Memory` is taken only for escapes and several headers.
pub fn read_headers<'a>(alloc: Global, words: WordReader<'a>) -> Result<OptionalText<'a>, LineFault>
    ensures { Gives (option_and_then headers words.entry.words) result }
{
    let given = read_options(alloc, words)?;
    let Some(header) = given.only_header() else {
        return Err(LineFault::Syntax);
    };
    Ok(header)
}
