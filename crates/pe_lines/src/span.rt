//! The words of a line where they stand, read one after another.
ghost use Rattle.std.specs.Prelude.{◌≡◌, ◌<◌, ◌≤◌, ◌↔◌, ◌⊎◌, ◌∷◌, [], Some, None, IfOk, IfSome, IfNone, IsTrue, MatchOption, if◌then◌else◌, length, drop, slice_index, true, false, All, ℕ, List, option_map};
ghost use Rattle.std.specs.List.{position, position_or_len};
ghost use Rattle.std.specs.Option.{option_copied};
ghost use Rattle.pe_lines.specs.Words.{Word, is_blank, is_bad_byte, has_bad_byte, words_of, words_from};
ghost use Rattle.pe_lines.specs.Grammar.{ends_bare, ends_word, is_escaped};
ghost use Rattle.pe_lines.specs.Steps.{IsWordAt, HasNoWords, begins_escape, begins_quote, ClosesAfter, NeverCloses, IsFirstEscape, without_escapes};

use crate::text::Text;
use memchr::{memchr, memchr2, memchr3};
use std::alloc::{AllocError, Global};
use std::marker::Model;

/// A word where it stands in a line, seen by contracts as the word.
#[derive(Drop)]
pub struct WordSpan<'a> {
    /// The bytes of the word in the line; of a quoted word those between its quotes.
    raw: &'a [u8],
    /// Whether it stands in quotes.
    quoted: bool,
    /// The place after its last byte.
    end: usize,
}

impl<'a> Model for WordSpan<'a> {
    ghost use Rattle.std.specs.Prelude.{◌-◌, length};
    ghost use Rattle.pe_lines.specs.Words.{Word};
    ghost use Rattle.pe_lines.specs.Steps.{text_of, width_of};

    ghost Value = { Word };

    ghost view = { λ s. record { text = text_of s.quoted s.raw.now; quoted = s.quoted; start = s.end - width_of s.quoted (length s.raw.now); end = s.end } };
}

impl<'a> WordSpan<'a> {
    /// The text of a bare word.
    pub fn bare(&self) -> Option<&'a [u8]>
        ensures { option_copied result ≡ if self.now.quoted then None else Some self.now.text }
    {
        if self.quoted {
            return None;
        }
        Some(self.raw)
    }

    /// The text of the word, which borrows the line where no escape is undone.
    pub fn text(&self, alloc: Global) -> Result<Text<'a>, AllocError>
        ensures { IfOk result (λ text. text ≡ self.now.text) }
    {
        if self.quoted {
            return quoted_text(alloc, self.raw);
        }
        Ok(Text::lent(self.raw))
    }

    /// The place after its last byte.
    fn end(&self) -> usize
        ensures { result ≡ self.now.end }
    {
        self.end
    }
}

/// The words of a line that are still to be read. Contracts see them, or that what is left is no list of
/// words, and how many bytes are left.
///
/// A bare word is a run of bytes other than blanks and `"`. A quoted word is `"`, then any bytes in
/// which `\"` stands for `"` and `\\` for `\`, then `"`. Behind a word stands a blank or the end.
#[derive(Drop)]
pub struct WordReader<'a> {
    line: &'a [u8],
    at: usize,
}

impl<'a> Model for WordReader<'a> {
    ghost use Rattle.std.specs.Prelude.{◌≤◌, ◌-◌, drop, length};
    ghost use Rattle.pe_lines.specs.Words.{WordsLeft, words_from};

    ghost Value = { WordsLeft };

    ghost view = { λ r. record { words = words_from r.at (drop r.at r.line.now); bytes = length r.line.now - r.at } };

    ghost invariant = { λ r. r.at ≤ length r.line.now };
}

impl<'a> WordReader<'a> {
    /// Reads a line without a bad byte; None where the line has one.
    #[tactic(auto, using(crate::proofs::PlainTexts::plain_words), unfolding(crate::specs::Words::words_of))]
    pub fn of(line: &'a [u8]) -> Option<WordReader<'a>>
        ensures words { IfSome result (λ reader. reader.words ≡ words_of line.now) }
        ensures plain { IfSome result (λ reader. (words : List Word) → words_of line.now ≡ Some words → All (λ word. has_bad_byte word.text ≡ false) words) }
        ensures good { IfSome result (λ reader. has_bad_byte line.now ≡ false) }
        ensures bad_byte { IfNone result (has_bad_byte line.now ≡ true) }
    {
        if has_bad_byte(line) {
            return None;
        }
        Some(WordReader { line, at: 0 })
    }

    /// Takes the next word. None at the end, and where what comes next is no word; both leave the reader
    /// as it is.
    pub fn next(&mut self) -> Option<WordSpan<'a>>
        ensures none { IfNone result ((self.old.words ≡ None) ⊎ (self.old.words ≡ Some [])) }
        ensures same { IfNone result (self.new ≡ self.old) }
        ensures word { IfSome result (λ word. self.old.words ≡ option_map (λ words. word ∷ words) self.new.words) }
        ensures further { IfSome result (λ word. self.new.bytes < self.old.bytes) }
    {
        let start = first_not_blank(self.line, self.at);
        if start == self.line.len() {
            return None;
        }
        let span = span_at(self.line, start)?;
        self.at = span.end();
        Some(span)
    }

    /// Whether no word is left.
    pub fn is_done(&self) -> bool
        ensures { IsTrue result ↔ (self.now.words ≡ Some []) }
    {
        first_not_blank(self.line, self.at) == self.line.len()
    }
}

/// Whether the byte is a space or a tab.
fn is_blank(byte: u8) -> bool
    ensures { result ≡ is_blank byte }
{
    byte == b' ' || byte == b'\t'
}

/// Whether a line may not have the byte.
fn is_bad_byte(byte: u8) -> bool
    ensures { result ≡ is_bad_byte byte }
{
    byte != b'\t' && (byte < b' ' || byte > b'~')
}

/// Whether some byte of the line is a bad one.
#[tactic(auto, unfolding(crate::specs::Words::has_bad_byte))]
pub fn has_bad_byte(line: &[u8]) -> bool
    ensures { result ≡ has_bad_byte line.now }
{
    let mut is_bad = false;
    for byte in line {
        is_bad |= is_bad_byte(*byte);
    }
    is_bad
}

/// Whether a word may end in front of these bytes.
fn ends_word(rest: &[u8]) -> bool
    ensures { result ≡ ends_word rest.now }
{
    match rest {
        [] => true,
        [byte, ..] => is_blank(*byte),
    }
}

/// The place of the first blank or quote.
#[tactic(auto, using(crate::proofs::FirstBytes::first_bare_end))]
fn bare_end(bytes: &[u8]) -> Option<usize>
    ensures { result ≡ position ends_bare bytes.now }
{
    memchr3(b' ', b'\t', b'"', bytes)
}

/// How many bytes stand before the first blank or quote.
fn bare_len(bytes: &[u8]) -> usize
    ensures len { result ≡ position_or_len ends_bare bytes.now }
    ensures within { result ≤ length bytes.now }
{
    match bare_end(bytes) {
        Some(len) => len,
        None => bytes.len(),
    }
}

/// The first place from here on that is no blank; the end where there is none.
fn first_not_blank(line: &[u8], from: usize) -> usize
    requires { from ≤ length line.now }
    ensures later { from ≤ result }
    ensures within { result ≤ length line.now }
    ensures same { words_from result (drop result line.now) ≡ words_from from (drop from line.now) }
    ensures here { result < length line.now → is_blank (slice_index line.now result) ≡ false }
{
    let mut at = from;
    while at < line.len() {
        if !is_blank(line[at]) {
            return at;
        }
        at += 1;
    }
    at
}

/// The bare word that begins here.
fn bare_span<'a>(line: &'a [u8], start: usize) -> Option<WordSpan<'a>>
    requires within { start < length line.now }
    requires bare { ends_bare (slice_index line.now start) ≡ false }
    ensures word { IfSome result (λ word. IsWordAt line.now start word) }
    ensures none { IfNone result (HasNoWords line.now start) }
{
    let end = start + bare_len(&line[start..]);
    if !ends_word(&line[end..]) {
        return None;
    }
    Some(WordSpan {
        raw: &line[start..end],
        quoted: false,
        end,
    })
}

/// Whether the byte has a backslash in front where it stands in quotes.
fn is_escaped(byte: u8) -> bool
    ensures { result ≡ is_escaped byte }
{
    byte == b'"' || byte == b'\\'
}

/// The place of the first quote or backslash.
#[tactic(auto, using(crate::proofs::FirstBytes::first_escaped))]
fn plain_end(bytes: &[u8]) -> Option<usize>
    ensures { result ≡ position is_escaped bytes.now }
{
    memchr2(b'"', b'\\', bytes)
}

/// How many bytes stand before the first quote or backslash.
fn plain_len(bytes: &[u8]) -> usize
    ensures len { result ≡ position_or_len is_escaped bytes.now }
    ensures within { result ≤ length bytes.now }
{
    match plain_end(bytes) {
        Some(len) => len,
        None => bytes.len(),
    }
}

/// Whether a backslash comes first, and what it escapes.
fn begins_escape(rest: &[u8]) -> bool
    ensures { result ≡ begins_escape rest.now }
{
    match rest {
        [byte, next, ..] => *byte == b'\\' && is_escaped(*next),
        _ => false,
    }
}

/// Whether a quote comes first.
fn begins_quote(rest: &[u8]) -> bool
    ensures { result ≡ begins_quote rest.now }
{
    match rest {
        [] => false,
        [byte, ..] => *byte == b'"',
    }
}

/// How many bytes stand before the closing quote.
fn quoted_len(bytes: &[u8]) -> Option<usize>
    ensures closes { IfSome result (ClosesAfter bytes.now) }
    ensures never { IfNone result (NeverCloses bytes.now) }
{
    let mut at = plain_len(bytes);
    while begins_escape(&bytes[at..]) {
        at += 2;
        at += plain_len(&bytes[at..]);
    }
    if begins_quote(&bytes[at..]) {
        return Some(at);
    }
    None
}

/// The place of the first backslash that a byte stands behind.
fn next_escape(bytes: &[u8]) -> Option<usize>
    ensures first { IfSome result (IsFirstEscape bytes.now) }
    ensures none { IfNone result (without_escapes bytes.now ≡ bytes.now) }
{
    let place = memchr(b'\\', bytes)?;
    if place + 1 == bytes.len() {
        return None;
    }
    Some(place)
}

/// The bytes with each escape undone.
fn without_escapes(alloc: Global, bytes: &[u8]) -> Result<Vec<u8>, AllocError>
    ensures { IfOk result (λ out. out.items ≡ without_escapes bytes.now) }
{
    let mut out = Vec::with_capacity(alloc, bytes.len())?;
    let mut rest = bytes;
    while let Some(place) = next_escape(rest) {
        out.extend_from_slice(&rest[..place])?;
        out.push(rest[place + 1])?;
        rest = &rest[place + 2..];
    }
    out.extend_from_slice(rest)?;
    Ok(out)
}

/// The text that stands in quotes, which borrows the line where nothing is escaped.
fn quoted_text<'a>(alloc: Global, bytes: &'a [u8]) -> Result<Text<'a>, AllocError>
    ensures { IfOk result (λ text. text ≡ without_escapes bytes.now) }
{
    if bytes.contains(&b'\\') {
        let out = without_escapes(alloc, bytes)?;
        return Ok(Text::of(Box::new(alloc, out)?));
    }
    Ok(Text::lent(bytes))
}

/// The quoted word that begins here.
fn quoted_span<'a>(line: &'a [u8], start: usize) -> Option<WordSpan<'a>>
    requires within { start < length line.now }
    requires quote { slice_index line.now start ≡ 34 }
    ensures word { IfSome result (λ word. IsWordAt line.now start word) }
    ensures none { IfNone result (HasNoWords line.now start) }
{
    let len = quoted_len(&line[start + 1..])?;
    let close = start + 1 + len;
    if !ends_word(&line[close + 1..]) {
        return None;
    }
    Some(WordSpan {
        raw: &line[start + 1..close],
        quoted: true,
        end: close + 1,
    })
}

/// The word that begins here.
fn span_at<'a>(line: &'a [u8], start: usize) -> Option<WordSpan<'a>>
    requires within { start < length line.now }
    requires word { is_blank (slice_index line.now start) ≡ false }
    ensures word { IfSome result (λ word. IsWordAt line.now start word) }
    ensures none { IfNone result (HasNoWords line.now start) }
{
    if line[start] == b'"' {
        return quoted_span(line, start);
    }
    bare_span(line, start)
}
