//! Cuts an input that comes in pieces into its lines.
ghost use Rattle.std.specs.Prelude.{◌≡◌, ◌+◌, ◌-◌, ◌≤◌, ◌++◌, [], length, take, drop, OnOk, OnErr, true, false};
ghost use Rattle.std.specs.Borrow.{sem};
ghost use Rattle.std.specs.Io.BufRead.{Rests};
ghost use Rattle.std.specs.List.{position};
ghost use Rattle.std.specs.Str.Lines.{strip_carriage_return};
ghost use Rattle.pe_lines.specs.Lines.{is_line_feed, HasNoLineFeed};

use memchr::memchr;
use pe_base::LINE_LIMIT;
use std::alloc::{AllocError, Global};
use std::marker::Model;

/// A line of the input, or that the line has over 16,384 bytes. The line feed that ended it and a
/// carriage return at its end are no part of it.
#[derive(Clone, Copy, Debug, PartialEq, Eq)]
pub enum Cut<'a> {
    /// The bytes of the line.
    Bytes(&'a [u8]),
    /// The line is too long, and its bytes are not kept.
    TooLong,
}

/// What a cutter found next.
#[derive(Clone, Copy, Debug, PartialEq, Eq)]
enum Found {
    /// No whole line is left.
    Nothing,
    /// A line that is too long.
    Overlong,
    /// A line, which stands from `start` to `end`.
    Line,
}

/// Cuts an input into its lines. Contracts see the rest of the input that it stands for: what was
/// fed and is in no line that was given. Of a line that is too long only this is kept.
#[derive(Debug, Drop)]
pub struct Cutter {
    /// What was fed, from some place on.
    held: Vec<u8>,
    /// Where the line that was found last begins.
    start: usize,
    /// Where it ends.
    end: usize,
    /// Where the rest begins.
    at: usize,
    /// No line feed stands between `at` and here.
    scanned: usize,
    /// The rest goes on with a line that is too long, whose front was let go.
    long: bool,
    /// The input ended.
    finished: bool,
}

impl Model for Cutter {
    ghost use Rattle.std.specs.Prelude.{drop, take, length, ◌++◌, ◌-◌};
    ghost use Rattle.pe_lines.specs.Rests.{Rest, IsInOrder, front_of};

    ghost Value = { Rest };

    ghost view = { λ c. record { bytes = front_of c.long ++ drop c.at c.held.items; finished = c.finished; kept = length c.held.items; line = take (c.end - c.start) (drop c.start c.held.items) } };

    ghost invariant = { λ c. IsInOrder c.held.items c.start c.end c.at c.scanned };
}

impl Cutter {
    ghost use Rattle.pe_lines.specs.Rests.{filler};
    ghost use Rattle.pe_lines.specs.Cutting.{IsNext, SameLines, Finds, found_of};
    ghost use Rattle.pe_lines.specs.contracts.cutter.Cutter.{the_row};

    /// A cutter that was fed nothing.
    pub fn new(alloc: Global) -> Cutter
        ensures bytes { result.bytes ≡ [] }
        ensures open { result.finished ≡ false }
        ensures kept { result.kept ≡ 0 }
    {
        Cutter {
            held: Vec::new(alloc),
            start: 0,
            end: 0,
            at: 0,
            scanned: 0,
            long: false,
            finished: false,
        }
    }

    /// Takes more input.
    pub fn feed(&mut self, piece: &[u8]) -> Result<(), AllocError>
        requires { self.old.finished ≡ false }
        ensures bytes { OnOk result (self.new.bytes ≡ self.old.bytes ++ piece.now) }
        ensures open { OnOk result (self.new.finished ≡ false) }
        ensures kept { OnOk result (self.new.kept ≡ self.old.kept + length piece.now) }
        ensures err { OnErr result (self.new ≡ self.old) }
    {
        self.held.extend_from_slice(piece)
    }

    /// Says that the input ended.
    pub fn finish(&mut self)
        ensures { self.new ≡ record self.old { finished = true } }
    {
        self.finished = true;
    }

    /// The next line; None where no whole line is left. A last line that no line feed ended is whole
    /// once the input ended. After None at most 16,385 bytes are kept.
    pub fn next_line(&mut self) -> Option<Cut<'_>>
        ensures* next { sem 𝓛 (Rests the_row self.entry (λ new. IsNext self.old new result)) }
    {
        match self.advance() {
            Found::Nothing => None,
            Found::Overlong => Some(Cut::TooLong),
            Found::Line => Some(Cut::Bytes(self.line())),
        }
    }

    /// How many bytes it holds.
    pub fn kept(&self) -> usize
        ensures { result ≡ self.now.kept }
    {
        self.held.len()
    }

    /// The line that was found last.
    fn line(&self) -> &[u8]
        ensures { result.now ≡ self.now.line }
    {
        &self.held[self.start..self.end]
    }

    /// Goes to the next line.
    fn advance(&mut self) -> Found
        ensures { Finds self.old self.new result }
    {
        match line_feed(&self.held, self.at, self.scanned) {
            Some(count) => {
                self.start = self.at;
                self.at = self.start + count + 1;
                self.scanned = self.at;
                self.end = line_end(&self.held, self.start, self.start + count);
                if self.long {
                    self.long = false;
                    return Found::Overlong;
                }
                self.found()
            }
            None => {
                if self.finished {
                    return self.last();
                }
                self.shrink();
                Found::Nothing
            }
        }
    }

    /// Goes to the last line, where no line feed is left.
    fn last(&mut self) -> Found
        requires finished { self.old.finished ≡ true }
        requires none { HasNoLineFeed self.old.bytes }
        ensures { Finds self.old self.new result }
    {
        if self.long {
            self.at = self.held.len();
            self.scanned = self.at;
            self.long = false;
            return Found::Overlong;
        }
        if self.at == self.held.len() {
            self.let_go();
            return Found::Nothing;
        }
        self.start = self.at;
        self.at = self.held.len();
        self.scanned = self.at;
        self.end = line_end(&self.held, self.start, self.at);
        self.found()
    }

    /// Whether the line that was found last is too long.
    fn found(&self) -> Found
        ensures { result ≡ found_of self.now.line }
    {
        if self.end - self.start > LINE_LIMIT {
            return Found::Overlong;
        }
        Found::Line
    }

    /// Lets go what was cut, and of a line that is too long all that is held.
    fn shrink(&mut self)
        requires { HasNoLineFeed self.old.bytes }
        ensures same { SameLines self.old.bytes self.new.bytes }
        ensures none { HasNoLineFeed self.new.bytes }
        ensures finished { self.new.finished ≡ self.old.finished }
        ensures few { self.new.kept ≤ 16385 }
    {
        let rest = self.held.len() - self.at;
        if self.long {
            self.forget();
            return;
        }
        if rest > LINE_LIMIT + 1 {
            self.forget();
            return;
        }
        self.held.rotate_left(self.at);
        self.held.truncate(rest);
        self.start = 0;
        self.end = 0;
        self.at = 0;
        self.scanned = rest;
    }

    /// Lets go all that is held, and keeps that it is the front of a line that is too long.
    fn forget(&mut self)
        ensures bytes { self.new.bytes ≡ filler }
        ensures finished { self.new.finished ≡ self.old.finished }
        ensures kept { self.new.kept ≡ 0 }
    {
        self.let_go();
        self.long = true;
    }

    /// Lets go all that is held.
    fn let_go(&mut self)
        ensures bytes { self.new.bytes ≡ [] }
        ensures finished { self.new.finished ≡ self.old.finished }
        ensures kept { self.new.kept ≡ 0 }
    {
        self.held.clear();
        self.start = 0;
        self.end = 0;
        self.at = 0;
        self.scanned = 0;
        self.long = false;
    }
}

/// How many bytes stand from `at` on before the first line feed. None stands before `scanned`.
fn line_feed(held: &[u8], at: usize, scanned: usize) -> Option<usize>
    requires ordered { at ≤ scanned }
    requires within { scanned ≤ length held.now }
    requires none { HasNoLineFeed (take (scanned - at) (drop at held.now)) }
    ensures { result ≡ position is_line_feed (drop at held.now) }
{
    match first_line_feed(&held[scanned..]) {
        Some(count) => Some(scanned - at + count),
        None => None,
    }
}

/// The place of the first line feed.
#[tactic(auto, using(crate::proofs::FirstBytes::first_feed))]
fn first_line_feed(bytes: &[u8]) -> Option<usize>
    ensures { result ≡ position is_line_feed bytes.now }
{
    memchr(b'\n', bytes)
}

/// Where the line of a part between line feeds ends.
fn line_end(held: &[u8], start: usize, end: usize) -> usize
    requires ordered { start ≤ end }
    requires within { end ≤ length held.now }
    ensures ordered { start ≤ result }
    ensures within { result ≤ end }
    ensures line { take (result - start) (drop start held.now) ≡ strip_carriage_return (take (end - start) (drop start held.now)) }
{
    match &held[start..end] {
        [line @ .., b'\r'] => start + line.len(),
        line => start + line.len(),
    }
}
