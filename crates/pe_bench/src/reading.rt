//! Reading lines of a script.
use pe_events::Event;
use pe_script::{LineFault, read_event};
use std::alloc::{AllocError, Global};

/// How many bytes a long line has at most.
const LONG: usize = 16_000;

/// A line: a head, a part that stands again and again up to a length, and a tail.
#[derive(Clone, Copy)]
pub struct Line {
    head: &'static [u8],
    part: &'static [u8],
    tail: &'static [u8],
}

impl Line {
    /// The bytes of the line.
    fn bytes(self, alloc: Global) -> Result<Vec<u8>, AllocError> {
        let room = LONG.saturating_sub(self.head.len().saturating_add(self.tail.len()));
        let times = if self.part.is_empty() {
            0
        } else {
            room / self.part.len()
        };
        let mut line = Vec::new(alloc);
        line.extend_from_slice(self.head)?;
        for _ in 0..times {
            line.extend_from_slice(self.part)?;
        }
        line.extend_from_slice(self.tail)?;
        Ok(line)
    }
}

/// Lines of usual length by name: one for each verb, and some with other words.
const LINES: [(&str, &[u8]); 26] = [
    ("open", b"0 open https://a.example/"),
    ("embed", b"0 embed f1 https://b.example/"),
    ("nav", b"50000 nav f2 https://b7.example/"),
    ("attr", b"50000 attr f2 allow \"camera; geolocation\""),
    ("close", b"50000 close f50001"),
    ("input", b"50000 input f1 mousedown"),
    ("state", b"50000 state f1"),
    ("history", b"50000 history f1"),
    ("policy", b"50000 policy f2 camera"),
    ("features", b"50000 features f2"),
    ("use", b"50000 use f1 get-position"),
    ("query", b"50000 query f1 camera"),
    ("drop", b"50000 drop s50000"),
    ("request", b"50000 request f1 camera"),
    ("answer", b"50000 answer p50000 allow for 1"),
    ("set", b"50000 set camera https://a.example granted"),
    ("post", b"50000 post f1 f2 https://b.example payment"),
    ("deliver", b"50000 deliver m50000"),
    ("tick", b"50000 tick"),
    (
        "embed-options",
        b"0 embed f1 https://b.example/ at https://b.example/login allow \"camera; geolocation\" \
sandbox \"allow-scripts allow-same-origin\" fullscreen header \"camera=(self)\"",
    ),
    (
        "embed-srcdoc",
        b"0 embed f1 https://b.example/ srcdoc allow \"camera; geolocation\" \
sandbox \"allow-scripts allow-same-origin\" fullscreen",
    ),
    (
        "open-headers",
        b"0 open https://a.example/ header \"camera=(self)\" header \"geolocation=()\"",
    ),
    (
        "quotes",
        b"0 open \"https://a.example/500000\" header \"camera=(self), geolocation=*\"",
    ),
    (
        "escapes",
        b"0 open \"https://a.example/\\\"q500000\\\"\" header \"camera=(self \\\"https://b.example\\\"), \
x=\\\"\\\\\\\\\\\"\"",
    ),
    (
        "comment",
        b"# a comment line of some length, which says nothing at all to anyone, x0500000",
    ),
    (
        "refused",
        b"0 fly f500000 to https://a.example/ with some more words behind it here",
    ),
];

/// Long lines by name: the head, the part and the tail of each.
const LONG_LINES: [(&str, &[u8], &[u8], &[u8]); 5] = [
    ("long-text", b"0 nav f1 https://b.example/", b"x", b""),
    ("long-quotes", b"0 nav f1 \"https://b.example/", b"x", b"\""),
    ("long-escapes", b"0 nav f1 \"", b"\\\"", b"\""),
    (
        "long-headers",
        b"0 nav f1 https://b.example/",
        b" header x",
        b"",
    ),
    ("long-refused", b"0 tick", b" x", b""),
];

/// The line of usual length of this name.
fn short_line(name: &str) -> Option<Line> {
    let row = LINES.iter().copied().find(|row| row.0 == name)?;
    Some(Line {
        head: row.1,
        part: b"",
        tail: b"",
    })
}

/// The long line of this name.
fn long_line(name: &str) -> Option<Line> {
    let row = LONG_LINES.iter().copied().find(|row| row.0 == name)?;
    Some(Line {
        head: row.1,
        part: row.2,
        tail: row.3,
    })
}

/// The line of this name.
pub fn line_named(name: &str) -> Option<Line> {
    match short_line(name) {
        Some(line) => Some(line),
        None => long_line(name),
    }
}

/// What was read.
#[derive(Clone, Copy)]
pub struct Reading {
    /// How many events.
    pub events: u64,
    /// The sum of their times, and of the numbers that each names first.
    pub numbers: u64,
}

/// The number of the object that an event names first; 0 where it names none.
fn number_of(event: &Event<'_>) -> u32 {
    match event {
        Event::OpenPage { .. } => 0,
        Event::Embed { parent, .. } => *parent,
        Event::Navigate { frame, .. } => *frame,
        Event::Attr { frame, .. } => *frame,
        Event::Close { frame } => *frame,
        Event::Input { frame, .. } => *frame,
        Event::Ask { frame } => *frame,
        Event::History { frame } => *frame,
        Event::PolicyOf { frame, .. } => *frame,
        Event::Features { frame } => *frame,
        Event::UseCall { frame, .. } => *frame,
        Event::Query { frame, .. } => *frame,
        Event::DropStatus { status } => *status,
        Event::Request { frame, .. } => *frame,
        Event::Answered { prompt, .. } => *prompt,
        Event::SetState { .. } => 0,
        Event::Post { sender, .. } => *sender,
        Event::Deliver { message } => *message,
        Event::Tick => 0,
    }
}

/// The time of the event that a line says, and the number that it names; None where it says none.
fn number_read(alloc: Global, line: &[u8]) -> Result<Option<u64>, AllocError> {
    match read_event(alloc, line) {
        Ok(Some(stamped)) => {
            let number = u64::from(number_of(&stamped.event));
            Ok(Some(stamped.time.saturating_add(number)))
        }
        Ok(None) => Ok(None),
        Err(LineFault::Memory) => Err(AllocError),
        Err(_) => Ok(None),
    }
}

/// Reads a line so many times.
pub fn lines_read(alloc: Global, line: Line, count: u64) -> Result<Reading, AllocError> {
    let line = line.bytes(alloc)?;
    let mut events = 0u64;
    let mut numbers = 0u64;
    for _ in 0..count {
        if let Some(number) = number_read(alloc, &line)? {
            events = events.saturating_add(1);
            numbers = numbers.saturating_add(number);
        }
    }
    Ok(Reading { events, numbers })
}
