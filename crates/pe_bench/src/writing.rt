//! Writing the lines of answers and of changes.
use pe_base::{
    Bytes, Denial, DocNo, FrameNo, LinkRule, MessageNo, Millis, PromptNo, State, StatusNo,
};
use pe_events::{Answer, Cause, Change, Reason, put_answer, put_change};
use pe_origin::{HostForm, Origin, Scheme, Tuple};
use std::alloc::{AllocError, Global};

/// The number of the first line that is answered; the next have the next numbers.
const FIRST: u64 = 100_000;

/// The number of each object.
const NUMBER: u32 = 50_000;

/// An answer or a change, whose line is to be written.
#[derive(Drop)]
pub enum Output {
    Answer(Answer),
    Change(Change),
}

/// The origin `https://b.example`.
fn origin(alloc: Global) -> Result<Origin, AllocError> {
    Ok(Origin::Tuple(Tuple {
        scheme: Scheme::Https,
        host: Bytes::copy_of(alloc, b"b.example")?,
        form: HostForm::Domain,
        port: 443,
    }))
}

/// The answer of this name to a line that loads a document.
fn document_answer(alloc: Global, name: &str) -> Result<Option<Answer>, AllocError> {
    let frame = FrameNo::of(NUMBER);
    let doc = DocNo::of(NUMBER);
    if name == "frame" {
        let origin = origin(alloc)?;
        return Ok(Some(Answer::FrameMade { frame, doc, origin }));
    }
    if name == "frame-opaque" {
        let origin = Origin::Opaque(doc);
        return Ok(Some(Answer::FrameMade { frame, doc, origin }));
    }
    if name == "doc" {
        let origin = origin(alloc)?;
        return Ok(Some(Answer::DocMade { doc, origin }));
    }
    Ok(None)
}

/// The denial by a document's own header.
fn own_header() -> Reason {
    Reason::Policy(Denial {
        rule: LinkRule::OwnHeader,
        at: DocNo::of(NUMBER),
    })
}

/// The other answers, each with its name.
fn answers() -> [(&'static str, Answer); 20] {
    let state = State::Granted;
    let count = 256;
    let prompt = PromptNo::of(NUMBER);
    let status = StatusNo::of(NUMBER);
    let message = MessageNo::of(NUMBER);
    [
        ("ok", Answer::Done),
        ("activated", Answer::Activated { count }),
        ("ignored", Answer::Ignored),
        (
            "activity",
            Answer::Activity {
                sticky: true,
                transient: false,
            },
        ),
        ("allowed", Answer::Allowed),
        (
            "denied",
            Answer::Denied {
                reason: Reason::NoTransient,
            },
        ),
        (
            "denied-policy",
            Answer::Denied {
                reason: own_header(),
            },
        ),
        (
            "features",
            Answer::Names {
                allowed: [true; 16],
            },
        ),
        (
            "no-features",
            Answer::Names {
                allowed: [false; 16],
            },
        ),
        ("status", Answer::StatusMade { status, state }),
        ("state", Answer::Stated { state }),
        ("prompt", Answer::PromptMade { prompt }),
        ("joined", Answer::PromptJoined { prompt }),
        ("settled", Answer::Settled { count, state }),
        ("message", Answer::MessageMade { message }),
        ("delivered", Answer::Delivered),
        ("dropped-gone", Answer::DroppedGone),
        ("dropped-other", Answer::DroppedOther),
        (
            "refused",
            Answer::Refused {
                cause: Cause::Unknown,
            },
        ),
        (
            "refused-last",
            Answer::Refused {
                cause: Cause::LimitStore,
            },
        ),
    ]
}

/// The answer of this name.
fn answer_named(alloc: Global, name: &str) -> Result<Option<Answer>, AllocError> {
    for (other, answer) in answers() {
        if other == name {
            return Ok(Some(answer));
        }
    }
    document_answer(alloc, name)
}

/// The change of a status.
fn change() -> Change {
    Change {
        time: Millis::of(u64::from(NUMBER)),
        status: StatusNo::of(NUMBER),
        state: State::Granted,
    }
}

/// The answer of this name, or the change.
pub fn output_named(alloc: Global, name: &str) -> Result<Option<Output>, AllocError> {
    if name == "change" {
        return Ok(Some(Output::Change(change())));
    }
    match answer_named(alloc, name)? {
        Some(answer) => Ok(Some(Output::Answer(answer))),
        None => Ok(None),
    }
}

/// Puts the line behind the text.
fn put_output(number: u64, output: &Output, text: &mut Vec<u8>) -> Result<(), AllocError> {
    match output {
        Output::Answer(answer) => put_answer(number, answer, text),
        Output::Change(change) => put_change(change, text),
    }
}

/// How many bytes are written where the line is written so many times, each time behind an emptied text.
pub fn bytes_written(alloc: Global, output: &Output, count: u64) -> Result<u64, AllocError> {
    let mut text = Vec::new(alloc);
    let mut bytes = 0u64;
    for step in 0..count {
        text.clear();
        put_output(FIRST.saturating_add(step), output, &mut text)?;
        bytes = bytes.saturating_add(text.len() as u64);
    }
    Ok(bytes)
}
