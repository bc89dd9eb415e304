//! An example of the engine as a library: a shop's page with the frame of its payment service, told by calls and
//! no text of a script, and what the frame may do before an input, after it, and five seconds later.
#![tactic(auto)]

ghost use Rattle.std.specs.Prelude.{IsTrue};
ghost use Rattle.pe_events.specs.Fitting.{is_fitting, is_text};

mod browser;

use browser::{may, tell, text};
use pe_base::{FrameNo, InputKind, Millis, PromptNo};
use pe_engine::{Engine, Replies};
use pe_events::{Answer, Event, EventLife, Outcome, Reason, Verdict, Via};
use pe_features::Call;
use pe_lines::{OptionalText, Text};
use std::alloc::AllocError;
use std::io;

/// The frame that an event made; None where it made none, as where it was refused.
fn frame_made(replies: &Replies) -> Option<FrameNo> {
    match &replies.answer {
        Answer::FrameMade { frame, .. } => Some(*frame),
        _ => None,
    }
}

/// Opens a page.
fn open(engine: &mut Engine, now: Millis, url: &[u8]) -> Result<Option<FrameNo>, AllocError> {
    let Some(url) = text(url) else {
        return Ok(None);
    };
    let replies = tell(
        engine,
        now,
        Event::OpenPage {
            url,
            header: OptionalText::none(),
        },
    )?;
    Ok(frame_made(&replies))
}

/// Embeds a frame, with an `allow` attribute, in the document of another.
fn embed<'a>(
    engine: &mut Engine,
    now: Millis,
    parent: FrameNo,
    src: &'a [u8],
    allow: &'a [u8],
) -> Result<Option<FrameNo>, AllocError> {
    let (Some(src), Some(allow)) = (text(src), text(allow)) else {
        return Ok(None);
    };
    let event = Event::Embed {
        parent: parent.get(),
        src: OptionalText::of(src),
        place: OptionalText::none(),
        allow: OptionalText::of(allow),
        sandbox: OptionalText::none(),
        fullscreen: false,
        srcdoc: false,
        header: OptionalText::none(),
    };
    let replies = tell(engine, now, event)?;
    Ok(frame_made(&replies))
}

/// The user clicks in a frame.
fn click(engine: &mut Engine, now: Millis, frame: FrameNo) -> Result<(), AllocError> {
    let event = Event::Input {
        frame: frame.get(),
        kind: InputKind::Mousedown,
    };
    tell(engine, now, event)?;
    Ok(())
}

/// The prompt that an event made; None where it made none.
fn prompt_made(replies: &Replies) -> Option<PromptNo> {
    match &replies.answer {
        Answer::PromptMade { prompt } => Some(*prompt),
        _ => None,
    }
}

/// The event that a frame's document asks for a permission.
fn request(frame: FrameNo, feature: Text<'_>) -> Event<'_>
    requires { IsTrue (is_text feature) }
    ensures { IsTrue (is_fitting result) }
{
    Event::Request {
        frame: frame.get(),
        feature,
    }
}

/// A frame's document asks for a permission.
fn ask<'a>(
    engine: &mut Engine,
    now: Millis,
    frame: FrameNo,
    feature: &'a [u8],
) -> Result<Option<PromptNo>, AllocError> {
    let Some(feature) = text(feature) else {
        return Ok(None);
    };
    let replies = tell(engine, now, request(frame, feature))?;
    Ok(prompt_made(&replies))
}

/// The user allows what a prompt asks for, as long as the page is there.
fn allow_once(engine: &mut Engine, now: Millis, prompt: PromptNo) -> Result<(), AllocError> {
    let event = Event::Answered {
        prompt: prompt.get(),
        outcome: Outcome::Allow,
        life: EventLife::Once,
    };
    tell(engine, now, event)?;
    Ok(())
}

/// A frame's document asks for its place, and the user allows it.
fn locate(engine: &mut Engine, now: Millis, frame: FrameNo) -> Result<(), AllocError> {
    match ask(engine, now, frame, b"geolocation")? {
        Some(prompt) => allow_once(engine, now, prompt),
        None => Ok(()),
    }
}

/// Lets the time go on.
fn wait(engine: &mut Engine, now: Millis) -> Result<(), AllocError> {
    tell(engine, now, Event::Tick)?;
    Ok(())
}

/// A verdict in words.
fn words(verdict: Option<Verdict>) -> &'static str {
    match verdict {
        None => "there is no such frame",
        Some(Verdict::Allowed(Via::Transient)) => "allowed, by the user's input",
        Some(Verdict::Allowed(Via::Delegated)) => "allowed, by a delegated capability",
        Some(Verdict::Allowed(Via::Free)) => "allowed",
        Some(Verdict::Denied(Reason::Policy(_))) => "denied by the policy",
        Some(Verdict::Denied(Reason::PermissionPrompt)) => "denied, the user was not asked",
        Some(Verdict::Denied(Reason::NoTransient)) => "denied, the user did not act just now",
        Some(Verdict::Denied(_)) => "denied",
    }
}

/// Prints when it is, and what a frame may do now.
fn show(rt: &impl Print, when: &str, engine: &Engine, frame: FrameNo) -> io::Result<()> {
    println!(rt; "{when}")?;
    let calls = [
        ("show-payment", Call::ShowPayment),
        ("get-user-media-camera", Call::GetUserMediaCamera),
        ("get-position", Call::GetPosition),
    ];
    for (name, call) in calls {
        let verdict = words(may(engine, frame, call));
        println!(rt; "  {name}: {verdict}")?;
    }
    Ok(())
}

/// A shop's page with the frame of its payment service, which is given.
fn shop(engine: &mut Engine) -> Result<Option<FrameNo>, AllocError> {
    let now = Millis::of(0);
    let Some(page) = open(engine, now, b"https://shop.example/")? else {
        return Ok(None);
    };
    let allow = b"payment; geolocation";
    embed(engine, now, page, b"https://pay.example/", allow)
}

/// What the frame may do as the user acts and time goes on.
fn visit(rt: &impl Print, engine: &mut Engine, frame: FrameNo) -> io::Result<()> {
    show(rt, "the frame at first", engine, frame)?;
    click(engine, Millis::of(1000), frame)?;
    locate(engine, Millis::of(1500), frame)?;
    show(rt, "after a click and a prompt", engine, frame)?;
    wait(engine, Millis::of(6000))?;
    show(rt, "five seconds after the click", engine, frame)
}

fn main(rt: HostRuntime) -> io::Result<()> {
    let mut engine = Engine::new(rt.alloc(), 5000);
    match shop(&mut engine)? {
        Some(frame) => visit(&rt, &mut engine, frame),
        None => Ok(()),
    }
}
