//! What no contract says: that there is memory, and that the definitions give the lines that were meant.
use crate::{LineFault, read_event};
use pe_base::{InputKind, State};
use pe_events::{AttrName, Event, EventLife, Outcome, Stamped};
use pe_lines::{OptionalText, Text};
use std::alloc::Global;
use std::test::Fail;

/// Puts a text and `|` behind the others.
fn put(out: &mut Vec<u8>, text: &[u8]) -> Result<(), Fail> {
    out.extend_from_slice(text)?;
    out.push(b'|')?;
    Ok(())
}

/// The same of a text that may be missing; a missing one is `~`.
fn put_option(out: &mut Vec<u8>, text: &OptionalText<'_>) -> Result<(), Fail> {
    match text.get() {
        Some(text) => put(out, text),
        None => put(out, b"~"),
    }
}

/// The same of a verb and a number.
fn put_number(out: &mut Vec<u8>, alloc: Global, verb: &str, number: u32) -> Result<(), Fail> {
    let text = format!(in alloc; "{verb} {number}")?;
    put(out, text.as_bytes())
}

/// The same of a verb, a number and a text.
fn put_text(
    out: &mut Vec<u8>,
    alloc: Global,
    verb: &str,
    number: u32,
    text: &Text<'_>,
) -> Result<(), Fail> {
    put_number(out, alloc, verb, number)?;
    put(out, text.as_slice())
}

/// The same of a verb, a number and a text that may be missing.
fn put_text_or_none(
    out: &mut Vec<u8>,
    alloc: Global,
    verb: &str,
    number: u32,
    text: &OptionalText<'_>,
) -> Result<(), Fail> {
    put_number(out, alloc, verb, number)?;
    put_option(out, text)
}

/// The same of an attribute of a frame.
fn put_attribute(out: &mut Vec<u8>, alloc: Global, name: AttrName) -> Result<(), Fail> {
    let text = format!(in alloc; "{name:?}")?;
    put(out, text.as_bytes())
}

/// The same of a kind of input.
fn put_kind(out: &mut Vec<u8>, alloc: Global, kind: InputKind) -> Result<(), Fail> {
    let text = format!(in alloc; "{kind:?}")?;
    put(out, text.as_bytes())
}

/// The same of an outcome and its life.
fn put_outcome(
    out: &mut Vec<u8>,
    alloc: Global,
    outcome: Outcome,
    life: EventLife,
) -> Result<(), Fail> {
    let text = format!(in alloc; "{outcome:?} {life:?}")?;
    put(out, text.as_bytes())
}

/// The same of a state and a span.
fn put_state(
    out: &mut Vec<u8>,
    alloc: Global,
    state: State,
    span: Option<u64>,
) -> Result<(), Fail> {
    let text = format!(in alloc; "{state:?} {span:?}")?;
    put(out, text.as_bytes())
}

/// The same of the flags of an embedded frame.
fn put_flags(out: &mut Vec<u8>, fullscreen: bool, srcdoc: bool) -> Result<(), Fail> {
    put(out, if fullscreen { b"fullscreen" } else { b"~" })?;
    put(out, if srcdoc { b"srcdoc" } else { b"~" })
}

/// The same of an event that loads a document or changes an attribute; others put nothing.
fn put_document(out: &mut Vec<u8>, alloc: Global, event: &Event<'_>) -> Result<(), Fail> {
    match event {
        Event::OpenPage { url, header } => {
            put(out, url.as_slice())?;
            put_option(out, header)
        }
        Event::Navigate { frame, url, header } => {
            put_text(out, alloc, "nav", *frame, url)?;
            put_option(out, header)
        }
        Event::Attr { frame, name, value } => {
            put_text_or_none(out, alloc, "attr", *frame, value)?;
            put_attribute(out, alloc, *name)
        }
        _ => Ok(()),
    }
}

/// The same of an embedded frame; other events put nothing.
fn put_embedding(out: &mut Vec<u8>, alloc: Global, event: &Event<'_>) -> Result<(), Fail> {
    match event {
        Event::Embed {
            parent,
            src,
            place,
            allow,
            sandbox,
            fullscreen,
            srcdoc,
            header,
        } => {
            put_text_or_none(out, alloc, "embed", *parent, src)?;
            put_option(out, place)?;
            put_option(out, allow)?;
            put_option(out, sandbox)?;
            put_flags(out, *fullscreen, *srcdoc)?;
            put_option(out, header)
        }
        _ => Ok(()),
    }
}

/// The same of an event on one object; others put nothing.
fn put_object(out: &mut Vec<u8>, alloc: Global, event: &Event<'_>) -> Result<(), Fail> {
    match event {
        Event::Close { frame } => put_number(out, alloc, "close", *frame),
        Event::Ask { frame } => put_number(out, alloc, "state", *frame),
        Event::History { frame } => put_number(out, alloc, "history", *frame),
        Event::Features { frame } => put_number(out, alloc, "features", *frame),
        Event::DropStatus { status } => put_number(out, alloc, "drop", *status),
        Event::Deliver { message } => put_number(out, alloc, "deliver", *message),
        Event::PolicyOf { frame, feature } => put_text(out, alloc, "policy", *frame, feature),
        Event::UseCall { frame, call } => put_text(out, alloc, "use", *frame, call),
        Event::Query { frame, feature } => put_text(out, alloc, "query", *frame, feature),
        Event::Request { frame, feature } => put_text(out, alloc, "request", *frame, feature),
        Event::Tick => put(out, b"tick"),
        _ => Ok(()),
    }
}

/// The same of an event that is none of these; others put nothing.
fn put_other(out: &mut Vec<u8>, alloc: Global, event: &Event<'_>) -> Result<(), Fail> {
    match event {
        Event::Input { frame, kind } => {
            put_number(out, alloc, "input", *frame)?;
            put_kind(out, alloc, *kind)
        }
        Event::Answered {
            prompt,
            outcome,
            life,
        } => {
            put_number(out, alloc, "answer", *prompt)?;
            put_outcome(out, alloc, *outcome, *life)
        }
        Event::SetState {
            feature,
            first,
            second,
            state,
            span,
        } => {
            put(out, feature.as_slice())?;
            put(out, first.as_slice())?;
            put_option(out, second)?;
            put_state(out, alloc, *state, *span)
        }
        Event::Post {
            sender,
            target,
            origin,
            capability,
        } => {
            put_text_or_none(out, alloc, "post", *sender, origin)?;
            put_text(out, alloc, "to", *target, capability)
        }
        _ => Ok(()),
    }
}

/// The time and the fields of an event, each with `|` behind it.
fn put_event(out: &mut Vec<u8>, alloc: Global, stamped: &Stamped<'_>) -> Result<(), Fail> {
    let time = format!(in alloc; "{}", stamped.time)?;
    put(out, time.as_bytes())?;
    put_document(out, alloc, &stamped.event)?;
    put_embedding(out, alloc, &stamped.event)?;
    put_object(out, alloc, &stamped.event)?;
    put_other(out, alloc, &stamped.event)
}

/// The same of the event that a line says, if any.
fn put_found(out: &mut Vec<u8>, alloc: Global, found: &Option<Stamped<'_>>) -> Result<(), Fail> {
    match found {
        Some(stamped) => put_event(out, alloc, stamped),
        None => Ok(()),
    }
}

/// What a line says: the time and the fields of its event, each with `|` behind it.
fn shown(alloc: Global, line: &[u8]) -> Result<Vec<u8>, Fail> {
    let mut out = Vec::new(alloc);
    let found = read_event(alloc, line)?;
    put_found(&mut out, alloc, &found)?;
    Ok(out)
}

#[test]
fn each_verb_is_read(rt: HostRuntime) -> Result<(), Fail> {
    let rows: [(&[u8], &[u8]); 31] = [
        (b"0 tick", b"0|tick|"),
        (b"\t9999999999999  tick \t", b"9999999999999|tick|"),
        (b"1 close f1", b"1|close 1|"),
        (b"1 state f9999999", b"1|state 9999999|"),
        (b"1 history f20", b"1|history 20|"),
        (b"1 features f3", b"1|features 3|"),
        (b"1 drop s4", b"1|drop 4|"),
        (b"1 deliver m5", b"1|deliver 5|"),
        (b"1 policy f1 camera", b"1|policy 1|camera|"),
        (b"1 use f1 get-position", b"1|use 1|get-position|"),
        (b"1 query f1 ?", b"1|query 1|?|"),
        (b"1 request f1 push", b"1|request 1|push|"),
        (b"1 answer p2 allow", b"1|answer 2|Allow Forever|"),
        (b"1 answer p2 allow once", b"1|answer 2|Allow Once|"),
        (b"1 answer p2 block for 1", b"1|answer 2|Block For(1)|"),
        (b"1 answer p2 dismiss", b"1|answer 2|Dismiss Forever|"),
        (
            b"1 set camera https://a.example granted",
            b"1|camera|https://a.example|~|Granted None|",
        ),
        (
            b"1 set storage-access \"a\" \"\" denied",
            b"1|storage-access|a||Denied None|",
        ),
        (
            b"1 set camera a prompt for 9999999999999",
            b"1|camera|a|~|Prompt Some(9999999999999)|",
        ),
        (
            b"1 set camera a \"b\\\"\\\\\" granted for 7",
            b"1|camera|a|b\"\\|Granted Some(7)|",
        ),
        (
            b"1 post f1 f2 https://a.example payment",
            b"1|post 1|https://a.example|to 2|payment|",
        ),
        (b"1 post f1 f2 * payment", b"1|post 1|~|to 2|payment|"),
        (b"1 post f1 f2 \"*\" payment", b"1|post 1|*|to 2|payment|"),
        (b"1 open https://a.example", b"1|https://a.example|~|"),
        (b"1 open none header \"\"", b"1|none||"),
        (
            b"1 open \"\" header a header \"b\\\"\" header c",
            b"1||a, b\", c|",
        ),
        (b"1 nav f1 u header h", b"1|nav 1|u|h|"),
        (b"1 embed f1 u", b"1|embed 1|u|~|~|~|~|~|~|"),
        (
            b"1 embed f1 \"none\" header h sandbox \"\" fullscreen allow \"camera *\" header i at v",
            b"1|embed 1|none|v|camera *||fullscreen|~|h, i|",
        ),
        (
            b"1 embed f1 none srcdoc fullscreen",
            b"1|embed 1|~|~|~|~|fullscreen|srcdoc|~|",
        ),
        (
            b"1 embed f1 u allow at at allow",
            b"1|embed 1|u|allow|at|~|~|~|~|",
        ),
    ];
    for (line, want) in rows {
        let found = shown(rt.alloc(), line)?;
        assert_eq!(rt; found.as_slice(), want);
    }
    Ok(())
}

#[test]
fn each_keyword_is_read(rt: HostRuntime) -> Result<(), Fail> {
    let rows: [(&[u8], &[u8]); 19] = [
        (b"0 input f1 keydown", b"0|input 1|Keydown|"),
        (b"0 input f1 keydown-escape", b"0|input 1|KeydownEscape|"),
        (
            b"0 input f1 keydown-reserved",
            b"0|input 1|KeydownReserved|",
        ),
        (b"0 input f1 mousedown", b"0|input 1|Mousedown|"),
        (b"0 input f1 mousemove", b"0|input 1|Mousemove|"),
        (
            b"0 input f1 pointerdown-mouse",
            b"0|input 1|PointerdownMouse|",
        ),
        (b"0 input f1 pointerdown-pen", b"0|input 1|PointerdownPen|"),
        (
            b"0 input f1 pointerdown-touch",
            b"0|input 1|PointerdownTouch|",
        ),
        (b"0 input f1 pointerup-mouse", b"0|input 1|PointerupMouse|"),
        (b"0 input f1 pointerup-pen", b"0|input 1|PointerupPen|"),
        (b"0 input f1 pointerup-touch", b"0|input 1|PointerupTouch|"),
        (b"0 input f1 touchend", b"0|input 1|Touchend|"),
        (b"0 attr f1 src none", b"0|attr 1|~|Src|"),
        (b"0 attr f1 srcdoc \"none\"", b"0|attr 1|none|Srcdoc|"),
        (b"0 attr f1 allow \"\"", b"0|attr 1||Allow|"),
        (b"0 attr f1 sandbox x", b"0|attr 1|x|Sandbox|"),
        (b"0 attr f1 fullscreen yes", b"0|attr 1|yes|Fullscreen|"),
        (b" \t", b""),
        (b" # \x01 \"", b""),
    ];
    for (line, want) in rows {
        let found = shown(rt.alloc(), line)?;
        assert_eq!(rt; found.as_slice(), want);
    }
    Ok(())
}

#[test]
fn lines_outside_the_grammar_are_refused(rt: HostRuntime) {
    let rows: [&[u8]; 46] = [
        b"0",
        b"tick",
        b"00 tick",
        b"01 tick",
        b"10000000000000 tick",
        b"\"0\" tick",
        b"-1 tick",
        b"0 \"tick\"",
        b"0 Tick",
        b"0 tock",
        b"0 tick 1",
        b"0 close",
        b"0 close f0",
        b"0 close f01",
        b"0 close f10000000",
        b"0 close f",
        b"0 close s1",
        b"0 close \"f1\"",
        b"0 close f1 f2",
        b"0 state 1",
        b"0 history f1 x",
        b"0 policy f1",
        b"0 policy f1 \"camera\"",
        b"0 use f1 a b",
        b"0 drop f1",
        b"0 deliver s1",
        b"0 input f1 wheel",
        b"0 input f1 \"keydown\"",
        b"0 attr f1 loading x",
        b"0 attr f1 src",
        b"0 answer p1 maybe",
        b"0 answer p1 \"allow\"",
        b"0 answer p1 dismiss once",
        b"0 answer p1 allow for 0",
        b"0 answer p1 allow for",
        b"0 answer p1 allow \"once\"",
        b"0 set camera granted",
        b"0 set camera a unset",
        b"0 set camera a b c granted",
        b"0 set \"camera\" a granted",
        b"0 set camera a granted for 10000000000000",
        b"0 post f1 f2 * \"payment\"",
        b"0 post f1 f2 payment",
        b"0 open",
        b"0 open u header",
        b"0 open u \"header\" h",
    ];
    for line in rows {
        assert_eq!(rt; read_event(rt.alloc(), line).err(), Some(LineFault::Syntax));
    }
}

#[test]
fn options_that_do_not_go_together_are_refused(rt: HostRuntime) {
    let rows: [(&[u8], LineFault); 16] = [
        (b"0 open u at v", LineFault::Syntax),
        (b"0 nav f1 u fullscreen", LineFault::Syntax),
        (b"0 nav f1", LineFault::Syntax),
        (b"0 embed f1", LineFault::Syntax),
        (b"0 embed f1 u at v at v", LineFault::Syntax),
        (b"0 embed f1 u allow a allow b", LineFault::Syntax),
        (b"0 embed f1 u sandbox a sandbox a", LineFault::Syntax),
        (b"0 embed f1 u fullscreen fullscreen", LineFault::Syntax),
        (b"0 embed f1 u srcdoc srcdoc", LineFault::Syntax),
        (b"0 embed f1 u at v srcdoc", LineFault::Syntax),
        (b"0 embed f1 u srcdoc header h", LineFault::Syntax),
        (b"0 embed f1 none at v", LineFault::Syntax),
        (b"0 embed f1 u \"fullscreen\"", LineFault::Syntax),
        (b"0 embed f1 u loading lazy", LineFault::Syntax),
        (b"0 tick \x7f", LineFault::BadByte),
        (b"\"\x00", LineFault::BadByte),
    ];
    for (line, want) in rows {
        assert_eq!(rt; read_event(rt.alloc(), line).err(), Some(want));
    }
}
