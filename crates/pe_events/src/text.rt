//! The lines that are written.
ghost use Rattle.std.specs.Prelude.{◌≡◌, ◌++◌, IfOk, OnOk, decimal, map, zip};
ghost use Rattle.std.specs.List.{concat};
ghost use Rattle.pe_base.specs.Prefix.{IsPrefix};
ghost use Rattle.pe_events.specs.Texts as text;

use crate::answer::{Answer, Change};
use crate::cause::Cause;
use crate::reason::Reason;
use pe_base::{Denial, LinkRule, State, put_number};
use pe_features::Feature;
use pe_origin::put_origin;
use std::alloc::{AllocError, Global};

/// A permission state, as it is written.
fn state_name(state: State) -> &'static str
    ensures { result.now ≡ text.state_text state }
{
    match state {
        State::Granted => "granted",
        State::Denied => "denied",
        State::Prompt => "prompt",
    }
}

/// A test of the policy, as it is written.
fn rule_name(rule: LinkRule) -> &'static str
    ensures { result.now ≡ text.rule_text rule }
{
    match rule {
        LinkRule::EmbedderSelf => "embedder-self",
        LinkRule::EmbedderHeader => "embedder-header",
        LinkRule::Allow => "allow",
        LinkRule::Default => "default",
        LinkRule::OwnHeader => "own-header",
    }
}

/// Why a line is refused, as it is written.
fn cause_name(cause: Cause) -> &'static str
    ensures { result.now ≡ text.cause_text cause }
{
    match cause {
        Cause::LineTooLong => "line-too-long",
        Cause::BadByte => "bad-byte",
        Cause::Syntax => "syntax",
        Cause::LimitEvents => "limit-events",
        Cause::TimeBack => "time-back",
        Cause::Unknown => "unknown",
        Cause::Settled => "settled",
        Cause::Closed => "closed",
        Cause::NotShown => "not-shown",
        Cause::Url => "url",
        Cause::Feature => "feature",
        Cause::Call => "call",
        Cause::Capability => "capability",
        Cause::OtherPage => "other-page",
        Cause::LimitPages => "limit-pages",
        Cause::LimitDepth => "limit-depth",
        Cause::LimitFrames => "limit-frames",
        Cause::LimitStatuses => "limit-statuses",
        Cause::LimitPending => "limit-pending",
        Cause::LimitStore => "limit-store",
    }
}

/// Yes or no, as it is written.
fn yes_or_no(holds: bool) -> &'static str
    ensures { result.now ≡ text.yes_or_no holds }
{
    if holds { "yes" } else { "no" }
}

/// Puts words, and a number behind them, behind the text.
fn put_numbered(words: &str, number: u32, out: &mut Vec<u8>) -> Result<(), AllocError>
    ensures appended { OnOk result (out.new.items ≡ out.old.items ++ words.now ++ decimal number) }
    ensures front { IsPrefix out.old.items out.new.items }
{
    out.extend_from_slice(words.as_bytes())?;
    put_number(u64::from(number), out)
}

/// Puts two pieces of words behind the text.
fn put_words(first: &str, second: &str, out: &mut Vec<u8>) -> Result<(), AllocError>
    ensures appended { OnOk result (out.new.items ≡ out.old.items ++ first.now ++ second.now) }
    ensures front { IsPrefix out.old.items out.new.items }
{
    out.extend_from_slice(first.as_bytes())?;
    out.extend_from_slice(second.as_bytes())
}

/// Puts a failed test of the policy, and the document that it names, behind the text.
fn put_denial(denial: Denial, out: &mut Vec<u8>) -> Result<(), AllocError>
    ensures appended { OnOk result (out.new.items ≡ out.old.items ++ text.denial_text denial) }
    ensures front { IsPrefix out.old.items out.new.items }
{
    out.extend_from_slice(rule_name(denial.rule).as_bytes())?;
    put_numbered(" d", denial.at.get(), out)
}

/// Puts the reason of a denial behind the text.
fn put_reason(reason: Reason, out: &mut Vec<u8>) -> Result<(), AllocError>
    ensures appended { OnOk result (out.new.items ≡ out.old.items ++ text.reason_text reason) }
    ensures front { IsPrefix out.old.items out.new.items }
{
    match reason {
        Reason::Insecure => out.extend_from_slice(b"insecure"),
        Reason::Policy(denial) => put_denial(denial, out),
        Reason::PermissionDenied => out.extend_from_slice(b"permission-denied"),
        Reason::PermissionPrompt => out.extend_from_slice(b"permission-prompt"),
        Reason::NoSticky => out.extend_from_slice(b"no-sticky"),
        Reason::NoTransient => out.extend_from_slice(b"no-transient"),
        Reason::TargetAny => out.extend_from_slice(b"target-any"),
        Reason::NoHistory => out.extend_from_slice(b"no-history"),
    }
}

/// Puts a space and the name of a feature behind the text, where it is allowed.
fn put_name(feature: Feature, allowed: bool, out: &mut Vec<u8>) -> Result<(), AllocError>
    ensures appended { OnOk result (out.new.items ≡ out.old.items ++ text.allowed_name feature allowed) }
    ensures front { IsPrefix out.old.items out.new.items }
{
    if !allowed {
        return Ok(());
    }
    put_words(" ", feature.name(), out)
}

/// Puts the names of those features behind the text that are allowed, each behind a space.
fn put_names(features: &[Feature], allowed: &[bool], out: &mut Vec<u8>) -> Result<(), AllocError>
    ensures appended { OnOk result (out.new.items ≡ out.old.items ++ concat (map (λ pair. text.allowed_name pair.0 pair.1) (zip features.now allowed.now))) }
    ensures front { IsPrefix out.old.items out.new.items }
{
    let [feature, features @ ..] = features else {
        return Ok(());
    };
    let [is_allowed, allowed @ ..] = allowed else {
        return Ok(());
    };
    put_name(*feature, *is_allowed, out)?;
    put_names(features, allowed, out)
}

/// Puts the words of an answer behind the text.
#[tactic(auto, unfolding(crate::specs::Texts::answer_words))]
fn put_answer_words(answer: &Answer, out: &mut Vec<u8>) -> Result<(), AllocError>
    ensures appended { OnOk result (out.new.items ≡ out.old.items ++ text.answer_words answer.now) }
    ensures front { IsPrefix out.old.items out.new.items }
{
    match answer {
        Answer::FrameMade { frame, doc, origin } => {
            put_numbered("frame f", frame.get(), out)?;
            put_numbered(" doc d", doc.get(), out)?;
            out.push(b' ')?;
            put_origin(origin, out)
        }
        Answer::DocMade { doc, origin } => {
            put_numbered("doc d", doc.get(), out)?;
            out.push(b' ')?;
            put_origin(origin, out)
        }
        Answer::Done => out.extend_from_slice(b"ok"),
        Answer::Activated { count } => put_numbered("activated ", *count, out),
        Answer::Ignored => out.extend_from_slice(b"ignored"),
        Answer::Activity { sticky, transient } => {
            put_words("sticky ", yes_or_no(*sticky), out)?;
            put_words(" transient ", yes_or_no(*transient), out)
        }
        Answer::Allowed => out.extend_from_slice(b"allowed"),
        Answer::Denied { reason } => {
            out.extend_from_slice(b"denied ")?;
            put_reason(*reason, out)
        }
        Answer::Names { allowed } => {
            out.extend_from_slice(b"features")?;
            put_names(&Feature::ALL, allowed, out)
        }
        Answer::StatusMade { status, state } => {
            put_numbered("status s", status.get(), out)?;
            put_words(" ", state_name(*state), out)
        }
        Answer::Stated { state } => out.extend_from_slice(state_name(*state).as_bytes()),
        Answer::PromptMade { prompt } => put_numbered("prompt p", prompt.get(), out),
        Answer::PromptJoined { prompt } => put_numbered("joined p", prompt.get(), out),
        Answer::Settled { count, state } => {
            put_numbered("settled ", *count, out)?;
            put_words(" ", state_name(*state), out)
        }
        Answer::MessageMade { message } => put_numbered("message m", message.get(), out),
        Answer::Delivered => out.extend_from_slice(b"delivered"),
        Answer::DroppedGone => out.extend_from_slice(b"dropped gone"),
        Answer::DroppedOther => out.extend_from_slice(b"dropped other-origin"),
        Answer::Refused { cause } => put_words("refused ", cause_name(*cause), out),
    }
}

/// Puts the line of an answer behind the text: the number of its script line, a space, its words and a
/// line feed. `AllocError` where memory wants; what stood is then still a front of the text.
#[tactic(auto, unfolding(crate::specs::Texts::answer_text))]
pub fn put_answer(number: u64, answer: &Answer, out: &mut Vec<u8>) -> Result<(), AllocError>
    ensures appended { OnOk result (out.new.items ≡ out.old.items ++ text.answer_text number answer.now) }
    ensures front { IsPrefix out.old.items out.new.items }
{
    put_number(number, out)?;
    out.push(b' ')?;
    put_answer_words(answer, out)?;
    out.push(b'\n')?;
    Ok(())
}

/// Puts the line of a change behind the text: `@` and the time, the status, its state and a line feed.
/// `AllocError` where memory wants; what stood is then still a front of the text.
#[tactic(auto, unfolding(crate::specs::Texts::change_text))]
pub fn put_change(change: &Change, out: &mut Vec<u8>) -> Result<(), AllocError>
    ensures appended { OnOk result (out.new.items ≡ out.old.items ++ text.change_text change.now) }
    ensures front { IsPrefix out.old.items out.new.items }
{
    out.push(b'@')?;
    put_number(change.time.get(), out)?;
    put_numbered(" s", change.status.get(), out)?;
    put_words(" ", state_name(change.state), out)?;
    out.push(b'\n')?;
    Ok(())
}

/// The line of an answer, as `put_answer` puts it. `AllocError` where memory wants.
pub fn answer_text(alloc: Global, number: u64, answer: &Answer) -> Result<Vec<u8>, AllocError>
    ensures { IfOk result (λ line. line.items ≡ text.answer_text number answer.now) }
{
    let mut line = Vec::new(alloc);
    put_answer(number, answer, &mut line)?;
    Ok(line)
}

/// The line of a change, as `put_change` puts it. `AllocError` where memory wants.
pub fn change_text(alloc: Global, change: &Change) -> Result<Vec<u8>, AllocError>
    ensures { IfOk result (λ line. line.items ≡ text.change_text change.now) }
{
    let mut line = Vec::new(alloc);
    put_change(change, &mut line)?;
    Ok(line)
}
