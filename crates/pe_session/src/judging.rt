//! Judges lines.
ghost use Rattle.std.specs.Prelude.{◌≡◌, ◌↔◌, ℕ, ◌++◌, ◌<◌, true, false, IfOk, OnOk, IsOkAnd, OnErr};
ghost use Rattle.pe_engine.specs.StandsFor.{StandsFor};
ghost use Rattle.pe_engine.specs.Replying.{timed};
ghost use Rattle.pe_engine.specs.Stepping.{IsReply};
ghost use Rattle.pe_lines.specs.Cutting.{line_of_cut};
ghost use Rattle.pe_rules.specs.History.{History};
ghost use Rattle.pe_script.specs.Answering.{told};
ghost use Rattle.pe_script.specs.Reading.{Says};
ghost use Rattle.pe_output.specs.OutputText.{reading_or_too_long, changes_text, refusal_text};
ghost use Rattle.pe_session.specs.Judging.{is_refusal, replies_text, Stands, Judged};

use pe_base::Steps;
use pe_engine::{Engine, Replies};
use pe_events::{Answer, Cause, Change, Stamped, put_answer, put_change};
use pe_lines::Cut;
use pe_script::{LineFault, read_event};
use std::alloc::{AllocError, Global};
use std::marker::Brand;
use std::sync::ledger::{Blank, Ledger};

/// Judges the line of this number, puts its text behind the others, and answers whether it is refused.
pub fn judge(
    alloc: Global,
    engine: &mut Engine,
    number: u64,
    line: Cut<'_>,
    out: &mut Vec<u8>,
) -> Result<bool, AllocError>
    ensures ok { (duration : ℕ) (H : History) → Stands duration engine.old H → IfOk result (λ refused.
        Judged duration engine.new number H (reading_or_too_long (line_of_cut line.entry)) out.old.items out.new.items refused) }
{
    let line = match line {
        Cut::TooLong => return put_refusal(number, Cause::LineTooLong, out),
        Cut::Bytes(line) => line,
    };
    match read_event(alloc, line) {
        Ok(Some(stamped)) => judge_event(engine, number, stamped, out),
        Ok(None) => Ok(false),
        Err(LineFault::BadByte) => put_refusal(number, Cause::BadByte, out),
        Err(LineFault::Syntax) => put_refusal(number, Cause::Syntax, out),
        Err(LineFault::Memory) => Err(AllocError),
    }
}

/// Puts the refusal of a line behind the text, and answers that it is refused.
fn put_refusal(number: u64, cause: Cause, out: &mut Vec<u8>) -> Result<bool, AllocError>
    ensures refused { IfOk result (λ refused. refused ≡ true) }
    ensures text { OnOk result (out.new.items ≡ out.old.items ++ refusal_text number cause) }
{
    put_answer(number, &Answer::Refused { cause }, out)?;
    Ok(true)
}

/// Hands an event to the engine, puts the text of its reply behind the others, and answers whether it is
/// refused.
fn judge_event(
    engine: &mut Engine,
    number: u64,
    stamped: Stamped<'_>,
    out: &mut Vec<u8>,
) -> Result<bool, AllocError>
    ensures { (duration : ℕ) (H : History) → Stands duration engine.old H → IfOk result (λ refused.
        Judged duration engine.new number H (Says (told stamped.entry)) out.old.items out.new.items refused) }
{
    let replies = reply::<Brand>(engine, stamped, Blank::new(1))?;
    put_replies(number, &replies, out)?;
    Ok(is_refusal(&replies.answer))
}

/// What the engine replies to an event, in steps that are counted in contracts alone.
fn reply<L: Ledger>(
    engine: &mut Engine,
    stamped: Stamped<'_>,
    blank: Blank,
) -> Result<Replies, AllocError>
    requires name { blank.name ≡ L.name }
    requires parts { blank.parts ≡ L.parts }
    requires some { 0 < blank.parts }
    ensures replied { (H : History) → StandsFor engine.old H → IfOk result (IsReply engine.old engine.new H (timed stamped.entry.time stamped.entry.event)) }
{
    let mut steps: Steps<L> = Steps::start(blank);
    engine.step(&stamped, &mut steps)
}

/// Puts the text of a reply behind the others: the changes before, the answer and the changes after.
fn put_replies(number: u64, replies: &Replies, out: &mut Vec<u8>) -> Result<(), AllocError>
    ensures { OnOk result (out.new.items ≡ out.old.items ++ replies_text number replies.now) }
{
    put_changes(&replies.before, out)?;
    put_answer(number, &replies.answer, out)?;
    put_changes(&replies.after, out)
}

/// Puts the lines of changes behind the text.
fn put_changes(changes: &[Change], out: &mut Vec<u8>) -> Result<(), AllocError>
    ensures { OnOk result (out.new.items ≡ out.old.items ++ changes_text changes.now) }
{
    for change in changes {
        put_change(change, out)?;
    }
    Ok(())
}

/// Whether the answer is a refusal.
fn is_refusal(answer: &Answer) -> bool
    ensures { result ≡ is_refusal answer.now }
{
    matches!(answer, Answer::Refused { .. })
}
