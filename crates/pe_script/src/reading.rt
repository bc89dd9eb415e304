//! What a line of a script says.
ghost use Rattle.std.specs.Prelude.{◌≡◌, Ok, None, Some, IfOk, IfNone, IfSome, IsErrOf, IsOkAnd, IsSomeAnd, false};
ghost use Rattle.pe_lines.specs.Words.{is_blank, is_blank_line, is_comment};
ghost use Rattle.pe_events.specs.declared.cause.Cause.TheVariants as cause;
ghost use Rattle.pe_events.specs.Timed.{Timed};
ghost use Rattle.pe_script.specs.Reading.{Silent, Refusal, Says, reading_of};
ghost use Rattle.pe_script.specs.Answering.{is_silent, told, UnlessMemory, Answers, TakesHead};

use crate::names::{Verb, verb_named};
use crate::numerals::time;
use crate::verbs::read_behind;
use pe_events::Stamped;
use pe_lines::WordReader;
use std::alloc::Global;
use thiserror::Error;

/// Why a line says no event.
#[derive(Clone, Copy, Debug, PartialEq, Eq, Error)]
pub enum LineFault {
    /// It is no comment and has a byte other than tab and 0x20 to 0x7E.
    #[error("a byte other than tab and printable ASCII")]
    BadByte,
    /// It has no such byte, and is not in the grammar.
    #[error("not in the grammar of a script line")]
    Syntax,
    /// Memory wants.
    #[error("out of memory")]
    Memory,
}

/// Whether the byte is a space or a tab.
fn is_blank(byte: u8) -> bool
    ensures { result ≡ is_blank byte }
{
    byte == b' ' || byte == b'\t'
}

/// Whether each byte is a space or a tab. It looks at all of them, many at a time.
#[tactic(auto, unfolding(pe_lines::specs::Words::is_blank_line))]
fn is_blank_line(line: &[u8]) -> bool
    ensures { result ≡ is_blank_line line.now }
{
    let mut is_all = true;
    for byte in line {
        is_all &= is_blank(*byte);
    }
    is_all
}

/// Whether the first byte that is no blank is `#`.
fn is_comment(line: &[u8]) -> bool
    ensures { result ≡ is_comment line.now }
{
    for byte in line {
        if !is_blank(*byte) {
            return *byte == b'#';
        }
    }
    false
}

/// Whether the line is of blanks alone, or a comment.
fn is_silent(line: &[u8]) -> bool
    ensures { result ≡ is_silent line.now }
{
    match line {
        [] => true,
        [byte, ..] => {
            if !is_blank(*byte) {
                return *byte == b'#';
            }
            is_blank_line(line) || is_comment(line)
        }
    }
}

/// Takes the time and the verb off the words of a line; None where the words say no event.
fn read_head(words: &mut WordReader<'_>) -> Option<(u64, Verb)>
    ensures { TakesHead words.old.words words.new.words result }
{
    let first = words.next()?;
    let second = words.next()?;
    let time = time(&first)?;
    let verb = verb_named(&second)?;
    Some((time, verb))
}

/// What a line says that is neither blank nor a comment.
fn read_line<'a>(alloc: Global, line: &'a [u8]) -> Result<Option<Stamped<'a>>, LineFault>
    requires { is_silent line.now ≡ false }
    ensures { Answers (reading_of line.now) result }
{
    let Some(mut words) = WordReader::of(line) else {
        return Err(LineFault::BadByte);
    };
    let Some((time, verb)) = read_head(&mut words) else {
        return Err(LineFault::Syntax);
    };
    let event = read_behind(alloc, verb, words)?;
    Ok(Some(Stamped { time, event }))
}

/// What a line of a script says: an event with its time, or nothing where the line is blank or a comment.
/// The line is without its line feed and is taken whole, whatever its length.
///
/// `BadByte` comes before `Syntax`, and both only of a line that is no comment. A text of the event
/// borrows the line, and owns its bytes where an escape was undone or several headers were joined.
pub fn read_event<'a>(alloc: Global, line: &'a [u8]) -> Result<Option<Stamped<'a>>, LineFault>
    // What each answer means.
    ensures none { IfOk result (λ found. IfNone found (reading_of line.now ≡ Silent)) }
    ensures some { IfOk result (λ found. IfSome found (λ stamped. reading_of line.now ≡ Says (told stamped))) }
    ensures bad_byte { IsErrOf result LineFault.BadByte → reading_of line.now ≡ Refusal cause.BadByte }
    ensures syntax { IsErrOf result LineFault.Syntax → reading_of line.now ≡ Refusal cause.Syntax }

    // What a line of each reading is answered.
    ensures of_silent { reading_of line.now ≡ Silent → UnlessMemory result (result ≡ Ok None) }
    ensures of_event { (said : Timed) → reading_of line.now ≡ Says said
        → UnlessMemory result (IsOkAnd result (λ found. IsSomeAnd found (λ stamped. told stamped ≡ said))) }
    ensures of_bad_byte { reading_of line.now ≡ Refusal cause.BadByte → UnlessMemory result (IsErrOf result LineFault.BadByte) }
    ensures of_syntax { reading_of line.now ≡ Refusal cause.Syntax → UnlessMemory result (IsErrOf result LineFault.Syntax) }
{
    if is_silent(line) {
        return Ok(None);
    }
    read_line(alloc, line)
}
