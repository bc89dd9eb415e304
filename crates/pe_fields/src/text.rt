//! Strings (RFC 8941, sections 3.3.3 and 4.2.5).
ghost use Rattle.std.specs.Prelude.{◌≡◌, Some, IfSome, option_map};
ghost use Rattle.pe_fields.specs.Gives.{Gives};
ghost use Rattle.pe_fields.specs.Reading.{text_at};
ghost use Rattle.pe_fields.specs.Steps.{escaped_step, text_step};

use crate::class::{Class, behind, is_text_byte, run};
use crate::fault::Fault;
use crate::lent::Text;
use std::alloc::Global;

/// The quote or backslash behind a backslash.
fn escaped(bytes: &[u8]) -> Option<(Option<u8>, &[u8])>
    ensures { option_map (λ x. (x.0, x.1.now)) result ≡ escaped_step bytes.now }
{
    let (first, rest) = bytes.split_first()?;
    if *first == b'"' || *first == b'\\' {
        return Some((Some(*first), rest));
    }
    None
}

/// The next byte of a string, its escape undone; the inner None is the closing quote.
fn text_byte(bytes: &[u8]) -> Option<(Option<u8>, &[u8])>
    ensures { option_map (λ x. (x.0, x.1.now)) result ≡ text_step bytes.now }
{
    let (first, rest) = bytes.split_first()?;
    if *first == b'"' {
        return Some((None, rest));
    }
    if *first == b'\\' {
        return escaped(rest);
    }
    if !is_text_byte(*first) {
        return None;
    }
    Some((Some(*first), rest))
}

/// The bytes of a string without an escape, behind its opening quote, and what stands behind the closing
/// one.
#[tactic(auto, using(crate::proofs::Texts::text_lent))]
fn unescaped_text(bytes: &[u8]) -> Option<(&[u8], &[u8])>
    ensures { IfSome result (λ found. text_at bytes.now ≡ Some (found.0.now, found.1.now)) }
{
    let (text, rest) = run(Class::Unescaped, bytes);
    let rest = behind(b'"', rest)?;
    Some((text, rest))
}

/// The bytes of a string, byte by byte.
fn escaped_text(alloc: Global, bytes: &[u8]) -> Result<(Text<'_>, &[u8]), Fault>
    ensures { Gives (λ x. (x.0, x.1.now)) result (text_at bytes.now) }
{
    let mut text = Vec::new(alloc);
    let mut rest = bytes;
    'bytes: loop {
        match text_byte(rest) {
            None => return Err(Fault::Malformed),
            Some((None, after)) => return Ok((Text::of(text), after)),
            Some((Some(byte), after)) => {
                text.push(byte)?;
                rest = after;
            }
        }
    }
}

/// The bytes of a string behind its opening quote, and what stands behind the closing one.
pub fn text(alloc: Global, bytes: &[u8]) -> Result<(Text<'_>, &[u8]), Fault>
    ensures { Gives (λ x. (x.0, x.1.now)) result (text_at bytes.now) }
{
    match unescaped_text(bytes) {
        Some((text, rest)) => Ok((Text::lent(text), rest)),
        None => escaped_text(alloc, bytes),
    }
}
