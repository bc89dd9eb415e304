//! Reading an expression.
ghost use Rattle.std.specs.Prelude.{◌≡◌, ◌+◌, ◌≤◌, IfOk, IfSome, length};
ghost use Rattle.std.specs.Option.{option_map};
ghost use Rattle.pe_allowlist.specs.Expressions as spec;

use crate::allowlist::Expression;
use pe_origin::{HostForm, PlaceFault, Tuple, read_place};
use std::alloc::{AllocError, Global};

/// The place of the first `://`.
fn separator(text: &[u8]) -> Option<usize>
    ensures place { result ≡ spec.separator_at text.now }
    ensures bound { IfSome result (λ place. place + 3 ≤ length text.now) }
{
    for i in 0..text.len() {
        if text[i..].starts_with(b"://") {
            return Some(i);
        }
    }
    None
}

/// The text without the two bytes `*.` directly after its first `://`; None where they do not stand
/// there.
#[tactic(auto, unfolding(crate::specs::Expressions::without_star))]
fn without_star(alloc: Global, text: &[u8]) -> Result<Option<Vec<u8>>, AllocError>
    ensures { IfOk result (λ rest. option_map (λ bytes. bytes.items) rest ≡ spec.without_star text.now) }
{
    let Some(start) = separator(text) else {
        return Ok(None);
    };
    if !text[start + 3..].starts_with(b"*.") {
        return Ok(None);
    }
    let mut rest = text[..start + 3].to_vec(alloc)?;
    rest.extend_from_slice(&text[start + 5..])?;
    Ok(Some(rest))
}

/// The tuple origin of a text that is read as a URL.
#[tactic(auto, unfolding(crate::specs::Expressions::tuple_at))]
fn tuple_at(alloc: Global, text: &[u8]) -> Result<Option<Tuple>, AllocError>
    ensures { IfOk result (λ tuple. tuple ≡ spec.tuple_at text.now) }
{
    match read_place(alloc, text) {
        Ok(place) => Ok(place.tuple),
        Err(PlaceFault::NotAUrl) => Ok(None),
        Err(PlaceFault::Memory) => Err(AllocError),
    }
}

/// The expression that matches what stands below the host; None where the host is no domain.
fn wild(tuple: Tuple) -> Option<Expression>
    ensures { result ≡ spec.wild tuple }
{
    match tuple.form {
        HostForm::Domain => Some(Expression { wild: true, tuple }),
        HostForm::V4 | HostForm::V6 => None,
    }
}

/// Reads an expression of an allowlist: a URL with a tuple origin, or one with `*.` directly after its
/// first `://`, whose host without these two bytes is a domain. A path is ignored. None where the text
/// is no expression; `AllocError` where memory wants.
#[tactic(auto, unfolding(crate::specs::Expressions::expression_at))]
pub fn read_expression(alloc: Global, text: &[u8]) -> Result<Option<Expression>, AllocError>
    ensures { IfOk result (λ expression. expression ≡ spec.expression_at text.now) }
{
    if let Some(rest) = without_star(alloc, text)? {
        return match tuple_at(alloc, &rest)? {
            Some(tuple) => Ok(wild(tuple)),
            None => Ok(None),
        };
    }
    match tuple_at(alloc, text)? {
        Some(tuple) => Ok(Some(Expression { wild: false, tuple })),
        None => Ok(None),
    }
}
