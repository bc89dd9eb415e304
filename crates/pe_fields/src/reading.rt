//! Reading a text from its front (RFC 8941, section 4.2).
ghost use Rattle.std.specs.Prelude.{◌≡◌, Some, option_map};
ghost use Rattle.pe_fields.specs.Alphabet.{is_key_start};
ghost use Rattle.pe_fields.specs.Gives.{Gives};
ghost use Rattle.pe_fields.specs.Reading.{bare_at, begins, binary_at, given_at, inner_at, item_at, items_at, items_from, key_at, listed_at, member_at, next_item_at, next_member_at, param_at, params_at, truth_at, value_at, dictionary, members_from};

use crate::class::{Class, behind, is_key_start, is_token_start, run, skip};
use crate::fault::Fault;
use crate::lent::Lent;
use crate::number::number;
use crate::text::text;
use crate::value::{Bare, Item, Items, Member, Param, Params, Value};
use std::alloc::Global;

/// Whether a key begins here.
fn begins_key(bytes: &[u8]) -> bool
    ensures { result ≡ begins is_key_start bytes.now }
{
    match bytes {
        [first, ..] => is_key_start(*first),
        [] => false,
    }
}

/// The key at the front (section 4.2.3.3).
#[tactic(auto, using(crate::proofs::Runs::key_none, crate::proofs::Runs::key_some))]
fn key(bytes: &[u8]) -> Option<(Lent<'_>, &[u8])>
    ensures { option_map (λ x. (x.0, x.1.now)) result ≡ key_at bytes.now }
{
    if !begins_key(bytes) {
        return None;
    }
    let (key, rest) = run(Class::Key, bytes);
    Some((Lent::of(key), rest))
}

/// The bytes of a byte sequence behind its opening colon (section 4.2.7).
#[tactic(auto, unfolding(crate::specs::Reading::binary_at))]
fn binary(bytes: &[u8]) -> Option<(Lent<'_>, &[u8])>
    ensures { option_map (λ x. (x.0, x.1.now)) result ≡ binary_at bytes.now }
{
    let (binary, rest) = run(Class::Base64, bytes);
    let rest = behind(b':', rest)?;
    Some((Lent::of(binary), rest))
}

/// The truth value behind a question mark (section 4.2.8).
fn truth(bytes: &[u8]) -> Option<(bool, &[u8])>
    ensures { option_map (λ x. (x.0, x.1.now)) result ≡ truth_at bytes.now }
{
    let (first, rest) = bytes.split_first()?;
    match *first {
        b'1' => Some((true, rest)),
        b'0' => Some((false, rest)),
        _ => None,
    }
}

/// The bare item at the front, told by its first byte (section 4.2.3.1).
#[tactic(auto, unfolding(crate::specs::Reading::bare_at))]
fn bare(alloc: Global, bytes: &[u8]) -> Result<(Bare<'_>, &[u8]), Fault>
    ensures { Gives (λ x. (x.0, x.1.now)) result (bare_at bytes.now) }
{
    let Some((first, rest)) = bytes.split_first() else {
        return Err(Fault::Malformed);
    };
    if *first == b'"' {
        let (text, rest) = text(alloc, rest)?;
        return Ok((Bare::Text(text), rest));
    }
    if *first == b':' {
        let (binary, rest) = binary(rest).ok_or(Fault::Malformed)?;
        return Ok((Bare::Binary(binary), rest));
    }
    if *first == b'?' {
        let (truth, rest) = truth(rest).ok_or(Fault::Malformed)?;
        return Ok((Bare::Truth(truth), rest));
    }
    if is_token_start(*first) {
        let (token, rest) = run(Class::Token, bytes);
        return Ok((Bare::Token(Lent::of(token)), rest));
    }
    if *first == b'-' {
        return number(true, rest).ok_or(Fault::Malformed);
    }
    number(false, bytes).ok_or(Fault::Malformed)
}

/// The value of a parameter, true where none is given.
#[tactic(auto, unfolding(crate::specs::Reading::given_at))]
fn given(alloc: Global, bytes: &[u8]) -> Result<(Bare<'_>, &[u8]), Fault>
    ensures { Gives (λ x. (x.0, x.1.now)) result (given_at bytes.now) }
{
    match behind(b'=', bytes) {
        None => Ok((Bare::Truth(true), bytes)),
        Some(rest) => bare(alloc, rest),
    }
}

/// The parameter at the front, with its semicolon.
#[tactic(auto, unfolding(crate::specs::Reading::param_at))]
fn param(alloc: Global, bytes: &[u8]) -> Result<(Param<'_>, &[u8]), Fault>
    ensures { Gives (λ x. (x.0, x.1.now)) result (param_at bytes.now) }
{
    let Some(rest) = behind(b';', bytes) else {
        return Err(Fault::Malformed);
    };
    let (key, rest) = key(skip(Class::Space, rest)).ok_or(Fault::Malformed)?;
    let (value, rest) = given(alloc, rest)?;
    Ok((Param { key, value }, rest))
}

/// The parameters at the front, as many as there are (section 4.2.3.2).
fn params(alloc: Global, bytes: &[u8]) -> Result<(Params<'_>, &[u8]), Fault>
    ensures { Gives (λ x. (x.0, x.1.now)) result (Some (params_at bytes.now)) }
{
    let mut params = Vec::new(alloc);
    let mut rest = bytes;
    'params: loop {
        match param(alloc, rest) {
            Ok((param, after)) => {
                params.push(param)?;
                rest = after;
            }
            Err(Fault::Malformed) => return Ok((Params::of(params), rest)),
            Err(Fault::Memory) => return Err(Fault::Memory),
        }
    }
}

/// The item at the front (section 4.2.3).
#[tactic(auto, unfolding(crate::specs::Reading::item_at))]
fn item(alloc: Global, bytes: &[u8]) -> Result<(Item<'_>, &[u8]), Fault>
    ensures { Gives (λ x. (x.0, x.1.now)) result (item_at bytes.now) }
{
    let (bare, rest) = bare(alloc, bytes)?;
    let (params, rest) = params(alloc, rest)?;
    Ok((Item { bare, params }, rest))
}

/// A further item of an inner list, with the spaces before it.
#[tactic(auto, unfolding(crate::specs::Reading::next_item_at))]
fn next_item(alloc: Global, bytes: &[u8]) -> Result<(Item<'_>, &[u8]), Fault>
    ensures { Gives (λ x. (x.0, x.1.now)) result (next_item_at bytes.now) }
{
    let Some(rest) = behind(b' ', bytes) else {
        return Err(Fault::Malformed);
    };
    item(alloc, skip(Class::Space, rest))
}

/// The first item and those behind it, as many as there are.
fn items_from<'a>(
    alloc: Global,
    first: Item<'a>,
    bytes: &'a [u8],
) -> Result<(Items<'a>, &'a [u8]), Fault>
    ensures { Gives (λ x. (x.0, x.1.now)) result (Some (items_from (first.entry, bytes.now))) }
{
    let mut items = Vec::new(alloc);
    items.push(first)?;
    let mut rest = bytes;
    'items: loop {
        match next_item(alloc, rest) {
            Ok((item, after)) => {
                items.push(item)?;
                rest = after;
            }
            Err(Fault::Malformed) => return Ok((Items::of(items), rest)),
            Err(Fault::Memory) => return Err(Fault::Memory),
        }
    }
}

/// The items of an inner list, none or some.
#[tactic(auto, unfolding(crate::specs::Reading::items_at))]
fn items(alloc: Global, bytes: &[u8]) -> Result<(Items<'_>, &[u8]), Fault>
    ensures { Gives (λ x. (x.0, x.1.now)) result (Some (items_at bytes.now)) }
{
    match item(alloc, bytes) {
        Ok((first, rest)) => items_from(alloc, first, rest),
        Err(Fault::Malformed) => Ok((Items::of(Vec::new(alloc)), bytes)),
        Err(Fault::Memory) => Err(Fault::Memory),
    }
}

/// The inner list behind its opening parenthesis (section 4.2.1.2).
#[tactic(auto, unfolding(crate::specs::Reading::inner_at))]
fn inner(alloc: Global, bytes: &[u8]) -> Result<(Items<'_>, &[u8]), Fault>
    ensures { Gives (λ x. (x.0, x.1.now)) result (inner_at bytes.now) }
{
    let (items, rest) = items(alloc, skip(Class::Space, bytes))?;
    let Some(rest) = behind(b')', skip(Class::Space, rest)) else {
        return Err(Fault::Malformed);
    };
    Ok((items, rest))
}

/// The inner list or bare item at the front.
#[tactic(auto, unfolding(crate::specs::Reading::listed_at))]
fn listed(alloc: Global, bytes: &[u8]) -> Result<(Value<'_>, &[u8]), Fault>
    ensures { Gives (λ x. (x.0, x.1.now)) result (listed_at bytes.now) }
{
    let Some(rest) = behind(b'(', bytes) else {
        let (bare, rest) = bare(alloc, bytes)?;
        return Ok((Value::Item(bare), rest));
    };
    let (items, rest) = inner(alloc, rest)?;
    Ok((Value::Inner(items), rest))
}

/// The value of a member, true where none is given.
#[tactic(auto, unfolding(crate::specs::Reading::value_at))]
fn value(alloc: Global, bytes: &[u8]) -> Result<(Value<'_>, &[u8]), Fault>
    ensures { Gives (λ x. (x.0, x.1.now)) result (value_at bytes.now) }
{
    match behind(b'=', bytes) {
        None => Ok((Value::Item(Bare::Truth(true)), bytes)),
        Some(rest) => listed(alloc, rest),
    }
}

/// The member at the front, with its key.
#[tactic(auto, unfolding(crate::specs::Reading::member_at))]
fn member(alloc: Global, bytes: &[u8]) -> Result<((Lent<'_>, Member<'_>), &[u8]), Fault>
    ensures { Gives (λ x. (x.0, x.1.now)) result (member_at bytes.now) }
{
    let (key, rest) = key(bytes).ok_or(Fault::Malformed)?;
    let (value, rest) = value(alloc, rest)?;
    let (params, rest) = params(alloc, rest)?;
    Ok(((key, Member { value, params }), rest))
}

/// A further member, with the comma before it.
#[tactic(auto, unfolding(crate::specs::Reading::next_member_at))]
fn next_member(alloc: Global, bytes: &[u8]) -> Result<((Lent<'_>, Member<'_>), &[u8]), Fault>
    ensures { Gives (λ x. (x.0, x.1.now)) result (next_member_at bytes.now) }
{
    let Some(rest) = behind(b',', skip(Class::White, bytes)) else {
        return Err(Fault::Malformed);
    };
    member(alloc, skip(Class::White, rest))
}

/// The bytes that a member with its comma takes about, by which room is taken ahead.
const MEMBER_LENGTH: usize = 16;

/// For how many members there is room ahead at most: few headers name more features than there are.
const MEMBERS_AHEAD: usize = 16;

/// The first member and those behind it, as many as there are.
fn members_from<'a>(
    alloc: Global,
    first: (Lent<'a>, Member<'a>),
    bytes: &'a [u8],
) -> Result<(Vec<(Lent<'a>, Member<'a>)>, &'a [u8]), Fault>
    ensures { Gives (λ x. (x.0.items, x.1.now)) result (Some (members_from (first.entry, bytes.now))) }
{
    let ahead = (bytes.len() / MEMBER_LENGTH + 1).min(MEMBERS_AHEAD);
    let mut members = Vec::with_capacity(alloc, ahead)?;
    members.push(first)?;
    let mut rest = bytes;
    'members: loop {
        match next_member(alloc, rest) {
            Ok((member, after)) => {
                members.push(member)?;
                rest = after;
            }
            Err(Fault::Malformed) => return Ok((members, rest)),
            Err(Fault::Memory) => return Err(Fault::Memory),
        }
    }
}

/// The members of a whole text (section 4.2.2).
#[tactic(auto, unfolding(crate::specs::Reading::dictionary, crate::specs::Reading::members_of))]
pub fn dictionary(alloc: Global, bytes: &[u8]) -> Result<Vec<(Lent<'_>, Member<'_>)>, Fault>
    ensures { Gives (λ v. v.items) result (dictionary bytes.now) }
{
    let listed = skip(Class::Space, bytes);
    if listed.is_empty() {
        return Ok(Vec::new(alloc));
    }
    let (first, rest) = member(alloc, listed)?;
    let (members, rest) = members_from(alloc, first, rest)?;
    if !skip(Class::White, rest).is_empty() {
        return Err(Fault::Malformed);
    }
    Ok(members)
}
