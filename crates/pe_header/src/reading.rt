//! The allowlist of a member of a header.
ghost use Rattle.std.specs.Prelude.{◌≡◌, IfOk, OnOk, unwrap_or, is_some, option_map};
ghost use Rattle.std.specs.List.{fold};
ghost use Rattle.pe_origin.specs.declared.origin.Origin.{Origin};
ghost use Rattle.pe_allowlist.specs.DeclaredLists.{allowlist_of};
ghost use Rattle.pe_header.specs.DeclaredPolicy as spec;

use pe_allowlist::{DeclaredList, read_expression};
use pe_fields::{Bare, Item, Value};
use std::alloc::{AllocError, Global};

/// Puts into the list what a token stands for, and says whether it stands for something.
fn put_token(list: &mut DeclaredList, token: &[u8]) -> bool
    ensures known { (own : Origin) → result ≡ is_some (spec.with_token own (allowlist_of own list.old) token.now) }
    ensures list { (own : Origin)
        → allowlist_of own list.new
        ≡ unwrap_or (spec.with_token own (allowlist_of own list.old) token.now) (allowlist_of own list.old) }
{
    if token == b"*".as_slice() {
        list.any = true;
        return true;
    }
    if token == b"self".as_slice() {
        list.own = true;
        return true;
    }
    false
}

/// Puts into the list what a bare item stands for, and says whether it stands for something.
#[tactic(auto, unfolding(crate::specs::DeclaredPolicy::with_bare))]
fn put_bare(alloc: Global, list: &mut DeclaredList, bare: &Bare<'_>) -> Result<bool, AllocError>
    ensures known { IfOk result (λ known. (own : Origin)
        → known ≡ is_some (spec.with_bare own (allowlist_of own list.old) bare.now)) }
    ensures list { OnOk result ((own : Origin)
        → allowlist_of own list.new
        ≡ unwrap_or (spec.with_bare own (allowlist_of own list.old) bare.now) (allowlist_of own list.old)) }
{
    match bare {
        Bare::Token(token) => Ok(put_token(list, token.as_slice())),
        Bare::Text(text) => {
            if let Some(expression) = read_expression(alloc, text.as_slice())? {
                list.expressions.push(expression)?;
            }
            Ok(true)
        }
        Bare::Integer(_) | Bare::Decimal(_) | Bare::Binary(_) | Bare::Truth(_) => Ok(false),
    }
}

/// Puts into the list what the items of an inner list stand for.
fn put_items(alloc: Global, list: &mut DeclaredList, items: &[Item<'_>]) -> Result<(), AllocError>
    ensures { OnOk result ((own : Origin)
        → allowlist_of own list.new ≡ fold (spec.with_item own) (allowlist_of own list.old) items.now) }
{
    for item in items {
        put_bare(alloc, list, &item.bare)?;
    }
    Ok(())
}

/// The allowlist that a value declares; None where it declares none.
#[tactic(auto, unfolding(crate::specs::DeclaredPolicy::list_of_value))]
pub(crate) fn read_value(
    alloc: Global,
    value: &Value<'_>,
) -> Result<Option<DeclaredList>, AllocError>
    ensures { IfOk result (λ list. (own : Origin)
        → option_map (allowlist_of own) list ≡ spec.list_of_value own value.now) }
{
    let mut list = DeclaredList::empty(alloc);
    match value {
        Value::Item(bare) => {
            if !put_bare(alloc, &mut list, bare)? {
                return Ok(None);
            }
        }
        Value::Inner(items) => put_items(alloc, &mut list, items.as_slice())?,
    }
    Ok(Some(list))
}
