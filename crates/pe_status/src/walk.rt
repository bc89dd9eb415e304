//! A walk over the live statuses of a pair.
ghost use Rattle.std.specs.Prelude.{◌≡◌, ◌<◌, ◌^◌, ◌+◌, IfSome, length};
ghost use Rattle.std.specs.Iterator.{at_most};
ghost use Rattle.std.specs.Map.Iter.{TakesFirst, deref};
ghost use Rattle.std.specs.BTreeMap.{IsOrdered};
ghost use Rattle.pe_status.specs.Kept.{values_from, first_no};
ghost use Rattle.pe_status.specs.Places.{place_cmp};

use crate::place::{Place, group_from};
use crate::registered::Registered;
use pe_base::StatusNo;
use std::collections::BTreeMap;
use std::collections::btree_map::Range;
use std::iter::Iterator;
use std::marker::Model;

/// A walk over the live statuses of a pair, by rising number. Contracts see it as the list of those
/// that it has not given yet.
#[derive(Drop)]
pub struct Walk<'s> {
    rows: Range<'s, Place, Registered>,
}

impl<'s> Model for Walk<'s> {
    ghost use Rattle.std.specs.Prelude.{List};
    ghost use Rattle.std.specs.Map.{values_of};
    ghost use Rattle.pe_status.specs.declared.registered.Registered.{Registered};

    ghost Value = { List Registered };

    ghost view = { λ w. values_of w.rows };
}

impl<'s> Iterator for Walk<'s> {
    type Item = &'s Registered;

    ghost next_gives = { TakesFirst deref };

    ghost remaining = { λ s. at_most (length s) };

    /// The next status of the pair. It is found without a search.
    fn next(&mut self) -> Option<&'s Registered> {
        match self.rows.next() {
            Some((_, row)) => Some(row),
            None => None,
        }
    }
}

// The first number above this one, if there is one.
fn first_no(after: Option<StatusNo>) -> u32
    ensures value { result ≡ first_no after }
{
    match after {
        Some(no) => no.get() + 1,
        None => 0,
    }
}

// The statuses of the group with numbers above this one, if there is one; none where there is no group.
pub(crate) fn walk_group<'s>(
    rows: &'s BTreeMap<Place, Registered>,
    group: Option<u64>,
    after: Option<StatusNo>,
) -> Walk<'s>
    requires { IfSome group (λ g. g + 1 < 2 ^ 64) }
    ensures value { result ≡ values_from rows.now group (first_no after) }
    ensures order { IsOrdered place_cmp rows.now }
{
    let places = match group {
        Some(group) => group_from(group, first_no(after)),
        None => Place { group: 0, no: 0 }..Place { group: 0, no: 0 },
    };
    Walk {
        rows: rows.range(places),
    }
}
