//! Where a status stands among those of its pair, or of its document.
ghost use Rattle.std.specs.Prelude.{◌≡◌, ◌<◌, ◌^◌, ◌+◌, ◌==◌, ◌&&◌, ◌||◌, None, Some, false, cond, IfErr, OnOk, OnErr};
ghost use Rattle.pe_status.specs.Places.{place, value_at, is_taken};

use crate::registered::Registered;
use std::alloc::AllocError;
use std::collections::{BTreeMap, BTreeSet};
use std::ops::Range;

/// A status within a group of statuses. The groups stand by their numbers, and the statuses of a group
/// by theirs.
#[derive(Clone, Copy, PartialEq, Eq, PartialOrd, Ord)]
pub(crate) struct Place {
    pub group: u64,
    pub no: u32,
}

impl Place {
    /// The place of a status among those of its pair, which has this number.
    pub(crate) fn in_group(group: u64, row: &Registered) -> Place
        ensures { result ≡ place group row.now.no }
    {
        Place {
            group,
            no: row.no.get(),
        }
    }

    /// The place of a status among those of its document.
    pub(crate) fn of_document(row: &Registered) -> Place
        ensures { result ≡ place row.now.doc.doc row.now.no }
    {
        Place {
            group: u64::from(row.doc.doc.get()),
            no: row.no.get(),
        }
    }
}

// The places of a group from this number on.
pub(crate) fn group_from(group: u64, no: u32) -> Range<Place>
    requires { group + 1 < 2 ^ 64 }
    ensures start { result.start ≡ place group no }
    ensures end { result.end ≡ place (group + 1) 0 }
{
    Place { group, no }..Place {
        group: group + 1,
        no: 0,
    }
}

// Takes the place.
pub(crate) fn take_place(taken: &mut BTreeSet<Place>, place: Place) -> Result<(), AllocError>
    ensures ok { OnOk result ((g n : _) → is_taken taken.new g n ≡ (place.group == g && place.no == n) || is_taken taken.old g n) }
    ensures err { OnErr result ((g n : _) → is_taken taken.new g n ≡ is_taken taken.old g n) }
{
    taken.insert(place)?;
    Ok(())
}

// Frees the place.
pub(crate) fn free_place(taken: &mut BTreeSet<Place>, place: Place)
    ensures { (g n : _) → is_taken taken.new g n ≡ cond (place.group == g && place.no == n) false (is_taken taken.old g n) }
{
    taken.remove(&place);
}

// Puts the status at the place. It is handed back where memory wants.
pub(crate) fn put_row(
    rows: &mut BTreeMap<Place, Registered>,
    place: Place,
    row: Registered,
) -> Result<(), Registered>
    ensures ok { OnOk result ((g n : _) → value_at rows.new g n ≡ cond (place.group == g && place.no == n) (Some row) (value_at rows.old g n)) }
    ensures err { OnErr result ((g n : _) → value_at rows.new g n ≡ value_at rows.old g n) }
    ensures back { IfErr result (λ r. r ≡ row) }
{
    match rows.insert(place, row) {
        Ok(old) => {
            let_go(old);
            Ok(())
        }
        Err(refused) => {
            let (_, row) = refused.value;
            Err(row)
        }
    }
}

// Lets go of what is there.
fn let_go(row: Option<Registered>) {}

// Takes the status at the place out.
pub(crate) fn take_row(rows: &mut BTreeMap<Place, Registered>, place: Place) -> Option<Registered>
    ensures value { result ≡ value_at rows.old place.group place.no }
    ensures rest { (g n : _) → value_at rows.new g n ≡ cond (place.group == g && place.no == n) None (value_at rows.old g n) }
{
    rows.remove(&place)
}
