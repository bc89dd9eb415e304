//! Where the live statuses are found.
ghost use Rattle.std.specs.Prelude.{◌≡◌, ◌≢◌, ◌<◌, ◌+◌, ◌^◌, None, Some, false, IfOk, IfErr, IfSome, OnOk, OnErr, IsTrue, cond, is_some, unwrap_or};
ghost use Rattle.pe_base.specs.declared.limits.TheConstants.{STATUS_LIMIT};
ghost use Rattle.pe_status.specs.Places.{value_at, is_taken};
ghost use Rattle.pe_counts.specs.Counts.{count_of};
ghost use Rattle.pe_status.specs.Registry.{pair_of};
ghost use Rattle.pe_status.specs.Kept.{IsAlike, IsWith, IsWithout, IsFreed, IsLeft, IsPut, IsFirstOf, number_for};
ghost use Rattle.pe_store.specs.Pairs.{is_same_pair};
ghost use Rattle.pe_store.specs.Numbers.{number_of};

use crate::place::{Place, free_place, group_from, put_row, take_place, take_row};
use crate::registered::Registered;
use pe_base::DocNo;
use pe_counts::PageCounts;
use pe_store::{PairNumbers, same_pairs_are_one};
use std::alloc::{AllocError, Global};
use std::collections::{BTreeMap, BTreeSet};

/// The live statuses, under the numbers of their pairs and their own; the numbers of the pairs; the
/// live statuses of each document; and how many each page has.
#[derive(Drop)]
pub(crate) struct Index {
    pub rows: BTreeMap<Place, Registered>,
    pub pairs: PairNumbers,
    pub owned: BTreeSet<Place>,
    pub pages: PageCounts,
}

impl Index {
    /// No status.
    pub(crate) fn new(alloc: Global) -> Index
        ensures rows { (g n : _) → value_at result.rows g n ≡ None }
        ensures pairs { (x : _) → number_of result.pairs x ≡ None }
        ensures owned { (d n : _) → is_taken result.owned d n ≡ false }
        ensures pages { (p : _) → count_of result.pages p ≡ 0 }
    {
        Index {
            rows: BTreeMap::new(alloc),
            pairs: PairNumbers::new(alloc),
            owned: BTreeSet::new(alloc),
            pages: PageCounts::new(alloc),
        }
    }
}

// The number of the status's pair. One that has none takes the number of the status.
fn number_pair(pairs: &mut PairNumbers, row: &Registered) -> Result<u64, AllocError>
    ensures value { IfOk result (λ group. group ≡ unwrap_or (number_of pairs.old (pair_of row.now)) row.now.no) }
    ensures ok { IfOk result (λ group. (x : _) → number_of pairs.new x ≡ cond (is_same_pair (pair_of row.now) x) (Some group) (number_of pairs.old x)) }
    ensures err { OnErr result ((x : _) → number_of pairs.new x ≡ number_of pairs.old x) }
{
    same_pairs_are_one();
    if let Some(group) = pairs.number(row.feature, &row.key) {
        return Ok(group);
    }
    let group = u64::from(row.no.get());
    pairs.put(row.feature, row.key.copy()?, group)?;
    Ok(group)
}

// Puts the status under its pair's number, under its document's, and counts it. It is handed back where
// memory wants.
fn put(
    rows: &mut BTreeMap<Place, Registered>,
    owned: &mut BTreeSet<Place>,
    pages: &mut PageCounts,
    group: u64,
    row: Registered,
) -> Result<(), Registered>
    requires room { count_of pages.old row.page < STATUS_LIMIT }
    requires unowned { is_taken owned.old row.doc.doc row.no ≡ false }
    ensures ok { OnOk result (IsPut row group rows.old rows.new owned.old owned.new pages.old pages.new) }
    ensures err { OnErr result (IsLeft rows.old rows.new owned.old owned.new pages.old pages.new) }
    ensures back { IfErr result (λ r. r ≡ row) }
{
    let page = row.page;
    let own = Place::of_document(&row);
    let place = Place::in_group(group, &row);
    if take_place(owned, own).is_err() {
        return Err(row);
    }
    if pages.add(page).is_err() {
        free_place(owned, own);
        return Err(row);
    }
    let done = put_row(rows, place, row);
    if done.is_err() {
        free_place(owned, own);
        pages.take(page);
    }
    done
}

// Takes the status's pair's number away, where it had none before.
fn unnumber(pairs: &mut PairNumbers, had: bool, row: &Registered)
    ensures kept { IsTrue had → pairs.new ≡ pairs.old }
    ensures freed { had ≡ false → (x : _) → number_of pairs.new x ≡ cond (is_same_pair (pair_of row.now) x) None (number_of pairs.old x) }
{
    if !had {
        pairs.remove(row.feature, &row.key);
    }
}

/// Puts a status into the index, and gives the number of its pair.
pub(crate) fn enter(index: &mut Index, row: Registered) -> Result<u64, AllocError>
    requires room { count_of index.old.pages row.page < STATUS_LIMIT }
    requires unowned { is_taken index.old.owned row.doc.doc row.no ≡ false }
    ensures group { IfOk result (λ group. group ≡ number_for index.old row) }
    ensures with { IfOk result (λ group. IsWith row group index.old index.new) }
    ensures err { OnErr result (IsAlike index.old index.new) }
{
    same_pairs_are_one();
    let had = index.pairs.number(row.feature, &row.key).is_some();
    let group = number_pair(&mut index.pairs, &row)?;
    match put(
        &mut index.rows,
        &mut index.owned,
        &mut index.pages,
        group,
        row,
    ) {
        Ok(()) => Ok(group),
        Err(row) => {
            unnumber(&mut index.pairs, had, &row);
            let_go(row);
            Err(AllocError)
        }
    }
}

// Lets go of a status that is there no more.
fn let_go(row: Registered) {}

// Whether no status stands under the number of a pair.
fn is_unused(rows: &BTreeMap<Place, Registered>, group: u64) -> bool
    requires { group + 1 < 2 ^ 64 }
    ensures { IsTrue result → (n : _) → value_at rows.now group n ≡ None }
{
    rows.range(group_from(group, 0)).next().is_none()
}

// Takes the number of the status's pair away, where no status stands under it.
fn free_pair(
    rows: &BTreeMap<Place, Registered>,
    pairs: &mut PairNumbers,
    group: u64,
    row: &Registered,
)
    requires { group + 1 < 2 ^ 64 }
    ensures { IsFreed row.now group rows.now pairs.old pairs.new }
{
    same_pairs_are_one();
    if is_unused(rows, group) {
        pairs.remove(row.feature, &row.key);
    }
}

/// Takes the status at the place out of the index, and says whether there was one.
pub(crate) fn end(index: &mut Index, place: Place) -> bool
    requires group { IfSome (value_at index.old.rows place.group place.no) (λ r. place.group + 1 < 2 ^ 64) }
    requires own { IfSome (value_at index.old.rows place.group place.no) (λ r. r.no ≡ place.no) }
    ensures found { result ≡ is_some (value_at index.old.rows place.group place.no) }
    ensures without { IfSome (value_at index.old.rows place.group place.no) (λ r. IsWithout r place.group index.old index.new) }
    ensures same { value_at index.old.rows place.group place.no ≡ None → IsAlike index.old index.new }
{
    let Some(row) = take_row(&mut index.rows, place) else {
        return false;
    };
    free_place(&mut index.owned, Place::of_document(&row));
    index.pages.take(row.page);
    free_pair(&index.rows, &mut index.pairs, place.group, &row);
    let_go(row);
    true
}

/// The number of a live status of the document, if it has one.
pub(crate) fn first_of(owned: &BTreeSet<Place>, doc: DocNo) -> Option<u32>
    ensures { IsFirstOf owned.now doc result }
{
    let mut places = owned.range(group_from(u64::from(doc.get()), 0));
    match places.next() {
        Some(place) => Some(place.no),
        None => None,
    }
}
