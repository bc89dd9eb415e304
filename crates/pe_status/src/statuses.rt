//! The permission statuses.
ghost use Rattle.std.specs.Prelude.{◌≡◌, ◌↔◌, ◌≤◌, ◌<◌, ◌+◌, ◌==◌, ℕ, cond, [], ◌∷◌, ◌++◌, IfOk, IfSome, OnOk, OnErr, OnSome, None, Some, Err, option_copied};
ghost use Rattle.std.specs.Result.{result_err};
ghost use Rattle.pe_base.specs.declared.limits.TheConstants.{STATUS_LIMIT};
ghost use Rattle.pe_status.specs.Registry.{status_of, count_of_page, release_fault, later_under, next_under, without, without_document, unless_of, AreBelow, IsInOrder};
ghost use Rattle.pe_status.specs.Kept.{IsOneOf};

use crate::giving::{Given, pair_given};
use crate::index::{Index, end, enter, first_of};
use crate::place::Place;
use crate::registered::{Registered, ReleaseFault, StatusFault};
use crate::walk::{Walk, walk_group};
use pe_arena::DocRef;
use pe_base::{DocNo, FrameNo, STATUS_LIMIT, StatusNo, Steps};
use pe_features::Feature;
use pe_store::{Key, same_pairs_are_one};
use std::alloc::Global;
use std::marker::Model;
use std::sync::ledger::Ledger;

/// The permission statuses that are live. They are found by their numbers, by the pair of feature and
/// permission key that they show, and by their documents; each of these costs a logarithm of how many
/// there are, or were registered.
#[derive(Drop)]
pub struct Statuses {
    given: Vec<Given>,
    index: Index,
}

impl Model for Statuses {
    ghost use Rattle.pe_status.specs.Registry.{Registry};

    ghost Value = { Registry };

    ghost use Rattle.pe_status.specs.Kept.{live_rows, numbers, IsIndex};
    ghost use Rattle.pe_status.specs.Places.{value_at};

    ghost view = { λ s. record { live = live_rows (value_at s.index.rows) s.given.items; given = numbers s.given.items } };

    ghost invariant = { λ s. IsIndex s.given.items s.index };
}

impl Statuses {
    /// No status.
    pub fn new(alloc: Global) -> Statuses
        ensures { result ≡ record { live = []; given = [] } }
    {
        Statuses {
            given: Vec::new(alloc),
            index: Index::new(alloc),
        }
    }

    /// How many live statuses the page has.
    pub fn live(&self, page: FrameNo) -> u32
        ensures value { result ≡ count_of_page page self.now.live }
        ensures bound { result ≤ STATUS_LIMIT }
    {
        self.index.pages.get(page)
    }

    /// The live status of this number. The refusals are those of `release`.
    pub fn find(&self, no: StatusNo) -> Result<&Registered, ReleaseFault>
        ensures found { IfOk result (λ r. status_of self.now.live no ≡ Some r.now) }
        ensures fault { result_err result ≡ release_fault self.now no }
        ensures order { IsInOrder self.now.live }
    {
        let Some(group) = pair_given(&self.given, no.get()) else {
            return Err(ReleaseFault::Unknown);
        };
        let place = Place {
            group,
            no: no.get(),
        };
        match self.index.rows.get(&place) {
            Some(row) => Ok(row),
            None => Err(ReleaseFault::Closed),
        }
    }

    /// Registers a status of the document, which is live from then on. `TooMany` comes exactly where the
    /// page has 256 live ones.
    pub fn query(
        &mut self,
        no: StatusNo,
        page: FrameNo,
        doc: DocRef,
        feature: Feature,
        key: Key,
    ) -> Result<(), StatusFault>
        requires { AreBelow no self.old.given }
        ensures live { OnOk result (self.new.live ≡ self.old.live ++ record { no = no; page = page; doc = doc; feature = feature; key = key } ∷ []) }
        ensures given { OnOk result (self.new.given ≡ self.old.given ++ no ∷ []) }
        ensures found { OnOk result ((n : ℕ) → status_of self.new.live n ≡ cond (no == n) (Some (record { no = no; page = page; doc = doc; feature = feature; key = key })) (status_of self.old.live n)) }
        ensures count { OnOk result ((p : ℕ) → count_of_page p self.new.live ≡ cond (page == p) (count_of_page p self.old.live + 1) (count_of_page p self.old.live)) }
        ensures next { OnOk result ((k : ℕ) → no < k → AreBelow k self.new.given) }
        ensures too_many { (result ≡ Err StatusFault.TooMany) ↔ (count_of_page page self.old.live ≡ STATUS_LIMIT) }
        ensures err { OnErr result (self.new ≡ self.old) }
    {
        same_pairs_are_one();
        if self.index.pages.get(page) == STATUS_LIMIT {
            return Err(StatusFault::TooMany);
        }
        if self.given.reserve(1).is_err() {
            return Err(StatusFault::Memory);
        }
        let row = Registered {
            no,
            page,
            doc,
            feature,
            key,
        };
        let Ok(pair) = enter(&mut self.index, row) else {
            return Err(StatusFault::Memory);
        };
        self.given.push_reserved(Given { no: no.get(), pair });
        Ok(())
    }

    /// Ends the status. The refusals in order: `Unknown` exactly where no `query` had the number,
    /// `Closed` exactly where the status was released or its document went.
    pub fn release(&mut self, no: StatusNo) -> Result<(), ReleaseFault>
        ensures live { self.new.live ≡ without no self.old.live }
        ensures given { self.new.given ≡ self.old.given }
        ensures found { (n : ℕ) → status_of self.new.live n ≡ cond (no == n) None (status_of self.old.live n) }
        ensures count { IfSome (status_of self.old.live no) (λ r. (p : ℕ) → count_of_page p self.old.live ≡ cond (r.page == p) (count_of_page p self.new.live + 1) (count_of_page p self.new.live)) }
        ensures fault { result_err result ≡ release_fault self.old no }
        ensures err { OnErr result (self.new ≡ self.old) }
    {
        match self.end(no.get()) {
            Some(fault) => Err(fault),
            None => Ok(()),
        }
    }

    // Ends the status of this number, and says why there is none.
    fn end(&mut self, no: u32) -> Option<ReleaseFault>
        ensures live { self.new.live ≡ without no self.old.live }
        ensures given { self.new.given ≡ self.old.given }
        ensures found { (n : ℕ) → status_of self.new.live n ≡ cond (no == n) None (status_of self.old.live n) }
        ensures count { IfSome (status_of self.old.live no) (λ r. (p : ℕ) → count_of_page p self.old.live ≡ cond (r.page == p) (count_of_page p self.new.live + 1) (count_of_page p self.new.live)) }
        ensures fault { result ≡ release_fault self.old no }
        ensures same { OnSome result (self.new ≡ self.old) }
    {
        same_pairs_are_one();
        let Some(group) = pair_given(&self.given, no) else {
            return Some(ReleaseFault::Unknown);
        };
        if end(&mut self.index, Place { group, no }) {
            None
        } else {
            Some(ReleaseFault::Closed)
        }
    }

    // The number of a live status of the document, if it has one.
    fn first_of(&self, doc: DocNo) -> Option<u32>
        ensures one { IsOneOf self.now.live doc result }
        ensures order { IsInOrder self.now.live }
    {
        first_of(&self.index.owned, doc)
    }

    /// Ends the statuses of the document. It costs as many steps as the document has live ones.
    pub fn gone(&mut self, doc: DocNo)
        ensures live { self.new.live ≡ without_document doc self.old.live }
        ensures given { self.new.given ≡ self.old.given }
        ensures found { (n : ℕ) → status_of self.new.live n ≡ unless_of doc (status_of self.old.live n) }
    {
        while let Some(no) = self.first_of(doc) {
            let _ = self.end(no);
        }
    }

    /// The live statuses of the pair with numbers above `after`, by rising number. One tick, however
    /// many are taken from the walk.
    pub fn walk<'s, L: Ledger>(
        &'s self,
        feature: Feature,
        key: &Key,
        after: Option<StatusNo>,
        steps: &mut Steps<L>,
    ) -> Walk<'s>
        ensures value { result ≡ later_under (feature, key.now) after self.now.live }
        ensures order { IsInOrder self.now.live }
        ensures cost { steps.new ≡ steps.old + 1 }
    {
        same_pairs_are_one();
        steps.tick();
        walk_group(
            &self.index.rows,
            self.index.pairs.number(feature, key),
            after,
        )
    }

    /// The live status of the pair with the least number above `after`. One tick.
    pub fn touched<'s, L: Ledger>(
        &'s self,
        feature: Feature,
        key: &Key,
        after: Option<StatusNo>,
        steps: &mut Steps<L>,
    ) -> Option<&'s Registered>
        ensures value { option_copied result ≡ next_under (feature, key.now) after self.now.live }
        ensures order { IsInOrder self.now.live }
        ensures cost { steps.new ≡ steps.old + 1 }
    {
        self.walk(feature, key, after, steps).next()
    }
}
