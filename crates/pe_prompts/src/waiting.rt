//! The requests that wait for a prompt.
ghost use Rattle.std.specs.Prelude.{◌≡◌, ◌++◌, ◌==◌, ◌≤◌, ◌+◌, [], ◌∷◌, OnOk, OnErr, IfOk, IsTrue, ◌↔◌, length, option_to_list};
ghost use Rattle.pe_prompts.specs.Requests.{somes, without, holds, cleared, cleared_count, IsWaiting};

use crate::place::{Place, note_place, take_first};
use pe_arena::DocRef;
use pe_base::DocNo;
use std::alloc::{AllocError, Global};
use std::collections::BTreeSet;
use std::marker::Model;

/// The requests that wait for a prompt, in order of joining. Each is named by its document, which stands
/// once for each of its requests.
#[derive(Drop)]
pub struct Waiting {
    // The requests in order of joining, with None in the place of each whose document went.
    requests: Vec<Option<DocRef>>,
    // The places of the requests of each document.
    places: BTreeSet<Place>,
    // How many wait.
    count: usize,
}

impl Model for Waiting {
    ghost use Rattle.std.specs.Prelude.{List};
    ghost use Rattle.pe_arena.specs.declared.handle.DocRef.{DocRef};

    ghost Value = { List DocRef };

    ghost use Rattle.pe_prompts.specs.Requests.{somes, IsWaiting};

    ghost view = { λ w. somes w.requests.items };

    ghost invariant = { λ w. IsWaiting w.requests.items w.places w.count };
}

// Puts the request of a place, if there is one, behind the others. `AllocError` where memory wants.
fn put_request(place: &Option<DocRef>, out: &mut Vec<DocRef>) -> Result<(), AllocError>
    ensures { OnOk result (out.new.items ≡ out.old.items ++ option_to_list place.now) }
{
    if let Some(request) = *place {
        out.push(request)?;
    }
    Ok(())
}

// Whether a request of the document stands at the place.
fn holds(place: &Option<DocRef>, doc: DocNo) -> bool
    ensures { result ≡ holds doc place.now }
{
    match place {
        Some(request) => doc == request.doc,
        None => false,
    }
}

// Takes the request at the place out, if it is the document's, and says how many that were.
fn clear_place(requests: &mut Vec<Option<DocRef>>, place: usize, doc: DocNo) -> usize
    ensures cleared { requests.new.items ≡ cleared doc requests.old.items place }
    ensures count { result ≡ cleared_count doc requests.old.items place }
{
    if place >= requests.len() {
        return 0;
    }
    if !holds(&requests[place], doc) {
        return 0;
    }
    requests[place] = None;
    1
}

// Takes the document's requests out, at its places, and counts those that are left.
fn clear_all(
    requests: &mut Vec<Option<DocRef>>,
    places: &mut BTreeSet<Place>,
    count: &mut usize,
    doc: DocNo,
)
    requires { IsWaiting requests.old.items places.old count.old }
    ensures cleared { somes requests.new.items ≡ without doc (somes requests.old.items) }
    ensures waiting { IsWaiting requests.new.items places.new count.new }
{
    while let Some(place) = take_first(places, doc) {
        *count -= clear_place(requests, place, doc);
    }
}

impl Waiting {
    // No request.
    pub(crate) fn new(alloc: Global) -> Waiting
        ensures { result ≡ [] }
    {
        Waiting {
            requests: Vec::new(alloc),
            places: BTreeSet::new(alloc),
            count: 0,
        }
    }

    /// How many requests wait.
    pub fn len(&self) -> usize
        ensures { result ≡ length self.now }
    {
        self.count
    }

    /// Whether none waits.
    pub fn is_empty(&self) -> bool
        ensures { IsTrue result ↔ (self.now ≡ []) }
    {
        self.count == 0
    }

    /// The requests, in order of joining. `AllocError` where memory wants.
    pub fn copied(&self) -> Result<Vec<DocRef>, AllocError>
        ensures { IfOk result (λ requests. requests.items ≡ self.now) }
    {
        let mut waiting = Vec::new(*self.requests.allocator());
        for request in &self.requests {
            put_request(request, &mut waiting)?;
        }
        Ok(waiting)
    }

    // Puts a request behind the others.
    pub(crate) fn push(&mut self, asker: DocRef) -> Result<(), AllocError>
        ensures ok { OnOk result (self.new ≡ self.old ++ asker ∷ []) }
        ensures err { OnErr result (self.new ≡ self.old) }
    {
        self.requests.reserve(1)?;
        let place = self.requests.len();
        note_place(&mut self.places, asker.doc, place)?;
        self.requests.push_reserved(Some(asker));
        self.count += 1;
        Ok(())
    }

    // Drops the requests of a document.
    pub(crate) fn drop_of(&mut self, doc: DocNo)
        ensures { self.new ≡ without doc self.old }
    {
        clear_all(&mut self.requests, &mut self.places, &mut self.count, doc);
    }
}
