//! Where the requests of a document wait.
ghost use Rattle.std.specs.Prelude.{◌≡◌, ◌+◌, ◌&&◌, ◌||◌, nat_eq, cond, length, None, Some, true, false, IfSome, IfNone, OnOk, OnErr};
ghost use Rattle.pe_prompts.specs.Places.{place, is_noted, IsFirstOf};

use pe_base::DocNo;
use std::alloc::AllocError;
use std::collections::BTreeSet;

// A place of a request. The places of a document stand side by side.
#[derive(Clone, Copy, PartialEq, Eq, PartialOrd, Ord)]
pub(crate) struct Place {
    // The number of the document.
    pub doc: u64,
    // Behind how many requests it stands.
    pub at: usize,
}

// Notes that a request of the document stands at the place. `AllocError` where memory wants.
pub(crate) fn note_place(
    places: &mut BTreeSet<Place>,
    doc: DocNo,
    at: usize,
) -> Result<(), AllocError>
    ensures ok { OnOk result ((d i : _) → is_noted places.new d i ≡ (nat_eq doc d && nat_eq at i) || is_noted places.old d i) }
    ensures err { OnErr result ((d i : _) → is_noted places.new d i ≡ is_noted places.old d i) }
{
    places.insert(Place {
        doc: u64::from(doc.get()),
        at,
    })?;
    Ok(())
}

// The first place of the document, if it has one.
fn first_of(places: &BTreeSet<Place>, doc: DocNo) -> Option<usize>
    ensures { IsFirstOf places.now doc result }
{
    let doc = u64::from(doc.get());
    let mut own = places.range(
        Place { doc, at: 0 }..Place {
            doc: doc + 1,
            at: 0,
        },
    );
    match own.next() {
        Some(place) => Some(place.at),
        None => None,
    }
}

// Takes the first place of the document out, if it has one.
pub(crate) fn take_first(places: &mut BTreeSet<Place>, doc: DocNo) -> Option<usize>
    ensures none { IfNone result ((i : _) → is_noted places.old doc i ≡ false) }
    ensures same { IfNone result (places.new ≡ places.old) }
    ensures rest { IfSome result (λ at. (d i : _) → is_noted places.new d i ≡ cond (nat_eq doc d && nat_eq at i) false (is_noted places.old d i)) }
    ensures fewer { IfSome result (λ at. length places.new.keys + 1 ≡ length places.old.keys) }
{
    let at = first_of(places, doc)?;
    places.remove(&Place {
        doc: u64::from(doc.get()),
        at,
    });
    Some(at)
}
