//! Places of entries, and what ends them.
ghost use Rattle.std.specs.Prelude.{◌≡◌, [], OnOk, OnErr};
ghost use Rattle.pe_store.specs.Places.{PutsOne, DropsOne, PutsEnd, DropsEnd, is_moment_of, is_page_of, same_life};

use crate::key::Life;
use std::alloc::{AllocError, Global};
use std::collections::BTreeSet;

// Where an entry stands: behind the entries of lower features, and of its feature behind those that are
// older.
#[derive(Clone, Copy, Debug, PartialEq, Eq, PartialOrd, Ord)]
pub(crate) struct Place {
    // The feature's number.
    pub(crate) feature: usize,
    // How many entries were made before it.
    pub(crate) serial: u64,
}

// What ends the entry at a place: a moment, or the document with this number.
#[derive(Clone, Copy, Debug, PartialEq, Eq, PartialOrd, Ord)]
pub(crate) struct Ending {
    // The moment in milliseconds, or the number of the document.
    pub(crate) by: u64,
    // The place.
    pub(crate) place: Place,
}

impl Ending {
    // The least of the endings by a number.
    pub(crate) fn first_by(by: u64) -> Ending
        ensures { result ≡ record { by = by; place = record { feature = 0; serial = 0 } } }
    {
        Ending {
            by,
            place: Place {
                feature: 0,
                serial: 0,
            },
        }
    }
}

// What ends the entries of a store, and where they stand.
#[derive(Drop)]
pub(crate) struct Endings {
    // The entries that a moment ends.
    pub(crate) moments: BTreeSet<Ending>,
    // The entries that hold while a top document is current.
    pub(crate) pages: BTreeSet<Ending>,
}

// One more ending.
fn put_one(endings: &mut BTreeSet<Ending>, by: u64, place: Place) -> Result<(), AllocError>
    ensures ok { OnOk result (PutsOne by place endings.old.keys endings.new.keys) }
    ensures err { OnErr result (endings.new.keys ≡ endings.old.keys) }
{
    endings.insert(Ending { by, place })?;
    Ok(())
}

// One ending less.
fn drop_one(endings: &mut BTreeSet<Ending>, by: u64, place: Place)
    ensures { DropsOne by place endings.old.keys endings.new.keys }
{
    endings.remove(&Ending { by, place });
}

impl Endings {
    // None.
    pub(crate) fn new(alloc: Global) -> Endings
        ensures moments { result.moments.keys ≡ [] }
        ensures pages { result.pages.keys ≡ [] }
    {
        Endings {
            moments: BTreeSet::new(alloc),
            pages: BTreeSet::new(alloc),
        }
    }
}

// Notes down what ends the entry with this life at a place.
pub(crate) fn put_end(endings: &mut Endings, life: Life, place: Place) -> Result<(), AllocError>
    ensures moments { OnOk result (PutsEnd is_moment_of life place endings.old.moments.keys endings.new.moments.keys) }
    ensures pages { OnOk result (PutsEnd is_page_of life place endings.old.pages.keys endings.new.pages.keys) }
    ensures moments_kept { OnErr result (endings.new.moments.keys ≡ endings.old.moments.keys) }
    ensures pages_kept { OnErr result (endings.new.pages.keys ≡ endings.old.pages.keys) }
{
    match life {
        Life::Forever => Ok(()),
        Life::Until(moment) => put_one(&mut endings.moments, moment, place),
        Life::Page(page) => put_one(&mut endings.pages, page.get() as u64, place),
    }
}

// Forgets what ends the entry with this life at a place.
pub(crate) fn drop_end(endings: &mut Endings, life: Life, place: Place)
    ensures moments { DropsEnd is_moment_of life place endings.old.moments.keys endings.new.moments.keys }
    ensures pages { DropsEnd is_page_of life place endings.old.pages.keys endings.new.pages.keys }
{
    match life {
        Life::Forever => {}
        Life::Until(moment) => drop_one(&mut endings.moments, moment, place),
        Life::Page(page) => drop_one(&mut endings.pages, page.get() as u64, place),
    }
}

// Whether the two lives are one.
pub(crate) fn ends_alike(old: Life, new: Life) -> bool
    ensures { result ≡ same_life old new }
{
    match old {
        Life::Forever => match new {
            Life::Forever => true,
            Life::Until(_) => false,
            Life::Page(_) => false,
        },
        Life::Until(moment) => match new {
            Life::Forever => false,
            Life::Until(other) => moment == other,
            Life::Page(_) => false,
        },
        Life::Page(page) => match new {
            Life::Forever => false,
            Life::Until(_) => false,
            Life::Page(other) => page.get() == other.get(),
        },
    }
}
