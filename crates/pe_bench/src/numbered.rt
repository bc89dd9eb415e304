//! Positions, keys and documents that are told apart by a number.
ghost use Rattle.std.specs.Prelude.{◌≤◌};

use pe_arena::{DocRef, Handle};
use pe_base::{DocNo, EVENT_LIMIT};
use pe_origin::Origin;
use pe_store::Key;

/// A number from 1 to the greatest position, for each number.
pub fn position(number: u32) -> u32
    ensures low { 1 ≤ result }
    ensures high { result ≤ EVENT_LIMIT }
{
    number % EVENT_LIMIT + 1
}

/// The key of a pair: an opaque origin's.
pub fn key(pair: u32) -> Key {
    Key::One(Origin::Opaque(DocNo::of(position(pair))))
}

/// The top document of a page.
pub fn document(page: u32) -> DocRef {
    DocRef {
        at: Handle {
            slot: page,
            generation: 0,
        },
        doc: DocNo::of(position(page)),
    }
}
