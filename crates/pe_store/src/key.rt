//! Keys and lives of settings.
ghost use Rattle.std.specs.Prelude.{◌≡◌, IfOk};

use pe_base::DocNo;
use pe_origin::Origin;
use std::alloc::AllocError;

/// Under what a permission is kept (W3C Permissions, "permission key").
#[derive(Debug, Drop, PartialEq, Eq, PartialOrd, Ord, Hash)]
pub enum Key {
    /// The origin of a page's top document.
    One(Origin),
    /// The origin of a page's top document, and that of the document that asks.
    Pair(Origin, Origin),
}

impl Key {
    /// An equal key of its own; `AllocError` where memory wants.
    pub fn copy(&self) -> Result<Key, AllocError>
        ensures { IfOk result (λ key. key ≡ self.now) }
    {
        match self {
            Key::One(origin) => Ok(Key::One(origin.copy()?)),
            Key::Pair(top, own) => Ok(Key::Pair(top.copy()?, own.copy()?)),
        }
    }
}

/// How long a setting holds (W3C Permissions, "lifetime").
#[derive(Clone, Copy, Debug, PartialEq, Eq)]
pub enum Life {
    /// It never ends.
    Forever,
    /// It holds at times below this one, in milliseconds.
    Until(u64),
    /// It holds while this top document is current.
    Page(DocNo),
}
