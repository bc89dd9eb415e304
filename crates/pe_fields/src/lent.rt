//! Bytes that are lent from the field.
ghost use Rattle.std.specs.Prelude.{◌≡◌};

use std::marker::Model;

/// Bytes that stand in the field as they are read, and are lent from it.
#[derive(Debug, Drop)]
pub struct Lent<'a> {
    bytes: &'a [u8],
}

impl<'a> Model for Lent<'a> {
    ghost use Rattle.std.specs.Prelude.{List, ℕ};

    ghost Value = { List ℕ };

    ghost view = { λ l. l.bytes.now };
}

impl<'a> Lent<'a> {
    /// Lends the bytes.
    pub fn of(bytes: &'a [u8]) -> Lent<'a>
        ensures { result ≡ bytes.now }
    {
        Lent { bytes }
    }

    /// The bytes.
    pub fn as_slice(&self) -> &[u8]
        ensures { result.now ≡ self.now }
    {
        self.bytes
    }
}

/// Where the bytes of a string stand.
#[derive(Debug, Drop)]
enum Place<'a> {
    /// In the field.
    Lent(&'a [u8]),
    /// In memory of the string's own.
    Owned(Vec<u8>),
}

/// The bytes of a string, seen by contracts as their list. It borrows the field, or owns its bytes
/// where an escape was undone.
#[derive(Debug, Drop)]
pub struct Text<'a> {
    place: Place<'a>,
}

impl<'a> Model for Text<'a> {
    ghost use Rattle.std.specs.Prelude.{List, ℕ};
    ghost use Rattle.pe_fields.specs.Texts.{bytes_of};

    ghost Value = { List ℕ };

    ghost view = { λ t. bytes_of t.place };
}

impl<'a> Text<'a> {
    /// Owns the given bytes.
    pub fn of(bytes: Vec<u8>) -> Text<'a>
        ensures { result ≡ bytes.items }
    {
        Text {
            place: Place::Owned(bytes),
        }
    }

    /// Borrows the given bytes.
    pub fn lent(bytes: &'a [u8]) -> Text<'a>
        ensures { result ≡ bytes.now }
    {
        Text {
            place: Place::Lent(bytes),
        }
    }

    /// The bytes.
    pub fn as_slice(&self) -> &[u8]
        ensures { result.now ≡ self.now }
    {
        match &self.place {
            Place::Lent(bytes) => bytes,
            Place::Owned(bytes) => bytes,
        }
    }
}
