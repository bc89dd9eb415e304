//! A text of a line.
ghost use Rattle.std.specs.Prelude.{◌≡◌, ◌++◌, IfOk, Some, None, is_some};
ghost use Rattle.std.specs.Box.{box_value};
ghost use Rattle.std.specs.Option.{option_copied};

use std::alloc::{AllocError, Global};
use std::marker::Model;
use std::mem::size_of;

/// Where the bytes of a text stand.
#[derive(Debug, Drop)]
enum Place<'a> {
    /// In the line.
    Lent(&'a [u8]),
    /// In memory of the text's own.
    Owned(Box<Vec<u8>>),
}

/// A text of a line, seen by contracts as the list of its bytes. It borrows the line, or owns its
/// bytes where an escape was undone or texts were joined. It takes 24 bytes.
#[derive(Debug, Drop)]
pub struct Text<'a> {
    place: Place<'a>,
}

impl<'a> Model for Text<'a> {
    ghost use Rattle.std.specs.Prelude.{ℕ, List};
    ghost use Rattle.pe_lines.specs.Texts.{bytes_of};

    ghost Value = { List ℕ };

    ghost view = { λ t. bytes_of t.place };
}

impl<'a> Text<'a> {
    /// Owns the given bytes.
    pub fn of(bytes: Box<Vec<u8>>) -> Text<'a>
        ensures { result ≡ (box_value bytes).items }
    {
        Text {
            place: Place::Owned(bytes),
        }
    }

    /// Borrows the given bytes.
    pub fn lent(bytes: &'a [u8]) -> Text<'a>
        ensures { result ≡ bytes.now }
    {
        prove!(size_of::<Text<'a>>() == 24);
        Text {
            place: Place::Lent(bytes),
        }
    }

    /// A text with a separator and more bytes behind it. It owns its bytes, and what the text owned
    /// before is grown. `AllocError` where memory wants.
    pub fn joined(
        alloc: Global,
        front: Text<'a>,
        separator: &[u8],
        back: &[u8],
    ) -> Result<Text<'a>, AllocError>
        ensures { IfOk result (λ text. text ≡ front.entry ++ separator.now ++ back.now) }
    {
        let room = separator.len().saturating_add(back.len());
        let mut bytes = front.into_bytes(alloc, room)?;
        bytes.extend_from_slice(separator)?;
        bytes.extend_from_slice(back)?;
        Ok(Text::of(bytes))
    }

    /// The bytes, which are copied where they are lent, with room for so many more behind them.
    fn into_bytes(self, alloc: Global, room: usize) -> Result<Box<Vec<u8>>, AllocError>
        ensures { IfOk result (λ bytes. (box_value bytes).items ≡ self.entry) }
    {
        match self.place {
            Place::Lent(bytes) => {
                let mut copy = Vec::with_capacity(alloc, bytes.len().saturating_add(room))?;
                copy.extend_from_slice(bytes)?;
                Ok(Box::new(alloc, copy)?)
            }
            Place::Owned(bytes) => Ok(bytes),
        }
    }

    /// The bytes.
    pub fn as_slice(&self) -> &[u8]
        ensures { result.now ≡ self.now }
    {
        match &self.place {
            Place::Lent(bytes) => bytes,
            Place::Owned(bytes) => bytes,
        }
    }
}

/// Where the bytes of a text stand, if there is one.
#[derive(Debug, Drop)]
enum OptionalPlace<'a> {
    /// There is no text.
    Absent,
    /// In the line.
    Lent(&'a [u8]),
    /// In memory of the text's own.
    Owned(Box<Vec<u8>>),
}

/// A text of a line or none, seen by contracts as the list of its bytes or None. It takes 24 bytes,
/// as a text does.
#[derive(Debug, Drop)]
pub struct OptionalText<'a> {
    place: OptionalPlace<'a>,
}

impl<'a> Model for OptionalText<'a> {
    ghost use Rattle.std.specs.Prelude.{ℕ, List, Option};
    ghost use Rattle.pe_lines.specs.Texts.{optional_bytes_of};

    ghost Value = { Option (List ℕ) };

    ghost view = { λ t. optional_bytes_of t.place };
}

impl<'a> OptionalText<'a> {
    /// No text.
    pub fn none() -> OptionalText<'a>
        ensures { result ≡ None }
    {
        prove!(size_of::<OptionalText<'a>>() == 24);
        OptionalText {
            place: OptionalPlace::Absent,
        }
    }

    /// The given text.
    pub fn of(text: Text<'a>) -> OptionalText<'a>
        ensures { result ≡ Some text.entry }
    {
        let place = match text.place {
            Place::Lent(bytes) => OptionalPlace::Lent(bytes),
            Place::Owned(bytes) => OptionalPlace::Owned(bytes),
        };
        OptionalText { place }
    }

    /// Whether there is a text.
    pub fn is_some(&self) -> bool
        ensures { result ≡ is_some self.now }
    {
        !matches!(&self.place, OptionalPlace::Absent)
    }

    /// The bytes of the text, where there is one.
    pub fn get(&self) -> Option<&[u8]>
        ensures { option_copied result ≡ self.now }
    {
        match &self.place {
            OptionalPlace::Absent => None,
            OptionalPlace::Lent(bytes) => Some(bytes),
            OptionalPlace::Owned(bytes) => Some(bytes.as_slice()),
        }
    }

    /// The text, where there is one.
    pub fn into_text(self) -> Option<Text<'a>>
        ensures { result ≡ self.entry }
    {
        let place = match self.place {
            OptionalPlace::Absent => return None,
            OptionalPlace::Lent(bytes) => Place::Lent(bytes),
            OptionalPlace::Owned(bytes) => Place::Owned(bytes),
        };
        Some(Text { place })
    }
}
