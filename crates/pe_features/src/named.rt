//! Rows of a table that are known by name.
ghost use Rattle.std.specs.Prelude.{◌≡◌, bytes_eq, find};

/// A row of a table, with a name.
pub(crate) trait Named: Copy {
    ghost use Rattle.std.specs.Prelude.{List, ℕ};

    ghost name_of: { Self → List ℕ };

    /// The row's name.
    fn name(self) -> &'static str
        ensures { result.now ≡ name_of self };
}

/// The first row of this name, compared byte for byte.
pub(crate) fn row_named<R: Named>(rows: &[R], text: &[u8]) -> Option<R>
    ensures { result ≡ find (λ row. bytes_eq (R.name_of row) text.now) rows.now }
{
    rows.iter()
        .copied()
        .find(|row| row.name().as_bytes() == text)
}
