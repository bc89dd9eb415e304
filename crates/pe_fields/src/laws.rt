//! Laws of the definitions, each the contract of a function that does nothing.
ghost use Rattle.std.specs.Prelude.{◌≡◌, ◌↔◌, ℕ, List, Some};
ghost use Rattle.pe_fields.specs.declared.value.Member.{Member};
ghost use Rattle.pe_fields.specs.Grammar.{IsField};
ghost use Rattle.pe_fields.specs.Reading.{dictionary};

/// The reading of a text finds exactly what the grammar holds of.
pub fn reading_is_the_grammar()
    ensures { (text : List ℕ) (members : List (List ℕ × Member)) →
        (dictionary text ≡ Some members) ↔ IsField text members }
{}

/// A text has at most one reading in the grammar.
pub fn one_reading()
    ensures { (text : List ℕ) (members others : List (List ℕ × Member)) →
        IsField text members → IsField text others → members ≡ others }
{}
