//! Laws of lines and words, for proofs of callers: each function only states what is true of the
//! definitions, and does nothing.
ghost use Rattle.std.specs.Prelude.{◌≡◌, ℕ, ◌↔◌, List, [], ◌∷◌, ◌++◌, Option, Some, false};
ghost use Rattle.pe_lines.specs.Lines.{lines_or_too_long, ended_lines_or_too_long};
ghost use Rattle.pe_lines.specs.Rests.{Rest};
ghost use Rattle.pe_lines.specs.Cutting.{Cuts, TakesLine, TakesLast, TakesNext};
ghost use Rattle.pe_lines.specs.Words.{Word, words_of};
ghost use Rattle.pe_lines.specs.Grammar.{AreWords};

/// The words of a line are those that the grammar makes it of.
pub fn words_are_by_grammar()
    ensures { (line : List ℕ) → (words : List Word) → (words_of line ≡ Some words) ↔ AreWords line words }
{}

/// Lines that a line feed ended stay, whatever comes behind them.
pub fn ended_lines_stay()
    ensures ended { (bytes : List ℕ) → (more : List ℕ) →
        ((added : List (Option (List ℕ))) × (ended_lines_or_too_long (bytes ++ more) ≡ ended_lines_or_too_long bytes ++ added)) }
    ensures all { (bytes : List ℕ) →
        ((added : List (Option (List ℕ))) × (lines_or_too_long bytes ≡ ended_lines_or_too_long bytes ++ added)) }
{}

/// How the lines that were taken off an input go on.
pub fn cuts_go_on()
    // Nothing was taken off yet, more is fed, and further lines are taken off.
    ensures none { (bytes : List ℕ) → Cuts bytes [] bytes }
    ensures feed { (bytes : List ℕ) → (done : List (Option (List ℕ))) → (rest : List ℕ) → (piece : List ℕ) →
        Cuts bytes done rest → Cuts (bytes ++ piece) done (rest ++ piece) }
    ensures join { (bytes : List ℕ) → (done : List (Option (List ℕ))) → (mid : List ℕ) → (next : List (Option (List ℕ))) → (rest : List ℕ) →
        Cuts bytes done mid → Cuts mid next rest → Cuts bytes (done ++ next) rest }

    // Before the input ends a line feed ended the line that is taken off; where none is left it is the last.
    ensures before_end { (old : Rest) → (new : Rest) → (line : Option (List ℕ)) →
        old.finished ≡ false → TakesNext old new line → TakesLine old.bytes new.bytes line }
    ensures at_end { (old : Rest) → (new : Rest) → (line : Option (List ℕ)) →
        ended_lines_or_too_long old.bytes ≡ [] → TakesNext old new line → TakesLast old.bytes new.bytes line }

    // No whole line is left, the last line was taken off, and nothing is left.
    ensures ended { (bytes : List ℕ) → (done : List (Option (List ℕ))) → (rest : List ℕ) →
        Cuts bytes done rest → ended_lines_or_too_long rest ≡ [] → ended_lines_or_too_long bytes ≡ done }
    ensures last { (bytes : List ℕ) → (done : List (Option (List ℕ))) → (old : List ℕ) → (new : List ℕ) → (line : Option (List ℕ)) →
        Cuts bytes done old → TakesLast old new line → lines_or_too_long bytes ≡ done ++ line ∷ [] }
    ensures all { (bytes : List ℕ) → (done : List (Option (List ℕ))) →
        Cuts bytes done [] → lines_or_too_long bytes ≡ done }
{}
