//! The words of the command line that ask for a script.
ghost use Rattle.std.specs.Prelude.{◌≡◌, ◌↔◌, ℕ, IfSome, None, Some, IsTrue, decimal, map};
ghost use Rattle.pe_generator.specs.Words.{IsSeed, IsCount, AreScriptWords, AsksForScript};
ghost use Rattle.std.specs.String.{string_bytes};

use itoa::Buffer;

/// The greatest count.
const MOST_LINES: u64 = 100_000;

/// Whether the word writes the number in decimal, without a leading zero.
fn is_decimal(word: &str, number: u64) -> bool
    ensures { IsTrue result ↔ (word.now ≡ decimal number) }
{
    let mut digits = Buffer::new();
    word == digits.format(number)
}

/// The seed that a word writes, in decimal without a leading zero.
#[tactic(auto, using(crate::proofs::Numerals::seed_parses))]
pub fn read_seed(word: &str) -> Option<u64>
    ensures read { IfSome result (λ seed. IsSeed seed word.now) }
    ensures none { result ≡ None → (seed : ℕ) → IsSeed seed word.now → ⊥ }
{
    let Ok(seed) = word.parse::<u64>() else {
        return None;
    };
    if is_decimal(word, seed) {
        return Some(seed);
    }
    None
}

/// The count that a word writes, 1 to 100,000, in decimal without a leading zero.
#[tactic(auto, using(crate::proofs::Numerals::seed_unique, crate::proofs::Numerals::seed_from_count))]
pub fn read_count(word: &str) -> Option<u32>
    ensures read { IfSome result (λ count. IsCount count word.now) }
    ensures none { result ≡ None → (count : ℕ) → IsCount count word.now → ⊥ }
{
    let count = read_seed(word)?;
    if count < 1 || count > MOST_LINES {
        return None;
    }
    Some(count as u32)
}

/// The seed and the count of the script that three words ask for.
#[tactic(auto, using(crate::proofs::Numerals::seed_unique, crate::proofs::Numerals::seed_from_count))]
fn asked_by(verb: &str, seed: &str, count: &str) -> Option<(u64, u32)>
    ensures asked { IfSome result (λ asked. AreScriptWords asked.0 asked.1 verb.now seed.now count.now) }
    ensures found { (m : ℕ) → (n : ℕ) → AreScriptWords m n verb.now seed.now count.now → result ≡ Some (m, n) }
{
    if verb != "generate" {
        return None;
    }
    let seed = read_seed(seed)?;
    let count = read_count(count)?;
    Some((seed, count))
}

/// The seed and the count of the script that the words ask for: `generate SEED COUNT`.
pub fn script_asked(words: &[String]) -> Option<(u64, u32)>
    ensures asked { IfSome result (λ asked. AsksForScript asked.0 asked.1 (map string_bytes words.now)) }
    ensures found { (seed : ℕ) → (count : ℕ) → AsksForScript seed count (map string_bytes words.now) → result ≡ Some (seed, count) }
{
    match words {
        [verb, seed, count] => asked_by(verb.as_str(), seed.as_str(), count.as_str()),
        _ => None,
    }
}
