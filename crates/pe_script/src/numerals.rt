//! The numbers of a script line: times, spans and the names of objects.
ghost use Rattle.std.specs.Prelude.{◌≡◌, ◌≤◌, length, true, option_and_then};
ghost use Rattle.std.specs.List.{list_all};
ghost use Rattle.pe_script.specs.Numerals.{is_digit, bare, is_positive, number_of, positive, time_of, span_of, object};

use pe_lines::WordSpan;

/// Whether the byte is a decimal digit.
fn is_digit(byte: u8) -> bool
    ensures { result ≡ is_digit byte }
{
    b'0' <= byte && byte <= b'9'
}

/// Whether each byte is a decimal digit.
fn are_digits(bytes: &[u8]) -> bool
    ensures { result ≡ list_all is_digit bytes.now }
{
    bytes.iter().all(|byte| is_digit(*byte))
}

/// Whether the bytes are digits of a number above 0, without a leading zero.
#[tactic(auto, using(crate::proofs::Digits::are_positive))]
fn is_positive(digits: &[u8]) -> bool
    ensures { result ≡ is_positive digits.now }
{
    match digits {
        [] => false,
        [byte, ..] => {
            if *byte == b'0' {
                return false;
            }
            are_digits(digits)
        }
    }
}

/// The number that so few digits write.
fn number_of(digits: &[u8]) -> u64
    requires digits { list_all is_digit digits.now ≡ true }
    requires few { length digits.now ≤ 13 }
    ensures { result ≡ number_of digits.now }
{
    let mut number = 0;
    for digit in digits {
        number = 10 * number + u64::from(*digit - b'0');
    }
    number
}

/// The number above 0 that at most so many decimal digits write, without a leading zero.
#[tactic(auto, using(crate::proofs::Digits::all_digits), unfolding(crate::specs::Numerals::positive))]
pub fn positive(digits: &[u8], most: usize) -> Option<u64>
    requires { most ≤ 13 }
    ensures { result ≡ positive most digits.now }
{
    if !is_positive(digits) || digits.len() > most {
        return None;
    }
    Some(number_of(digits))
}

/// A time in milliseconds: 0, or at most 13 digits without a leading zero.
#[tactic(auto, unfolding(crate::specs::Numerals::time_of))]
pub fn time(word: &WordSpan<'_>) -> Option<u64>
    ensures { result ≡ option_and_then time_of (bare word.now) }
{
    match word.bare()? {
        b"0" => Some(0),
        digits => positive(digits, 13),
    }
}

/// A span in milliseconds: at most 13 digits of a number above 0.
#[tactic(auto, unfolding(crate::specs::Numerals::span_of))]
pub fn span(word: &WordSpan<'_>) -> Option<u64>
    ensures { result ≡ option_and_then span_of (bare word.now) }
{
    positive(word.bare()?, 13)
}

/// The number of the object that a bare word names, by the letter in front of it.
#[tactic(auto, unfolding(crate::specs::Numerals::object, crate::specs::Numerals::named_by))]
pub fn object(word: &WordSpan<'_>, letter: u8) -> Option<u32>
    ensures { result ≡ object letter word.now }
{
    match word.bare()? {
        [] => None,
        [first, digits @ ..] => {
            if *first != letter {
                return None;
            }
            Some(positive(digits, 7)? as u32)
        }
    }
}
