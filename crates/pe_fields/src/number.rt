//! Integers and decimals (RFC 8941, sections 3.3.1, 3.3.2 and 4.2.4).
ghost use Rattle.std.specs.Prelude.{◌≡◌, ◌≤◌, ◌<◌, length, option_map};
ghost use Rattle.std.specs.List.{list_all};
ghost use Rattle.std.specs.Str.Parse.{digits_value};
ghost use Rattle.pe_fields.specs.Alphabet.{is_digit};
ghost use Rattle.pe_fields.specs.Grammar.{AllBytes};
ghost use Rattle.pe_fields.specs.Numbers.{signed, thousandths};
ghost use Rattle.pe_fields.specs.Reading.{integer_of, decimal_of, number_at};

use crate::class::{Class, behind, run};
use crate::value::Bare;

/// The number that the digits write.
fn value_of(digits: &[u8]) -> u64
    requires digits { AllBytes is_digit digits.now }
    requires few { length digits.now ≤ 15 }
    ensures { result ≡ digits_value 10 digits.now }
{
    let mut value: u64 = 0;
    for b in digits {
        value = value * 10 + u64::from(*b - b'0');
    }
    value
}

/// The thousandths that one to three digits behind a point write.
fn thousandths(digits: &[u8]) -> u64
    requires digits { AllBytes is_digit digits.now }
    requires few { length digits.now ≤ 3 }
    requires some { 1 ≤ length digits.now }
    ensures value { result ≡ thousandths digits.now }
    ensures bound { result < 1000 }
{
    let value = value_of(digits);
    match digits.len() {
        1 => value * 100,
        2 => value * 10,
        _ => value,
    }
}

/// The number with its sign.
fn signed(negative: bool, value: u64) -> i64
    requires { value < 1000000000000000 }
    ensures { result ≡ signed negative value }
{
    let value = value as i64;
    if negative { -value } else { value }
}

/// An integer of these digits, of which there are 1 to 15.
fn integer(negative: bool, digits: &[u8]) -> Option<Bare<'_>>
    requires { AllBytes is_digit digits.now }
    ensures { result ≡ integer_of negative digits.now }
{
    if digits.is_empty() || digits.len() > 15 {
        return None;
    }
    Some(Bare::Integer(signed(negative, value_of(digits))))
}

/// A decimal of these digits, 1 to 12 before the point and 1 to 3 behind it.
fn decimal<'a>(negative: bool, whole: &'a [u8], fraction: &'a [u8]) -> Option<Bare<'a>>
    requires whole { AllBytes is_digit whole.now }
    requires fraction { AllBytes is_digit fraction.now }
    ensures { result ≡ decimal_of negative whole.now fraction.now }
{
    if whole.is_empty() || whole.len() > 12 || fraction.is_empty() || fraction.len() > 3 {
        return None;
    }
    let value = value_of(whole) * 1000 + thousandths(fraction);
    Some(Bare::Decimal(signed(negative, value)))
}

/// The number at the front, behind its sign.
#[tactic(auto, unfolding(crate::specs::Reading::number_at))]
pub fn number(negative: bool, bytes: &[u8]) -> Option<(Bare<'_>, &[u8])>
    ensures { option_map (λ x. (x.0, x.1.now)) result ≡ number_at negative bytes.now }
{
    let (whole, rest) = run(Class::Digit, bytes);
    let Some(after) = behind(b'.', rest) else {
        return Some((integer(negative, whole)?, rest));
    };
    let (fraction, rest) = run(Class::Digit, after);
    Some((decimal(negative, whole, fraction)?, rest))
}
