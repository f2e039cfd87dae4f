//! Values: numbers with a sign.

ghost use Rattle.std.specs.Prelude.{◌≡◌, true, false, MatchOption, pos, neg_ℤ};
ghost use Rattle.jr_syntax.specs.Number.{is_number as number_word, number_of_digits};
ghost use Rattle.jr_syntax.specs.Kind.{ReadsWord};
ghost use Rattle.jr_syntax.specs.Value.{is_negative_word, is_value_word, is_long, value};

use crate::number::{is_number, long_up_to};

/// How far below 0 the least value lies.
const MOST_BELOW_ZERO: u64 = 9_223_372_036_854_775_808;

/// The greatest value.
const MOST_VALUE: u64 = 9_223_372_036_854_775_807;

/// Whether a word is a minus and a number other than 0.
fn is_negative(word: &[u8]) -> bool
    ensures { result ≡ is_negative_word word.now }
{
    match word.split_first() {
        None => false,
        Some((first, digits)) => {
            *first == b'-' && is_number(digits) && digits != b"0".as_slice()
        }
    }
}

/// Whether a word is a value, of any size.
pub fn is_value(word: &[u8]) -> bool
    ensures { result ≡ is_value_word word.now }
{
    is_number(word) || is_negative(word)
}

/// The integer that digits stand for behind a minus, if it has 64 bits.
fn below_zero(digits: &[u8]) -> Option<i64>
    requires { number_word digits.now ≡ true }
    ensures { let n = neg_ℤ (pos (number_of_digits digits.now)) in MatchOption result (is_long n ≡ false) (λ x. (is_long n ≡ true) × (x ≡ n)) }
{
    let n = long_up_to(digits, MOST_BELOW_ZERO)?;
    Some(-(n as i128) as i64)
}

/// The integer that digits stand for, if it has 64 bits.
fn from_zero(digits: &[u8]) -> Option<i64>
    requires { number_word digits.now ≡ true }
    ensures { let n = pos (number_of_digits digits.now) in MatchOption result (is_long n ≡ false) (λ x. (is_long n ≡ true) × (x ≡ n)) }
{
    let n = long_up_to(digits, MOST_VALUE)?;
    Some(n as i64)
}

/// The integer that a value stands for, if it has 64 bits.
pub fn long_of(word: &[u8]) -> Option<i64>
    requires { is_value_word word.now ≡ true }
    ensures { ReadsWord value word.now result }
{
    let (first, digits) = word.split_first()?;
    if *first == b'-' {
        below_zero(digits)
    } else {
        from_zero(word)
    }
}
