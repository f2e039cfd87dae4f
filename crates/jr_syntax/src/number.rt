//! Numbers, as digits.

ghost use Rattle.std.specs.Prelude.{◌≡◌, true, MatchOption, ◌<◌, ◌≤◌};
ghost use Rattle.jr_syntax.specs.Number.{is_number as number_word, number_of_digits, all_digits};

use crate::name::is_digit;

fn are_digits(word: &[u8]) -> bool
    ensures { result ≡ all_digits word.now }
{
    word.iter().all(|c| is_digit(*c))
}

/// Whether a word is a number, of any size.
pub fn is_number(word: &[u8]) -> bool
    ensures { result ≡ number_word word.now }
{
    !word.is_empty() && are_digits(word) && (word[0] != b'0' || word.len() == 1)
}

/// The number that digits stand for, if it is at most a limit.
pub fn number_up_to(digits: &[u8], limit: u32) -> Option<u32>
    requires { number_word digits.now ≡ true }
    ensures { MatchOption result (limit < number_of_digits digits.now) (λ n. (n ≡ number_of_digits digits.now) × (n ≤ limit)) }
{
    let n = long_up_to(digits, limit as u64)?;
    Some(n as u32)
}

/// The same with more bits.
pub fn long_up_to(digits: &[u8], limit: u64) -> Option<u64>
    requires { number_word digits.now ≡ true }
    ensures { MatchOption result (limit < number_of_digits digits.now) (λ n. (n ≡ number_of_digits digits.now) × (n ≤ limit)) }
{
    let mut n = 0u128;
    for digit in digits {
        n = n * 10 + (*digit - b'0') as u128;
        if n > limit as u128 {
            return None;
        }
    }
    Some(n as u64)
}
