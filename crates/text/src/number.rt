//! Numbers, decimal or hexadecimal after `0x`, and flags.
ghost use Rattle.std.specs.Prelude.{◌≡◌, ◌≤◌, Some, None, MatchResult};
ghost use Rattle.text.specs.Number.{read_flag, read_number, value};
ghost use Rattle.text.specs.Why.{WhyNone};
ghost use Rattle.text.specs.declared.flaw.Flaw.TheVariants.{NoFlag};

use crate::digit::digit_below;
use crate::flaw::Flaw;

/// The number of a word, if it is at most `most`.
pub fn parse_number(word: &[u8], most: u32) -> Result<u32, Flaw>
    ensures { MatchResult result (λ n. (read_number word.now ≡ Some n) × (n ≤ most)) (λ e. WhyNone (read_number word.now) most e) }
{
    match word {
        [b'0', b'x', digits @ ..] => digits_value(digits, 16, most),
        _ => digits_value(word, 10, most),
    }
}

// The number of digits of a radix, if it is at most `most`.
fn digits_value(digits: &[u8], radix: u32, most: u32) -> Result<u32, Flaw>
    requires some { 2 ≤ radix }
    requires bound { radix ≤ 16 }
    ensures { MatchResult result (λ n. (value radix digits.now ≡ Some n) × (n ≤ most)) (λ e. WhyNone (value radix digits.now) most e) }
{
    if digits.is_empty() {
        return Err(Flaw::NoNumber);
    }
    // A `try_fold` would move these two exits into a closure, and read no plainer.
    let mut number = 0;
    for b in digits {
        let Some(digit) = digit_below(radix, *b) else {
            return Err(Flaw::NoNumber);
        };
        let next = u64::from(number) * u64::from(radix) + u64::from(digit);
        if next > u64::from(most) {
            return Err(Flaw::TooLarge);
        }
        number = next as u32;
    }
    Ok(number)
}

/// 0 or 1.
pub fn parse_flag(word: &[u8]) -> Result<bool, Flaw>
    ensures { MatchResult result (λ b. read_flag word.now ≡ Some b) (λ e. (read_flag word.now ≡ None) × (e ≡ NoFlag)) }
{
    match word {
        [b'0'] => Ok(false),
        [b'1'] => Ok(true),
        _ => Err(Flaw::NoFlag),
    }
}
