//! Digits: of the words that are read, and of what is shown.
ghost use Rattle.std.specs.Prelude.{◌≡◌, ◌<◌, ◌≤◌, IfSome};
ghost use Rattle.text.specs.Digit.{digit, glyph};
ghost use Rattle.text.specs.Number.{below};
ghost use Rattle.text.specs.Text.{more};

const GLYPHS: [u8; 16] = *b"0123456789ABCDEF";

/// The value of a digit of a radix, in upper or lower case.
pub(crate) fn digit_below(radix: u32, b: u8) -> Option<u32>
    requires least { 2 ≤ radix }
    requires most { radix ≤ 16 }
    ensures value { result ≡ below radix (digit b) }
    ensures bound { IfSome result (λ d. d < radix) }
{
    char::from(b).to_digit(radix)
}

/// The number of two hexadecimal digits.
pub(crate) fn two_digits(high: u8, low: u8) -> Option<u8>
    ensures { result ≡ more (digit high) (digit low) }
{
    let number = 16 * digit_below(16, high)? + digit_below(16, low)?;
    Some(number as u8)
}

/// The number of three hexadecimal digits: of two, and one more.
pub(crate) fn three_digits(high: u8, middle: u8, low: u8) -> Option<u16>
    ensures { result ≡ more (more (digit high) (digit middle)) (digit low) }
{
    let front = two_digits(high, middle)?;
    Some(16 * u16::from(front) + digit_below(16, low)? as u16)
}

/// The hexadecimal digit of a value below 16, in upper case.
pub(crate) fn glyph(value: u8) -> char
    requires { value < 16 }
    ensures value { result ≡ glyph value }
    ensures ascii { result < 128 }
{
    char::from(GLYPHS[usize::from(value)])
}
