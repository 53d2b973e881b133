//! CHARS: three hexadecimal digits for each character, joined by `.`, and `-` for none.
ghost use Rattle.std.specs.Prelude.{◌≡◌, true, IfOk, Some, string_bytes, slice_index, MatchResult};
ghost use Rattle.std.specs.Option.{ok_or};
ghost use Rattle.text.specs.declared.flaw.Flaw.TheVariants.{NoCharacters};
ghost use Rattle.octets.specs.Below.{all_below};
ghost use Rattle.text.specs.Text.{chars_text, dotted_one, read_chars, three_digits};
ghost use Rattle.text.specs.Why.{WhyNoChars};
ghost use Rattle.std.specs.Fmt.{WritesOnOk};

use crate::digit::{glyph, three_digits};
use crate::flaw::Flaw;
use crate::hex::is_dash;
use std::alloc::{AllocError, Global};
use std::fmt;

// CHARS stands beside HEX, and no one function serves both: the `.` stands between two characters,
// so the last is read, and the first is shown, apart from the others.

/// The characters of a CHARS word, as numbers below 4096: which of them are characters of a line
/// is for the line to say.
pub fn parse_chars(heap: Global, word: &[u8]) -> Result<Vec<u16>, Flaw>
    ensures { MatchResult result (λ v. read_chars word.now ≡ Some v.items) (λ e. WhyNoChars word.now e) }
{
    if is_dash(word) {
        return Ok(Vec::new(heap));
    }
    let (dotted, [high, middle, low]) = word.as_chunks::<4>() else {
        return Err(Flaw::NoCharacters);
    };
    let Some(last) = three_digits(*high, *middle, *low) else {
        return Err(Flaw::NoCharacters);
    };
    let mut characters: Vec<u16> = dotted.iter().map(dotted_character).try_collect(heap)?;
    characters.push(last)?;
    Ok(characters)
}

// The character of three digits and the `.` behind them.
fn dotted_character(group: &[u8; 4]) -> Result<u16, Flaw>
    ensures { result ≡ ok_or (dotted_one (slice_index group.now 3) (slice_index group.now 0) (slice_index group.now 1) (slice_index group.now 2)) NoCharacters }
{
    match group {
        [high, middle, low, b'.'] => {
            three_digits(*high, *middle, *low).ok_or(Flaw::NoCharacters)
        }
        _ => Err(Flaw::NoCharacters),
    }
}

/// Characters that are shown as CHARS.
#[derive(Clone, Copy, PartialEq, Eq, Debug)]
pub struct Chars<'a>(pub &'a [u16]);

impl fmt::Display for Chars<'_> {
    ghost output = { λ x. Some (chars_text x.0.now) };

    fn fmt<W: fmt::Write>(&self, f: &mut fmt::Formatter<W>) -> fmt::Result {
        let [first, rest @ ..] = self.0 else {
            return f.write_str("-");
        };
        write_character(f, *first)?;
        for character in rest {
            f.write_char('.')?;
            write_character(f, *character)?;
        }
        Ok(())
    }
}

// Writes the last three digits of a character.
fn write_character<W: fmt::Write>(f: &mut fmt::Formatter<W>, character: u16) -> fmt::Result
    ensures { WritesOnOk W.write_str_gives f.old result (three_digits character) f.new }
{
    f.write_char(glyph((character / 256 % 16) as u8))?;
    f.write_char(glyph((character / 16 % 16) as u8))?;
    f.write_char(glyph((character % 16) as u8))
}

/// The CHARS of characters. Of characters below 4096 it is read as them.
#[tactic(auto, using(crate::proofs::Dots::chars_back))]
pub fn chars_text(heap: Global, characters: &[u16]) -> Result<String, AllocError>
    ensures text { IfOk result (λ s. string_bytes s ≡ chars_text characters.now) }
    ensures back { all_below 4096 characters.now ≡ true → IfOk result (λ s. read_chars (string_bytes s) ≡ Some characters.now) }
{
    Chars(characters).to_string(heap)
}
