//! HEX: two hexadecimal digits for each octet, and `-` for none.
ghost use Rattle.std.specs.Prelude.{◌≡◌, IfOk, Some, string_bytes, slice_index, MatchResult};
ghost use Rattle.std.specs.Option.{ok_or};
ghost use Rattle.text.specs.Digit.{digit};
ghost use Rattle.text.specs.declared.flaw.Flaw.TheVariants.{NoDigit};
ghost use Rattle.text.specs.Text.{hex_text, is_dash, more, read_hex, two_digits};
ghost use Rattle.text.specs.Why.{WhyNoHex};
ghost use Rattle.std.specs.Fmt.{WritesOnOk};

use crate::digit::{glyph, two_digits};
use crate::flaw::Flaw;
use std::alloc::{AllocError, Global};
use std::fmt;

/// Whether a word is `-`, the text of nothing.
pub(crate) fn is_dash(word: &[u8]) -> bool
    ensures { result ≡ is_dash word.now }
{
    matches!(word, [b'-'])
}

/// The octets of a HEX word.
pub fn parse_hex(heap: Global, word: &[u8]) -> Result<Vec<u8>, Flaw>
    ensures { MatchResult result (λ v. read_hex word.now ≡ Some v.items) (λ e. WhyNoHex word.now e) }
{
    if is_dash(word) {
        return Ok(Vec::new(heap));
    }
    let (pairs, []) = word.as_chunks::<2>() else {
        return Err(Flaw::OddDigits);
    };
    pairs.iter().map(octet).try_collect(heap)
}

// The octet of two digits.
fn octet(pair: &[u8; 2]) -> Result<u8, Flaw>
    ensures { result ≡ ok_or (more (digit (slice_index pair.now 0)) (digit (slice_index pair.now 1))) NoDigit }
{
    let [high, low] = pair;
    two_digits(*high, *low).ok_or(Flaw::NoDigit)
}

/// Octets that are shown as HEX.
#[derive(Clone, Copy, PartialEq, Eq, Debug)]
pub struct Hex<'a>(pub &'a [u8]);

impl fmt::Display for Hex<'_> {
    ghost output = { λ x. Some (hex_text x.0.now) };

    fn fmt<W: fmt::Write>(&self, f: &mut fmt::Formatter<W>) -> fmt::Result {
        let octets = self.0;
        if octets.is_empty() {
            return f.write_str("-");
        }
        for octet in octets {
            write_octet(f, *octet)?;
        }
        Ok(())
    }
}

// Writes the two digits of an octet.
// By `write_char`: with `{:02X}` a line that shows many octets takes 1.3 to 1.4 times as long.
fn write_octet<W: fmt::Write>(f: &mut fmt::Formatter<W>, octet: u8) -> fmt::Result
    ensures { WritesOnOk W.write_str_gives f.old result (two_digits octet) f.new }
{
    f.write_char(glyph(octet / 16))?;
    f.write_char(glyph(octet % 16))
}

/// The HEX of octets. It is read as them.
#[tactic(auto, using(crate::proofs::Hexes::hex_back))]
pub fn hex_text(heap: Global, octets: &[u8]) -> Result<String, AllocError>
    ensures text { IfOk result (λ s. string_bytes s ≡ hex_text octets.now) }
    ensures back { IfOk result (λ s. read_hex (string_bytes s) ≡ Some octets.now) }
{
    Hex(octets).to_string(heap)
}
