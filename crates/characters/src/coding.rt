ghost use Rattle.std.specs.Prelude.{◌≡◌, [], ◌∷◌, map, All, IfOk, OnOk, Some, None, MatchResult};
ghost use Rattle.characters.specs.Character.{Char, character, octet, odd_from};
ghost use Rattle.characters.specs.Characters.{Codes};
ghost use Rattle.characters.specs.Fault.{first_of, odd, silent};

use super::{Characters, MOST};
use crate::fault::Fault;
use octets::Octets;

// The character of an octet: bit 8 makes the count of ones even.
#[tactic(auto, using(crate::proofs::OneToOne::char))]
fn to_character(value: u8) -> u16
    ensures value { result ≡ character value }
    ensures back { octet result ≡ value }
    ensures right { Char result }
{
    u16::from(value) + 256 * (value.count_ones() % 2) as u16
}

// The place of the first character with an odd count of ones.
fn odd_place(characters: &[u16]) -> Option<usize>
    ensures { result ≡ odd_from 0 characters.now }
{
    characters
        .iter()
        .position(|character| character.count_ones() % 2 != 0)
}

// The octet of a character: its bits 0 to 7.
fn to_octet(character: u16) -> u8
    ensures { result ≡ octet character }
{
    (character % 256) as u8
}

/// The characters of octets.
impl From<&Octets<MOST>> for Characters {
    ghost from_gives = { λ octets characters. Codes octets.now characters };

    fn from(octets: &Octets<MOST>) -> Characters {
        Characters {
            row: octets.map(to_character),
        }
    }
}

impl Characters {
    // A method: `Octets::<MOST>::try_from(&record)` would say less, with the count written out.
    /// The octets of the characters, if there are any and the count of ones in each is even.
    pub fn octets(&self) -> Result<Octets<MOST>, Fault>
        ensures cases { MatchResult result (λ os. (first_of (silent self.now ∷ odd self.now ∷ []) ≡ None) × (os ≡ map octet self.now)) (λ f. first_of (silent self.now ∷ odd self.now ∷ []) ≡ Some f) }
        ensures back { IfOk result (λ os. map character os ≡ self.now) }
        ensures right { OnOk result (All Char self.now) }
    {
        let characters = self.as_slice();
        if characters.is_empty() {
            return Err(Fault::Silence);
        }
        match odd_place(characters) {
            Some(place) => Err(Fault::Parity(place)),
            None => Ok(self.row.map(to_octet)),
        }
    }
}
