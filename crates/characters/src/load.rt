ghost use Rattle.std.specs.Prelude.{◌≡◌, ◌<◌, ◌≤◌, [], length, All, Some, None, MatchResult};
ghost use Rattle.characters.specs.Character.{load_refusal};
ghost use Rattle.characters.specs.Numbers.{refusal_number};
ghost use Rattle.octets.specs.Below.{all_below};

use super::Characters;
use crate::refusal::Refusal;
use octets::Row;

impl Characters {
    /// No characters: silence.
    pub fn new() -> Characters
        ensures { result ≡ [] }
    {
        Characters { row: Row::new() }
    }

    /// Holds the numbers in place of what it held, if they are characters.
    pub fn load(&mut self, numbers: &[u16]) -> Result<(), Refusal>
        ensures { MatchResult result (λ _. (load_refusal numbers.now ≡ None) × (self.new ≡ numbers.now)) (λ e. (load_refusal numbers.now ≡ Some (refusal_number e)) × (self.new ≡ self.old)) }
    {
        *self = Characters::try_from(numbers)?;
        Ok(())
    }

    pub fn as_slice(&self) -> &[u16]
        ensures value { result.now ≡ self.now }
        ensures bound { length result.now ≤ 66 }
        ensures nine { All (λ c. c < 512) self.now }
    {
        self.row.as_slice()
    }

    pub fn len(&self) -> usize
        ensures value { result ≡ length self.now }
        ensures bound { result ≤ 66 }
    {
        self.row.len()
    }
}

impl TryFrom<&[u16]> for Characters {
    type Error = Refusal;

    ghost try_from_gives = { λ numbers r. MatchResult r (λ cs. (load_refusal numbers.now ≡ None) × (cs ≡ numbers.now)) (λ e. load_refusal numbers.now ≡ Some (refusal_number e)) };

    fn try_from(numbers: &[u16]) -> Result<Characters, Refusal> {
        let Ok(row) = Row::try_from(numbers) else {
            return Err(Refusal::TooManyCharacters);
        };
        if all_characters(numbers) {
            Ok(Characters { row })
        } else {
            Err(Refusal::NoCharacter)
        }
    }
}

// Whether each number has at most nine bits.
fn all_characters(numbers: &[u16]) -> bool
    ensures { result ≡ all_below 512 numbers.now }
{
    numbers.iter().all(|number| *number < 512)
}
