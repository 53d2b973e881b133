//! Why a call is refused. A refused call changes nothing.
ghost use Rattle.std.specs.Prelude.{◌≡◌};
ghost use Rattle.characters.specs.Numbers.{refusal_number};

use thiserror::Error;

#[derive(Clone, Copy, PartialEq, Eq, Debug, Error)]
pub enum Refusal {
    /// More than 66 characters to load.
    #[error("more characters than a message has at most, 66")]
    TooManyCharacters = 1,
    /// A number above 511 to load as a character.
    #[error("a number above 1FF is no character")]
    NoCharacter = 2,
    /// Lengths that no line has.
    #[error("no line has these lengths")]
    WrongLengths = 3,
    /// A write of no octets, or of more than 232.
    #[error("a write has 1 to 232 octets")]
    WrongDataCount = 9,
}

impl Refusal {
    /// The number that the rules give the refusal: the program and its users know it by that.
    pub fn number(self) -> u8
        ensures { result ≡ refusal_number self }
    {
        self as u8
    }
}
