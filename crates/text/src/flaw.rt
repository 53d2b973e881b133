//! What can be wrong with a word of a script.
ghost use Rattle.std.specs.Prelude.{◌≡◌};
ghost use Rattle.text.specs.declared.flaw.Flaw.TheVariants.{Memory};

use std::alloc::{AllocError, AllocFailed};
use thiserror::Error;

#[derive(Clone, Copy, PartialEq, Eq, Debug, Error)]
pub enum Flaw {
    /// No decimal number, and none in hexadecimal after `0x`.
    #[error("is no number, decimal or hexadecimal after 0x")]
    NoNumber,
    /// A number above the largest of its kind.
    #[error("is too large")]
    TooLarge,
    /// An octet wants two digits.
    #[error("has an odd count of digits, and an octet has two")]
    OddDigits,
    /// Not all of it is hexadecimal digits.
    #[error("is not all hexadecimal digits")]
    NoDigit,
    /// Not three hexadecimal digits to a character, with a `.` between two characters.
    #[error("is not three hexadecimal digits to a character, joined by '.'")]
    NoCharacters,
    /// Neither 0 nor 1.
    #[error("is neither 0 nor 1")]
    NoFlag,
    /// No memory for what was read.
    #[error("finds no memory")]
    Memory,
}

impl From<AllocError> for Flaw {
    ghost from_gives = { λ _ r. r ≡ Memory };

    fn from(_e: AllocError) -> Flaw {
        Flaw::Memory
    }
}

impl<T: Drop> From<AllocFailed<T>> for Flaw {
    ghost from_gives = { λ _ r. r ≡ Memory };

    fn from(_e: AllocFailed<T>) -> Flaw {
        Flaw::Memory
    }
}
