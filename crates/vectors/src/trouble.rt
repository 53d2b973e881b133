//! Why a task of the table gives nothing to compare.
ghost use Rattle.std.specs.Prelude.{◌≡◌};
ghost use Rattle.vectors.specs.declared.trouble.Trouble.TheVariants.{Memory};

use std::alloc::AllocError;
use thiserror::Error;

#[derive(Clone, Copy, PartialEq, Eq, Debug, Error)]
pub enum Trouble {
    #[error("no place or no octets")]
    NoPlace,
    #[error("no octets")]
    NoOctets,
    #[error("no lengths")]
    NoLengths,
    #[error("no command")]
    NoCommand,
    /// A command that writes no message and no answer.
    #[error("no command for a vector")]
    OtherCommand,
    #[error("too many octets")]
    TooManyOctets,
    /// The octets are read as another message or answer than the task says.
    #[error("another message when read")]
    OtherMessage,
    #[error("another answer when read")]
    OtherAnswer,
    /// Characters were written that have a fault.
    #[error("characters with a fault")]
    Faulty,
    #[error("memory allocation failed")]
    Memory,
}

impl From<AllocError> for Trouble {
    ghost from_gives = { λ _ trouble. trouble ≡ Memory };

    fn from(_e: AllocError) -> Trouble {
        Trouble::Memory
    }
}
