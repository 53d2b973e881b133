//! What can be wrong with a line of a script.
ghost use Rattle.std.specs.Prelude.{◌≡◌};
ghost use Rattle.script.specs.declared.mistake.Mistake.TheVariants.{Memory};

use std::alloc::AllocError;
use std::fmt;
use text::flaw::Flaw;
use thiserror::Error;

/// A word of a command after its name.
#[derive(Clone, Copy, PartialEq, Eq, Debug)]
pub enum Part {
    Kind,
    OnRequestCount,
    InputCount,
    OutputCount,
    Control,
    Record,
    Outputs,
    OnRequest,
    Inputs,
    EventFlag,
    InvalidMark,
    Service,
    Index,
    Subindex,
    Octets,
}

impl fmt::Display for Part {
    fn fmt<W: fmt::Write>(&self, f: &mut fmt::Formatter<W>) -> fmt::Result {
        let name = match self {
            Part::Kind => "what to open",
            Part::OnRequestCount => "count of on-request octets",
            Part::InputCount => "count of input octets",
            Part::OutputCount => "count of output octets",
            Part::Control => "control octet",
            Part::Record => "characters",
            Part::Outputs => "outputs",
            Part::OnRequest => "on-request octets",
            Part::Inputs => "inputs",
            Part::EventFlag => "event flag",
            Part::InvalidMark => "invalid mark",
            Part::Service => "write or read",
            Part::Index => "index",
            Part::Subindex => "subindex",
            Part::Octets => "octets",
        };
        f.write_str(name)
    }
}

#[derive(PartialEq, Eq, Debug, Drop, Error)]
pub enum Mistake {
    /// No command has this name.
    #[error("no command is called '{0}'")]
    NoCommand(String),
    /// Nothing of this kind can be opened.
    #[error("'{0}' cannot be opened")]
    NoKind(String),
    /// An order is of no such kind.
    #[error("'{0}' is neither write nor read")]
    NoService(String),
    /// The line ends before this part.
    #[error("{0} missing")]
    Missing(Part),
    /// A word of another form than its part has.
    #[error("{part}: '{word}' {flaw}")]
    Wrong {
        part: Part,
        word: String,
        flaw: Flaw,
    },
    /// The first word that the command does not take.
    #[error("'{0}' is a word too many")]
    TooMany(String),
    /// No memory for what the line says.
    #[error("no memory left")]
    Memory,
}

impl From<AllocError> for Mistake {
    ghost from_gives = { λ _ mistake. mistake ≡ Memory };

    fn from(_e: AllocError) -> Mistake {
        Mistake::Memory
    }
}
