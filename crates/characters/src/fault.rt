//! Why characters are no good message. A Device meets a faulty message with silence.
ghost use Rattle.std.specs.Prelude.{◌≡◌};
ghost use Rattle.characters.specs.Numbers.{fault_layer, fault_number};

use std::error::Error;
use std::fmt;

/// Where a fault is found: in a single character, or in the message as a whole.
#[derive(Clone, Copy, PartialEq, Eq, Debug)]
pub enum Layer {
    Character,
    Message,
}

#[derive(Clone, Copy, PartialEq, Eq, Debug)]
pub enum Fault {
    /// No characters at all.
    Silence,
    /// The first character whose count of ones is odd, by its place from 0.
    Parity(usize),
    /// Not as many characters as the control octet and the line demand, by the count found.
    Length(usize),
    /// Another M-sequence type than the line's.
    WrongType,
    /// Another check than the octets have.
    Check,
}

impl Fault {
    pub fn layer(self) -> Layer
        ensures { result ≡ fault_layer self }
    {
        match self {
            Fault::Parity(_) => Layer::Character,
            Fault::Silence | Fault::Length(_) | Fault::WrongType | Fault::Check => Layer::Message,
        }
    }

    /// The place of the first wrong character, the count found, or 0: the rules give every fault
    /// a number.
    pub fn number(self) -> usize
        ensures { result ≡ fault_number self }
    {
        match self {
            Fault::Parity(place) => place,
            Fault::Length(found) => found,
            Fault::Silence | Fault::WrongType | Fault::Check => 0,
        }
    }
}

impl fmt::Display for Layer {
    fn fmt<W: fmt::Write>(&self, f: &mut fmt::Formatter<W>) -> fmt::Result {
        f.write_str(match self {
            Layer::Character => "character",
            Layer::Message => "message",
        })
    }
}

// By hand, since it is made of layer, cause and number.
impl fmt::Display for Fault {
    fn fmt<W: fmt::Write>(&self, f: &mut fmt::Formatter<W>) -> fmt::Result {
        let layer = self.layer();
        let cause = match self {
            Fault::Silence => "silence",
            Fault::Parity(_) => "parity",
            Fault::Length(_) => "length",
            Fault::WrongType => "type",
            Fault::Check => "check",
        };
        let number = self.number();
        write!(f, "{layer} {cause} {number}")
    }
}

impl Error for Fault {}
