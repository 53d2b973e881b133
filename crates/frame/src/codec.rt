//! Messages and answers to characters and back, for the lengths of a line and an M-sequence type.
ghost use Rattle.std.specs.Prelude.{◌≡◌};

use crate::lengths::Lengths;
use crate::message::SequenceType;

// No twins: a message says its access, an answer is read by that of its message, and their parts,
// tests and places differ.
mod answer;
mod master;
mod seal;

#[derive(Clone, Copy, PartialEq, Eq, Debug)]
pub struct Codec {
    lengths: Lengths,
    kind: SequenceType,
}

impl Codec {
    pub fn new(lengths: Lengths, kind: SequenceType) -> Codec
        ensures { (result.lengths ≡ lengths) × (result.kind ≡ kind) }
    {
        Codec { lengths, kind }
    }

    pub fn lengths(&self) -> Lengths
        ensures { result ≡ self.now.lengths }
    {
        self.lengths
    }
}
